//! Whether stamps that were given are given by the rules of a policy file, from what the tables keep.
#![tactic(auto)]

mod evidence;
mod explanation;
mod journeys;
mod judgement;
mod lines;
mod past;
mod readings;
mod row;
mod stamps;

pub use evidence::{Before, Evidence};
pub use explanation::explain;
pub use journeys::journeys_are_given_by_rules;
pub use judgement::Judgement;
pub use past::Past;
pub use stamps::{judge, judge_behind, judgements_say_what_is_given};
