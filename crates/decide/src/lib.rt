//! The decision on a time-stamp request (RFC 3161 2.4.1) under a written policy (in the manner of RFC 3628): the
//! clock's state, the rules in their order, and the verdict. No call takes memory, and all succeed.
#![tactic(auto)]

mod accounts;
mod clock;
mod facts;
mod judge;
mod laws;
mod rules;
mod verdict;

pub use clock::{ClockState, clock_state, deviation_of, now_of};
pub use facts::{Calibration, ClockFacts, Facts, Hold};
pub use judge::{decide, judge_request};
pub use laws::{
    gen_times_are_one, good_clocks_keep_the_accuracy, verdicts_are_of_octets, verdicts_are_one,
};
pub use verdict::{Plan, Verdict};
