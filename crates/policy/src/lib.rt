//! The policy file of a Time-Stamping Authority: what it may write into its tokens, and for whom.
#![tactic(auto)]

mod accounts;
mod arrays;
mod document;
mod entries;
mod example;
mod fault;
mod field;
mod find;
mod groups;
mod hash_algorithm;
mod laws;
mod parser;
mod policy;

pub use entries::{Account, Algorithm, Counter, Extension, Group, TsaPolicy};
pub use example::EXAMPLE;
pub use fault::PolicyFault;
pub use field::Field;
pub use groups::GroupNames;
pub use hash_algorithm::HashAlgorithm;
pub use laws::records_are_sound;
pub use policy::Policy;
