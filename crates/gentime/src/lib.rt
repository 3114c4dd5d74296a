//! Moments and the genTime of a time-stamp (RFC 3161 2.4.2): a GeneralizedTime in DER (X.690 11.7).
#![tactic(auto)]

mod components;
mod fault;
mod laws;
mod moment;
mod parser;

pub use fault::GenTimeFault;
pub use laws::{texts_are_distinct, texts_are_rounded, texts_are_short};
pub use moment::{GenTime, LAST_MOMENT, read};
