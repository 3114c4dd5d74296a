//! What the program does without a database, and how it reads and writes.
#![tactic(auto)]

mod accounts;
mod check;
mod fault;
mod files;
mod hexadecimal;
mod known;
mod output;
mod rules;
mod settings;
mod source;
mod status;
mod tst;

pub use accounts::{account_named, account_of};
pub use check::{check_policy, read_policy};
pub use fault::{Fault, InputFault};
pub use files::{read_algorithm, read_identity, read_signer};
pub use hexadecimal::{read_hexadecimal, write_hexadecimal};
pub use output::write_answer;
pub use source::FileSource;
pub use status::{DONE, FAULT, WORDS_REFUSED, explain, refuse_octets, report};
pub use tst::answer_tst;
