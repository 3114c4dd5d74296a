//! The command line of the counter: what its words ask for.
#![tactic(auto)]

mod command;
mod options;
mod parse;
mod refusal;
mod signer;
mod table;
mod version;
mod words;

pub use refusal::WordsRefusal;
pub use words::{
    AnswerWords, AuditWords, CalibrateWords, CheckWords, ContinueWords, DeskWords, ExchangeWords,
    ExplainWords, FloorWords, HoldWords, InitWords, MigrateWords, ServeWords, SignerWords,
    TstWords, Word,
};
