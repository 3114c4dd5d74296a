//! Trials of the counter in one process: hostile octets, a disk that fails, and work for other programs to time or to
//! read.
#![tactic(auto)]

mod books;
mod desks;
mod failures;
mod fields;
mod octets;
mod setting;
mod tally;
mod work;

pub use desks::AtDesk;
pub use work::at_desk_of_work;

/// Does what the words of a part ask for.
pub fn perform(rt: &HostRuntime, words: &[String]) -> anyhow::Result<()> {
    match words {
        [word, files @ ..] if word.as_str() == "octets" => octets::try_files(rt, files),
        [word, words @ ..] if word.as_str() == "work" => work::perform(rt, words),
        words => failures::perform(rt, words),
    }
}
