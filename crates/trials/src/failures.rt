//! The counter where its disk stops at a call or is full from a call on.
mod checks;
mod dump;
mod full_files;
mod journey;
mod ledger;
mod medium;
mod notes;
mod openings;
mod platter;
mod soundness;
mod stops;
mod trial;
mod versions;

use crate::setting::{Setting, example_setting};

/// Does what a word asks for, and nothing else.
fn perform_word(rt: &HostRuntime, setting: &Setting, word: &str) -> anyhow::Result<()> {
    match word {
        "memory" => stops::stop_memory(rt, setting),
        "stops" => stops::stop_each(rt, setting),
        "migrations-2" => stops::stop_migrations(rt, setting, 2),
        "migrations-1" => stops::stop_migrations(rt, setting, 1),
        "full" => full_files::fill_each(rt, setting),
        _ => anyhow::bail!("no such word"),
    }
}

/// Does what the words ask for, and nothing where there are none.
pub fn perform(rt: &HostRuntime, words: &[String]) -> anyhow::Result<()> {
    let Some(word) = words.first() else {
        return Ok(());
    };
    let setting = example_setting(rt.alloc())?;
    perform_word(rt, &setting, word.as_str())
}
