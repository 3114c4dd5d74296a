//! Plays rows of calls and makes trials, part by part.
#![tactic(auto)]

mod loopback;
mod scenarios;
mod transcript;
mod vectors;

use std::{env, fs};
use transcript::names_of;

/// The word between two parts.
const THEN: &str = "then";

/// Plays the rows of files, one behind the other, with an empty line between them.
fn play(rt: &HostRuntime, word: &str, paths: &[String]) -> anyhow::Result<()> {
    let mut text = String::new(rt.alloc());
    for path in paths {
        text.push_str(&fs::read_to_string(rt, path.as_str())?)?;
        text.push('\n')?;
    }
    let names = names_of(rt.alloc(), &text)?;
    match word {
        "vectors" => vectors::play(rt, &names, &text),
        _ => scenarios::play(rt, &names, &text),
    }
    Ok(())
}

/// Does what the words of a part ask for.
fn perform(rt: &HostRuntime, words: &[String]) -> anyhow::Result<()> {
    match words {
        [word, paths @ ..] if matches!(word.as_str(), "vectors" | "scenarios") => {
            play(rt, word.as_str(), paths)
        }
        [work, what, count] if work.as_str() == "work" && what.as_str() == "serve" => {
            loopback::serve(rt, count.parse()?)
        }
        words => trials::perform(rt, words),
    }
}

/// Does what the words ask for, part by part.
fn main(rt: HostRuntime) -> anyhow::Result<()> {
    let mut words = Vec::new(rt.alloc());
    for word in env::args(&rt)?.skip(1) {
        words.push(word)?;
    }
    for part in words.split(|word| word.as_str() == THEN) {
        perform(&rt, part)?;
    }
    Ok(())
}
