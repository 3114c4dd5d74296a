//! Entries of the history and their parts, as a line names them.
use crate::transcript::{Names, Words};
use book::{Calibration, Entry, Hold, Reader, Reservation, StoreFault};
use std::alloc::Global;

/// One line names so many entries at most.
const MOST: usize = 16;

/// What is reserved under a serial number.
pub fn reservation<'w>(serial: u64, names: &'w Names, words: &mut Words<'w>) -> Reservation<'w> {
    Reservation {
        serial,
        account: words.next(),
        gen_time: words.number(),
        policy: names.octets(words.next()),
        algorithm: names.octets(words.next()),
        digest: names.octets(words.next()),
        request: names.octets(words.next()),
        tst: names.octets(words.next()),
    }
}

pub fn calibration(words: &mut Words<'_>) -> Calibration {
    Calibration {
        reading: words.signed(),
        offset: words.signed(),
        uncertainty: words.number(),
    }
}

pub fn hold(words: &mut Words<'_>) -> Hold {
    Hold {
        from: words.signed(),
        to: words.signed(),
    }
}

/// The reader to whom a word gives or from whom it takes a right: a group, if the word says so.
pub fn reader<'w>(word: &str, words: &mut Words<'w>) -> Reader<'w> {
    let name = words.next();
    if word.contains("group") {
        Reader::Group(name)
    } else {
        Reader::Account(name)
    }
}

/// The entry of a deposit or a right that a word and those behind it name, if it is one's.
fn entry_of_deposit<'w>(names: &'w Names, word: &str, words: &mut Words<'w>) -> Option<Entry<'w>> {
    Some(match word {
        "deposit" => Entry::Deposited {
            serial: words.number(),
            token: names.octets(words.next()),
            owner: words.next(),
            reference: words.next(),
            bytes: names.octets(words.next()),
        },
        "grant" | "grant-group" => Entry::Granted {
            number: words.number(),
            reader: reader(word, words),
        },
        "revoke" | "revoke-group" => Entry::Revoked {
            number: words.number(),
            reader: reader(word, words),
        },
        _ => return None,
    })
}

/// The entry that a word and those behind it name, if the word is an entry's.
pub fn entry<'w>(names: &'w Names, word: &str, words: &mut Words<'w>) -> Option<Entry<'w>> {
    Some(match word {
        "reserve" => Entry::Reserved(reservation(words.number(), names, words)),
        "seal" => Entry::Sealed {
            serial: words.number(),
            token: names.octets(words.next()),
        },
        "calibrate" => Entry::Calibrated(calibration(words)),
        "hold" => Entry::Held(hold(words)),
        "install" => Entry::Installed {
            certificate: names.octets(words.next()),
            chain: names.octets(words.next()),
        },
        _ => return entry_of_deposit(names, word, words),
    })
}

/// The entries that words name, one behind the other.
pub fn entries_of<'w>(
    alloc: Global,
    names: &'w Names,
    words: &mut Words<'w>,
) -> Result<Vec<Entry<'w>>, StoreFault> {
    let mut entries = Vec::new(alloc);
    for _ in 0..MOST {
        let word = words.next();
        match entry(names, word, words) {
            Some(found) => entries.push(found)?,
            None => return Ok(entries),
        }
    }
    Ok(entries)
}
