//! Moments, and their texts.
use crate::transcript::{Printer, Words};
use gentime::{GenTime, GenTimeFault};
use std::alloc::{AllocError, Global};

/// The text of a moment, with so many digits of its fraction at most.
fn text_of(alloc: Global, micros: i64, digits: u64) -> Result<Vec<u8>, GenTimeFault> {
    let moment = GenTime::from_micros(micros)?;
    if moment.micros() != micros {
        return Err(GenTimeFault::Range);
    }
    moment.write(alloc, (digits % 7) as u8)
}

/// The microseconds that a text tells.
fn micros_of(octets: &[u8]) -> Result<i64, GenTimeFault> {
    Ok(gentime::read(octets)?.micros())
}

/// The day of a moment.
fn day_of(micros: i64) -> Result<u64, GenTimeFault> {
    Ok(GenTime::from_micros(micros)?.day())
}

/// Makes the call that the words name.
pub fn call(printer: Printer<'_>, words: Words<'_>) -> Result<(), AllocError> {
    let mut words = words;
    match words.next() {
        "text" => {
            let micros = words.signed();
            let text = text_of(printer.alloc(), micros, words.number());
            printer.octets_or_fault("text", &text);
        }
        "day" => printer.tell(&day_of(words.signed())),
        _ => printer.tell(&micros_of(&printer.names.octets_of(words.rest)?)),
    }
    Ok(())
}
