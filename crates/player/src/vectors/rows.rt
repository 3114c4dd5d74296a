//! Rows of calls, line by line.
use crate::transcript::{MARK, Names, Printer, Words, mark};
use crate::vectors::files::Files;
use crate::vectors::{
    clocks, decisions, elements, encodings, ends, files, identifiers, laws, look_ups, moments,
    refusals, requests, signers, tokens, tst_infos, values,
};
use std::alloc::AllocError;

/// Makes a call that can want memory for the octets of its words.
fn call(
    printer: Printer<'_>,
    files: &mut Files,
    crate_word: &str,
    words: Words<'_>,
) -> Result<(), AllocError> {
    match crate_word {
        "policy" => files::read(printer, &mut files.policy, words),
        "other" => files::read(printer, &mut files.other, words),
        "value" => values::call(printer, words),
        "number" | "oid" => identifiers::call(printer, crate_word, words),
        "moment" => moments::call(printer, words),
        "request" => requests::call(printer, words),
        "tst" => tst_infos::call(printer, words),
        "cms" => tokens::call(printer, words),
        "signer" => signers::call(printer, words),
        "ends" => ends::call(printer, words),
        _ => Ok(()),
    }
}

/// Makes the call of a line.
fn call_line(printer: Printer<'_>, files: &mut Files, line: &str) -> Result<(), AllocError> {
    let mut words = Words { rest: line };
    match words.next() {
        "element" => elements::call(printer, words),
        "write" => encodings::call(printer, words),
        "file" => look_ups::call(printer, files, words),
        "decide" => decisions::call(printer, files, words),
        "clock" => clocks::call(printer, files, words),
        "numbers" => refusals::tell_all(printer),
        "laws" => laws::call(),
        "mark" => mark(printer.alloc(), MARK),
        word => return call(printer, files, word, words),
    }
    Ok(())
}

fn play_block(printer: Printer<'_>, block: &str) {
    let mut files = Files {
        policy: None,
        other: None,
    };
    for line in block.lines() {
        printer.line(line);
        if let Err(fault) = call_line(printer, &mut files, line) {
            printer.tell(&fault);
        }
    }
    printer.line("");
}

/// Plays the rows of a text, whose blocks are parted by empty lines and begin with a line `# TITLE`.
pub fn play(rt: &HostRuntime, names: &Names, text: &str) {
    let printer = Printer { rt, names };
    for block in text.split("\n\n") {
        if block.starts_with('#') {
            play_block(printer, block);
        }
    }
}
