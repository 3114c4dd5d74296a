//! The contents of INTEGERs and of object identifiers.
use crate::transcript::{Printer, Words};
use der::{DerFault, Oid, is_number_content, is_oid_content, whole_number_content};
use std::alloc::{AllocError, Global};

/// Tells the contents of a number, and whether they are told to be.
fn tell_number(printer: Printer<'_>, word: &str) {
    match whole_number_content(printer.alloc(), word.parse().unwrap_or(0)) {
        Ok(content) => {
            printer.digits("content", &content);
            printer.tell(&is_number_content(&content));
        }
        Err(fault) => printer.tell(&fault),
    }
}

/// The text of a copy.
fn text_of(alloc: Global, oid: &Oid) -> Result<String, DerFault> {
    oid.clone()?.text(alloc)
}

/// Tells an object identifier's contents and text.
fn tell_oid(printer: Printer<'_>, oid: Result<Oid, DerFault>) {
    match oid {
        Ok(oid) => {
            printer.digits("content", oid.content());
            match text_of(printer.alloc(), &oid) {
                Ok(text) => printer.octets("text", text.as_bytes()),
                Err(fault) => printer.tell(&fault),
            }
        }
        Err(fault) => printer.tell(&fault),
    }
}

/// Whether the contents of both words are one object identifier's.
fn are_one(alloc: Global, first: &[u8], second: &[u8]) -> Result<bool, DerFault> {
    Ok(Oid::from_content(alloc, first)? == Oid::from_content(alloc, second)?)
}

/// Makes the call of an object identifier that the words name.
fn call_oid(printer: Printer<'_>, word: &str, octets: &[u8]) {
    let alloc = printer.alloc();
    match word {
        "content" => {
            printer.tell(&is_oid_content(octets));
            tell_oid(printer, Oid::from_content(alloc, octets));
        }
        "text" => tell_oid(
            printer,
            Oid::parse_text(alloc, str::from_utf8(octets).unwrap_or("")),
        ),
        _ => {
            let (first, second) = octets.split_at(octets.len() / 2);
            printer.tell(&are_one(alloc, first, second));
        }
    }
}

/// Makes the call that the words name.
pub fn call(printer: Printer<'_>, crate_word: &str, words: Words<'_>) -> Result<(), AllocError> {
    let mut words = words;
    let word = words.next();
    match (crate_word, word) {
        ("oid", _) => call_oid(printer, word, &printer.names.octets_of(words.rest)?),
        (_, "of") => tell_number(printer, words.next()),
        _ => printer.tell(&is_number_content(&printer.names.octets_of(words.rest)?)),
    }
    Ok(())
}
