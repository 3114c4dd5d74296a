//! Values that are written.
use crate::transcript::{Names, Printer, Words};
use der::{DerFault, Tag, Writer};

/// The tag of two hexadecimal digits; NULL's where they are no tag's.
pub fn tag_of(digits: &str) -> Tag {
    let mut octet = 0u8;
    for digit in digits.chars() {
        let value = digit.to_digit(16).unwrap_or(0) as u8 & 15;
        octet = octet << 4 | value;
    }
    Tag::new(octet).unwrap_or(Tag::NULL)
}

/// Writes what a word says.
fn write(
    names: &Names,
    writer: &mut Writer,
    word: &str,
    words: &mut Words<'_>,
) -> Result<(), DerFault> {
    match word {
        "append" => writer.append(&names.octets_of(words.next())?),
        "element" => {
            let tag = tag_of(words.next());
            writer.append_element(tag, &names.octets_of(words.next())?)
        }
        _ => writer.wrap(tag_of(words.next())),
    }
}

/// Writes what the words say, and tells what is written.
pub fn call(printer: Printer<'_>, words: Words<'_>) {
    let mut words = words;
    let mut writer = Writer::new(printer.alloc());
    for _ in 0..words.rest.len() {
        let word = words.next();
        if word.is_empty() {
            break;
        }
        if let Err(fault) = write(printer.names, &mut writer, word, &mut words) {
            printer.tell(&fault);
        }
    }
    printer.number("length", writer.len() as u64);
    printer.tell(&writer.is_empty());
    printer.digits("written", &writer.into_octets());
}
