//! Elements, one after the other.
use crate::transcript::{Printer, Words};
use crate::vectors::encodings::tag_of;
use der::{Cursor, DerFault, Element};

fn tell(printer: Printer<'_>, element: Result<Element<'_>, DerFault>) {
    match element {
        Ok(element) => {
            printer.digits("tag", &[element.tag.octet]);
            printer.digits("content", element.content);
            printer.digits("whole", element.whole);
        }
        Err(fault) => printer.tell(&fault),
    }
}

/// Takes elements of a name's octets, as the words say.
pub fn call(printer: Printer<'_>, words: Words<'_>) {
    let mut words = words;
    let mut cursor = Cursor::new(printer.names.octets(words.next()));
    for _ in 0..words.rest.len() {
        match words.next() {
            "" => break,
            "next" => tell(printer, cursor.next()),
            "expect" => tell(printer, cursor.expect(tag_of(words.next()))),
            _ => printer.tell(&cursor.is_empty()),
        }
    }
}
