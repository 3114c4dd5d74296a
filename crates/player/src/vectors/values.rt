//! Values under the Distinguished Encoding Rules, as both readers read them.
use crate::transcript::{Printer, Words};
use crate::vectors::encodings::tag_of;
use crate::vectors::trees::is_tree;
use der::{DataValue, DataValues, DerFault, Tree, check_values, read_tree, read_value};
use std::alloc::AllocError;

/// Tells of a value that both readers read.
fn tell_value(printer: Printer<'_>, tree: Tree, value: DataValue<'_>, octets: &[u8]) {
    printer.digits("tag", &[value.tag().octet]);
    printer.number("octets", value.element.content.len() as u64);
    let is_read = is_tree(printer.alloc(), tree, value) == Ok(true);
    if !is_read || check_values(32, octets).is_err() {
        printer.line("  the readers differ");
    }
}

/// Tells of a refusal by the reader of trees, which the other reader is to give too.
fn tell_refusal(printer: Printer<'_>, fault: DerFault, value: Result<DataValue<'_>, DerFault>) {
    printer.tell(&fault);
    if value.err() != Some(fault) {
        printer.line("  the readers differ");
    }
}

/// Tells how both readers read octets: the value, or the refusal.
fn read(printer: Printer<'_>, octets: &[u8]) {
    let value = read_value(octets);
    match read_tree(printer.alloc(), octets) {
        Ok(tree) => match value {
            Ok(value) => tell_value(printer, tree, value, octets),
            Err(fault) => printer.tell(&(fault, "in place")),
        },
        Err(fault) => tell_refusal(printer, fault, value),
    }
}

/// Where a walk stands: at a value, and before others.
#[derive(Clone, Copy)]
struct Place<'a> {
    value: DataValue<'a>,
    values: DataValues<'a>,
}

/// Goes on to a value, if there is one.
fn moved<'a>(printer: Printer<'_>, place: Place<'a>, next: Option<DataValue<'a>>) -> Place<'a> {
    match next {
        Some(value) => {
            printer.digits("value", value.octets());
            Place { value, ..place }
        }
        None => {
            printer.line("  None");
            place
        }
    }
}

/// Takes the next value; with a word only if it is under that tag.
fn taken<'a>(printer: Printer<'_>, place: Place<'a>, tag: Option<&str>) -> Place<'a> {
    let mut values = place.values;
    let next = match tag {
        Some(word) => values.next_under(tag_of(word)),
        None => values.next(),
    };
    moved(printer, Place { values, ..place }, next)
}

/// Goes before the values inside the value.
fn entered<'a>(printer: Printer<'_>, place: Place<'a>, tag: &str) -> Place<'a> {
    match place.value.components_under(tag_of(tag)) {
        Some(values) => Place { values, ..place },
        None => {
            printer.line("  None");
            place
        }
    }
}

/// Makes one step of a walk.
fn walked<'a>(
    printer: Printer<'_>,
    place: Place<'a>,
    word: &str,
    words: &mut Words<'_>,
) -> Place<'a> {
    match word {
        "next" => return taken(printer, place, None),
        "under" => return taken(printer, place, Some(words.next())),
        "into" => return entered(printer, place, words.next()),
        "tag" => printer.digits("tag", &[place.value.tag().octet]),
        "octets" => printer.digits("octets", place.value.octets()),
        "contents" => {
            let contents = place.value.contents_under(tag_of(words.next()));
            printer.digits_or_none("contents", contents);
        }
        _ => printer.tell(&place.values.is_empty()),
    }
    place
}

/// Walks through a value.
fn walk(printer: Printer<'_>, octets: &[u8], words: Words<'_>) {
    let mut words = words;
    let Ok(value) = read_value(octets) else {
        return;
    };
    let mut place = Place {
        value,
        values: DataValues::none(),
    };
    for _ in 0..words.rest.len() {
        let word = words.next();
        if word.is_empty() {
            break;
        }
        place = walked(printer, place, word, &mut words);
    }
}

/// Makes the call that the words name.
pub fn call(printer: Printer<'_>, words: Words<'_>) -> Result<(), AllocError> {
    let mut words = words;
    match words.next() {
        "read" => read(printer, &printer.names.octets_of(words.rest)?),
        "levels" => {
            let levels = (words.number() % 256) as u8;
            printer.tell(&check_values(levels, &printer.names.octets_of(words.rest)?));
        }
        _ => {
            let octets = printer.names.octets(words.next());
            walk(printer, octets, words);
        }
    }
    Ok(())
}
