//! Stamps of a range, and the check of their rows.
use crate::transcript::Printer;
use audit::check_row;
use book::IdentityRow;
use store::{Book, Stamp, StampsBetween};

/// Tells of a stamp.
pub fn tell_stamp(printer: Printer<'_>, stamp: &Stamp) {
    printer.tell(&(
        stamp.serial,
        stamp.account.as_str(),
        stamp.day,
        stamp.gen_time,
    ));
    printer.octets("policy", &stamp.policy);
    printer.octets("algorithm", &stamp.algorithm);
    printer.octets("digest", &stamp.digest);
    printer.octets("request", &stamp.request);
    printer.octets("tst", &stamp.tst);
    match &stamp.token {
        Some(token) => printer.octets("token", token),
        None => printer.line("  void"),
    }
}

/// What is asked of the stamps of a range.
#[derive(Drop)]
pub enum AskedOfStamps<'a> {
    /// So many of them, by their serial numbers.
    Walk(u64),
    /// Whether the octets of so many say what their rows say, and what the rows of identities do.
    Check(u64, Vec<IdentityRow>),
    /// Whether the first one's row is said where one octet of a column is another.
    Flip(&'a str),
}

/// Tells of the stamps that are left, by their serial numbers and whether they have their tokens, up to their end or as
/// many answers.
fn walk_on<B: Book>(printer: Printer<'_>, stamps: &mut StampsBetween<'_, B>, count: u64) {
    for _ in 0..count {
        match stamps.next() {
            Ok(Some(stamp)) => printer.tell(&(stamp.serial, stamp.token.is_some())),
            Ok(None) => return printer.line("  end"),
            Err(fault) => printer.tell(&fault),
        }
    }
}

/// Tells whether the octets of so many stamps say what their rows say, and what the rows of identities do.
fn check_all<B: Book>(
    printer: Printer<'_>,
    stamps: &mut StampsBetween<'_, B>,
    identities: &[IdentityRow],
    count: u64,
) {
    for _ in 0..count {
        match stamps.next() {
            Ok(Some(stamp)) => printer.tell(&(stamp.serial, check_row(&stamp, identities))),
            _ => return,
        }
    }
}

/// The octets of a column.
fn column_of<'s>(stamp: &'s mut Stamp, word: &str) -> &'s mut Vec<u8> {
    match word {
        "policy" => &mut stamp.policy,
        "algorithm" => &mut stamp.algorithm,
        "digest" => &mut stamp.digest,
        "request" => &mut stamp.request,
        _ => &mut stamp.tst,
    }
}

/// Changes one octet of a column, or changes it back: whether it is there.
fn is_flipped(stamp: &mut Stamp, word: &str, place: usize) -> bool {
    match column_of(stamp, word).get_mut(place) {
        Some(octet) => {
            *octet ^= 1;
            true
        }
        None => false,
    }
}

/// Tells, for each octet of a column, whether the row is said where that octet alone is another.
fn flip_all(printer: Printer<'_>, stamp: &mut Stamp, word: &str) {
    for place in 0..128 {
        if !is_flipped(stamp, word, place) {
            printer.number("octets", place as u64);
            return;
        }
        if check_row(stamp, &[]) != Ok(false) {
            printer.number("untold", place as u64);
        }
        is_flipped(stamp, word, place);
    }
}

/// The same of the first stamp that is left.
fn flip_next<B: Book>(printer: Printer<'_>, stamps: &mut StampsBetween<'_, B>, word: &str) {
    if let Ok(Some(mut stamp)) = stamps.next() {
        flip_all(printer, &mut stamp, word);
        printer.tell(&check_row(&stamp, &[]));
    }
}

/// Tells what is asked of stamps.
pub fn tell_stamps<B: Book>(
    printer: Printer<'_>,
    stamps: &mut StampsBetween<'_, B>,
    asked: AskedOfStamps<'_>,
) {
    match asked {
        AskedOfStamps::Walk(count) => walk_on(printer, stamps, count),
        AskedOfStamps::Check(count, identities) => check_all(printer, stamps, &identities, count),
        AskedOfStamps::Flip(column) => flip_next(printer, stamps, column),
    }
}
