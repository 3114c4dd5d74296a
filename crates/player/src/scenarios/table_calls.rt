//! Changes of the tables, and queries of them.
use crate::scenarios::bench::Bench;
use crate::scenarios::entries::{entry, reader};
use crate::scenarios::kept::Place;
use crate::scenarios::stamps::tell_stamp;
use crate::transcript::{Printer, Words};
use book::Book;
use sqlite::{Alter, Connection};
use tables::{Base, ColumnNumber, OpenFault, Stamp, TableFault};

type Opened<S> = Result<Base<S>, (OpenFault, Connection<S>)>;

/// Makes tables, or takes those that are there.
fn opened<S: Alter + Drop>(conn: Connection<S>, is_new: bool) -> Opened<S> {
    if !conn.is_autocommit() {
        return Err((OpenFault::Database, conn));
    }
    if is_new {
        Base::create(conn, &[])
    } else {
        Base::adopt(conn)
    }
}

/// Keeps the tables of the connection, or the connection and why they were refused.
fn open<B: Book + Drop>(bench: &mut Bench<'_, B>, is_new: bool) {
    if let Some(conn) = bench.conn.take() {
        match opened(conn, is_new) {
            Ok(base) => bench.tables = Some(base),
            Err((fault, conn)) => {
                bench.printer.tell(&fault);
                bench.conn = Some(conn);
            }
        }
    }
}

fn part<B: Book + Drop>(bench: &mut Bench<'_, B>) {
    if let Some(base) = bench.tables.take() {
        bench.conn = Some(base.into_connection());
    }
}

fn tell_found(printer: Printer<'_>, found: Result<Option<Stamp>, TableFault>) {
    match found {
        Ok(Some(stamp)) => tell_stamp(printer, &stamp),
        Ok(None) => printer.line("  None"),
        Err(fault) => printer.tell(&fault),
    }
}

/// The number of the next word, or the greatest that a column may have.
fn column_number(words: &mut Words<'_>) -> ColumnNumber {
    ColumnNumber::at_most(words.number())
}

/// Tells what a query of stamps and moments shows.
fn show_others<S: Alter + Drop>(
    printer: Printer<'_>,
    base: &mut Base<S>,
    word: &str,
    words: &mut Words<'_>,
) {
    match word {
        "stamp" => tell_found(printer, base.stamp(words.number())),
        "origin" => printer.tell(&base.origin(words.number())),
        "next" => {
            let from = column_number(words);
            tell_found(printer, base.next_stamp(from, column_number(words)));
        }
        "calibration" => printer.tell(&base.latest_calibration()),
        "holds" => printer.tell(&base.greatest_hold()),
        "held" => printer.tell(&base.held_at(words.signed())),
        "faults" => printer.number("faults", base.faults()),
        _ => printer.line("  no such call"),
    }
}

/// Tells what a query of deposits and rights shows.
fn show<S: Alter + Drop>(
    printer: Printer<'_>,
    base: &mut Base<S>,
    word: &str,
    words: &mut Words<'_>,
) {
    match word {
        "last" => printer.tell(&base.greatest_stamp()),
        "tally" => printer.tell(&base.tally(words.next(), column_number(words))),
        "found" => printer.tell(&base.deposit(words.number())),
        "under" => printer.tell(&base.deposit_under(words.next(), words.next())),
        "owner" => printer.tell(&base.is_owner(words.number(), words.next())),
        "reader" | "group-reader" => {
            let number = words.number();
            printer.tell(&base.is_reader(number, reader(word, words)));
        }
        "next-readable" | "next-group-readable" => {
            let asked_for = reader(word, words);
            printer.tell(&base.next_readable(asked_for, words.number()));
        }
        _ => show_others(printer, base, word, words),
    }
}

/// Adds an entry and tells of it, or asks.
fn call_base<S: Alter + Drop>(
    printer: Printer<'_>,
    base: &mut Base<S>,
    word: &str,
    words: &mut Words<'_>,
) {
    let mut rest = *words;
    match entry(printer.names, word, &mut rest) {
        Some(entry) => printer.tell(&base.commit(&[entry])),
        None => show(printer, base, word, words),
    }
}

/// Makes a call of the tables that are there.
fn ask<B: Book + Drop>(bench: &mut Bench<'_, B>, word: &str, words: &mut Words<'_>) {
    let printer = bench.printer;
    match &mut bench.tables {
        Some(base) if word == "labels" => printer.tell(&base.labels(bench.alloc, words.next())),
        Some(base) => call_base(printer, base, word, words),
        None => printer.line("  no tables"),
    }
}

/// Makes the call that the words name.
pub fn call<B: Book + Drop>(bench: &mut Bench<'_, B>, words: &mut Words<'_>) {
    let word = words.next();
    match word {
        "create" => open(bench, true),
        "adopt" => open(bench, false),
        "part" => part(bench),
        _ => ask(bench, word, words),
    }
}
