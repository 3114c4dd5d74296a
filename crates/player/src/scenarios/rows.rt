//! The rows that a query shows.
use crate::scenarios::bench::Bench;
use crate::transcript::Printer;
use sha2::{Digest, Sha256};
use sqlite::types::ValueRef;
use sqlite::{Alter, Connection, Error, Row};
use store::Book;

/// How many octets of a value are told one by one at most.
const MOST: usize = 4_096;

/// Tells of a value's octets: their name or digits, or how many they are and their SHA-256.
fn tell_blob(printer: Printer<'_>, octets: &[u8]) {
    if octets.len() > MOST {
        printer.number("octets", octets.len() as u64);
        printer.digits("sha-256", &Sha256::digest(octets));
    } else {
        printer.digits("blob", octets);
    }
}

fn tell_value(printer: Printer<'_>, value: ValueRef<'_>) {
    match value {
        ValueRef::Null => printer.line("  null"),
        ValueRef::Int(number) => printer.tell(&number),
        ValueRef::Real(_) => printer.line("  real"),
        ValueRef::Text(octets) => printer.octets("text", octets),
        ValueRef::Blob(octets) => tell_blob(printer, octets),
    }
}

fn tell_row(printer: Printer<'_>, row: &Row) -> Result<(), Error> {
    for at in 0..row.column_count() {
        tell_value(printer, row.get_ref(at)?);
    }
    Ok(())
}

/// Tells of each row, and how many there are.
fn tell_rows<S: Alter>(
    printer: Printer<'_>,
    conn: &mut Connection<S>,
    sql: &str,
) -> Result<usize, Error> {
    let rows = conn.query_all(sql, &[])?;
    for row in &rows {
        tell_row(printer, row)?;
    }
    Ok(rows.len())
}

/// Asks the database for rows, and tells of each of their values.
pub fn tell<B: Book + Drop>(bench: &mut Bench<'_, B>, sql: &str) {
    if let Some(conn) = &mut bench.conn {
        bench.printer.tell(&tell_rows(bench.printer, conn, sql));
    }
}
