//! Lists of deposits, and what is told of them.
use crate::transcript::Printer;
use std::fmt::Debug;
use std::io::{self, ErrorKind, Write};
use store::Listed;

/// An output that can be flushed so many times, and takes all octets.
#[derive(Drop)]
pub struct LimitedOutput {
    pub flushes: u64,
}

impl Write for LimitedOutput {
    fn write(&mut self, buf: &[u8]) -> io::Result<usize> {
        Ok(buf.len())
    }

    fn flush(&mut self) -> io::Result<()> {
        match self.flushes.checked_sub(1) {
            Some(left) => {
                self.flushes = left;
                Ok(())
            }
            None => Err(ErrorKind::TimedOut.into()),
        }
    }
}

/// Tells a list's rows, a line for each, and how many there are.
pub fn tell_rows(printer: Printer<'_>, rows: &[Listed]) {
    for row in rows {
        printer.tell(&(
            row.number,
            row.owner.as_str(),
            row.reference.as_str(),
            row.gen_time,
        ));
    }
    printer.number("rows", rows.len() as u64);
}

/// Tells a list, or why it is refused.
pub fn tell_list<F: Debug + Drop>(printer: Printer<'_>, list: Result<Vec<Listed>, F>) {
    match list {
        Ok(rows) => tell_rows(printer, &rows),
        Err(fault) => printer.tell(&fault),
    }
}
