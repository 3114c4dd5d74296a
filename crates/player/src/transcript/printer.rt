//! What is told. What can't be written is missing from the output, which is compared.
use crate::transcript::Names;
use std::alloc::Global;
use std::fmt::{Debug, Display};
use std::io;

/// How many octets without a name are told one by one at most.
const MOST: usize = 4_096;

/// Prints, with names for octets that have one.
#[derive(Clone, Copy)]
pub struct Printer<'p> {
    pub rt: &'p HostRuntime,
    pub names: &'p Names,
}

/// Whether an octet is told as the character that it is.
fn is_plain(octet: u8) -> bool {
    matches!(octet, b' '..=b'~')
}

fn print_control(rt: &HostRuntime, octet: u8) -> io::Result<()> {
    match octet {
        b'\r' => print!(rt; "\\r"),
        b'\n' => print!(rt; "\\n"),
        _ => print!(rt; "\\x{octet:02x}"),
    }
}

/// Prints characters at once.
fn print_plain(rt: &HostRuntime, octets: &[u8]) {
    if let Ok(text) = str::from_utf8(octets) {
        let _ = print!(rt; "{text}");
    }
}

/// Prints characters, and the octet behind them.
fn print_piece(rt: &HostRuntime, piece: &[u8]) {
    match piece.split_last() {
        Some((last, front)) if !is_plain(*last) => {
            print_plain(rt, front);
            let _ = print_control(rt, *last);
        }
        _ => print_plain(rt, piece),
    }
}

fn print_characters(rt: &HostRuntime, octets: &[u8]) {
    if octets.is_empty() {
        let _ = print!(rt; "nothing");
    }
    for piece in octets.split_inclusive(|octet| !is_plain(*octet)) {
        print_piece(rt, piece);
    }
}

fn print_digits(rt: &HostRuntime, octets: &[u8]) {
    if octets.is_empty() {
        let _ = print!(rt; "nothing");
    }
    if octets.len() > MOST {
        let _ = print!(rt; "{} octets", octets.len());
        return;
    }
    for octet in octets {
        let _ = print!(rt; "{octet:02x}");
    }
}

impl Printer<'_> {
    pub fn alloc(self) -> Global {
        self.rt.alloc()
    }

    /// Prints a line as it is.
    pub fn line(self, text: &str) {
        let _ = println!(self.rt; "{text}");
    }

    /// Prints what a call told.
    pub fn tell<T: Debug>(self, told: &T) {
        let _ = println!(self.rt; "  {told:?}");
    }

    /// Prints a number, and the text of what has it.
    pub fn show<T: Display>(self, number: u64, shown: &T) {
        let _ = println!(self.rt; "  {number} {shown}");
    }

    /// Prints a word and a number.
    pub fn number(self, word: &str, number: u64) {
        let _ = println!(self.rt; "  {word} {number}");
    }

    /// Prints a word, and octets by their name, or character by character where they have none.
    pub fn octets(self, word: &str, octets: &[u8]) {
        let _ = print!(self.rt; "  {word} ");
        match self.names.name_of(octets) {
            Some(name) => self.name(name),
            None => print_characters(self.rt, octets),
        }
        self.line("");
    }

    /// The same, or why there are none.
    pub fn octets_or_fault<F: Debug>(self, word: &str, octets: &Result<Vec<u8>, F>) {
        match octets {
            Ok(octets) => self.octets(word, octets),
            Err(fault) => self.tell(fault),
        }
    }

    /// Prints a word, and octets by their name, or by their hexadecimal digits where they have none; of very many how
    /// many they are.
    pub fn digits(self, word: &str, octets: &[u8]) {
        let _ = print!(self.rt; "  {word} ");
        match self.names.name_of(octets) {
            Some(name) => self.name(name),
            None => print_digits(self.rt, octets),
        }
        self.line("");
    }

    /// The same, or `None` where there are no octets.
    pub fn digits_or_none(self, word: &str, octets: Option<&[u8]>) {
        match octets {
            Some(octets) => self.digits(word, octets),
            None => {
                let _ = println!(self.rt; "  {word} None");
            }
        }
    }

    fn name(self, name: &str) {
        let _ = print!(self.rt; "{name}");
    }
}
