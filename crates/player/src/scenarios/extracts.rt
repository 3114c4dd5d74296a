//! Extracts for auditors.
use crate::transcript::{Gathered, Printer, Words};
use audit::{ExtractFault, Inquiry, extract, extract_length, write_extract};
use counter_fakes::FailingWriter;
use std::alloc::Global;
use std::io::{self, Write};
use std::mem;
use store::Book;

/// What takes an extract.
type Taker = FailingWriter<Vec<u8>>;

/// A taker of so many octets.
fn taker(alloc: Global, octets: usize) -> Taker {
    FailingWriter::new(Vec::new(alloc), Vec::new(alloc), octets)
}

/// A taker of all, which has the room.
fn with_room(alloc: Global, room: &mut Vec<u8>) -> Taker {
    let mut octets = mem::replace(room, Vec::new(alloc));
    octets.clear();
    FailingWriter::new(octets, Vec::new(alloc), usize::MAX)
}

/// How many lines those octets have.
fn lines_of(octets: &[u8]) -> u64 {
    octets.iter().filter(|octet| **octet == b'\n').count() as u64
}

/// A store of which extracts are asked.
#[derive(Drop)]
pub struct Extracting<'s, B> {
    pub printer: Printer<'s>,
    pub store: &'s mut B,
    pub asked: Inquiry<'s>,
}

impl<B: Book + Drop> Extracting<'_, B> {
    fn alloc(&self) -> Global {
        self.printer.alloc()
    }

    fn whole<W: Write>(&mut self, out: &mut W) -> Result<(), ExtractFault> {
        let asked = self.asked;
        extract(
            self.alloc(),
            self.store,
            asked.policy,
            asked.account,
            asked.from,
            asked.to,
            out,
        )
    }

    fn length(&mut self) -> Result<u64, ExtractFault> {
        extract_length(self.alloc(), self.store, &self.asked, &mut io::sink())
    }

    /// Tells of the length, of the extract and of its octets, each with its refusal's number.
    fn tell_whole(&mut self, room: &mut Vec<u8>) {
        let length = self.length();
        self.printer.tell(&length);
        let mut out = with_room(self.alloc(), room);
        let ending = self.whole(&mut out);
        self.printer.tell(&ending);
        if let Err(fault) = ending {
            self.printer.number("refusal", u64::from(fault.number()));
        }
        self.printer.octets("extract", &out.writer);
        *room = out.writer;
    }

    /// Tells of the extract, whether it begins so, how many lines it has, and whether it has the length that is told.
    fn tell_rest(&mut self, front: &[u8]) {
        let mut out = taker(self.alloc(), usize::MAX);
        let ending = self.whole(&mut out);
        self.printer.tell(&ending);
        self.printer.tell(&out.writer.starts_with(front));
        self.printer.number("lines", lines_of(&out.writer));
        let length = self.length();
        self.printer.tell(&(length == Ok(out.writer.len() as u64)));
    }

    /// Tells of what a taker of so many octets has, whether the extract begins so, and how many lines and octets that
    /// has.
    fn tell_beginning(&mut self, octets: usize) {
        let mut cut = taker(self.alloc(), octets);
        let ending = self.whole(&mut cut);
        self.printer.tell(&ending);
        self.printer.number("taken", cut.writer.len() as u64);
        self.tell_rest(&cut.writer);
    }

    /// Tells of the extract within a limit that is so much less than its length.
    fn tell_limited(&mut self, less: u64) {
        let limit = self.length().unwrap_or(0).saturating_sub(less);
        let mut out = taker(self.alloc(), usize::MAX);
        let got = write_extract(self.alloc(), self.store, &self.asked, limit, &mut out);
        self.printer.tell(&got.outcome);
        self.printer.number("octets", got.octets);
        self.printer.octets("extract", &out.writer);
    }

    /// Tells of the extract, written so many octets at a time.
    fn tell_pieces(&mut self, size: usize) {
        let octets = Vec::new(self.alloc());
        let mut out = Gathered { octets, size };
        let ending = self.whole(&mut out);
        self.printer.tell(&ending);
        self.printer.octets("extract", &out.octets);
    }

    /// Makes the call that the word names.
    pub fn call(&mut self, word: &str, words: &mut Words<'_>, room: &mut Vec<u8>) {
        match word {
            "extract" => self.tell_whole(room),
            "beginning" => self.tell_beginning(words.number() as usize),
            "pieces" => self.tell_pieces(words.number() as usize),
            _ => self.tell_limited(words.number()),
        }
    }
}
