//! Requests over HTTP.
use crate::transcript::{Gathered, Pieces, Printer};
use cms::Signer;
use counter_fakes::{FailingReader, FailingWriter};
use desk::Desk;
use service::{Served, serve_one};
use std::alloc::Global;
use std::mem;
use store::Book;

/// What gives a request's octets.
type Source<'r> = FailingReader<Pieces<'r>>;

/// A source of these octets, so many at a time, which fails once it has given so many.
fn source(alloc: Global, octets: &[u8], size: usize, given: u64) -> Source<'_> {
    FailingReader::new(Pieces { octets, size }, Vec::new(alloc), given)
}

/// Where the body of an answer begins.
fn body_at(answer: &[u8]) -> usize {
    match answer
        .windows(4)
        .position(|four| four == b"\r\n\r\n".as_slice())
    {
        Some(place) => place.saturating_add(4),
        None => answer.len(),
    }
}

fn tell_answer(printer: Printer<'_>, answer: &[u8]) {
    let (head, body) = answer
        .split_at_checked(body_at(answer))
        .unwrap_or((answer, &[]));
    printer.octets("head", head);
    printer.octets("body", body);
}

/// What answers requests. The room takes the answer.
#[derive(Drop)]
pub struct Answering<'a, 'p, B: Book + Drop, G> {
    pub printer: Printer<'a>,
    pub desk: &'a mut Desk<'p, B>,
    pub signer: &'a mut G,
    pub room: &'a mut Vec<u8>,
}

impl<B: Book + Drop, G: Signer> Answering<'_, '_, B, G> {
    fn alloc(&self) -> Global {
        self.printer.alloc()
    }

    /// What becomes of a request whose answer goes to a sink that takes so many octets at a time, and fails once it has
    /// taken so many in all. They are in the room afterwards.
    fn served(&mut self, source: &mut Source<'_>, size: usize, taken: usize) -> Served {
        let alloc = self.alloc();
        let mut octets = mem::replace(self.room, Vec::new(alloc));
        octets.clear();
        let mut sink = FailingWriter::new(Gathered { octets, size }, Vec::new(alloc), taken);
        let served = serve_one(alloc, source, &mut sink, self.desk, 0, self.signer);
        *self.room = sink.writer.octets;
        served
    }

    /// Tells what becomes of a request that comes, and is answered, so many octets at a time, how many aren't read, and
    /// the answer.
    fn tell(&mut self, request: &[u8], size: usize) {
        let mut source = source(self.alloc(), request, size, u64::MAX);
        let served = self.served(&mut source, size, usize::MAX);
        self.printer.tell(&served);
        let read = u64::MAX.wrapping_sub(source.reader.limit());
        self.printer
            .number("unread", (request.len() as u64).saturating_sub(read));
        tell_answer(self.printer, self.room);
    }

    /// What becomes of a request of which so many octets come before the source fails, and whose answer a sink takes
    /// that fails once it has taken so many.
    fn cut(&mut self, request: &[u8], given: u64, taken: usize) -> Served {
        let mut source = source(self.alloc(), request, usize::MAX, given);
        self.served(&mut source, usize::MAX, taken)
    }

    /// Of how many numbers of octets that are less than the whole answer sinks that take those are told to have failed.
    fn cuts(&mut self, request: &[u8], whole: &[u8]) -> u64 {
        let mut count: u64 = 0;
        for sent in 0..whole.len() {
            let served = self.cut(request, u64::MAX, sent);
            let is_told = served == Served::WriteFailed { status: 200, sent };
            if is_told && whole.get(..sent) == Some(self.room.as_slice()) {
                count = count.saturating_add(1);
            }
        }
        count
    }

    /// Tells what becomes of a request, of how many sinks that fail before its answer is whole, and of one that fails
    /// behind it.
    fn tell_cuts(&mut self, request: &[u8]) {
        self.tell(request, usize::MAX);
        let Ok(whole) = Vec::from_slice(self.alloc(), self.room) else {
            return;
        };
        let count = self.cuts(request, &whole);
        self.printer.number("cut", count);
        let served = self.cut(request, u64::MAX, whole.len());
        self.printer.tell(&served);
    }

    /// What becomes of a request of which those octets come before the source fails, or else ends.
    fn fares(&mut self, front: &[u8], is_failing: bool) -> Served {
        let given = if is_failing {
            front.len() as u64
        } else {
            u64::MAX
        };
        self.cut(front, given, usize::MAX)
    }

    /// Tells what becomes of a request's fronts, and of how many one after the other.
    fn tell_fronts(&mut self, request: &[u8], is_failing: bool) {
        let mut before = self.fares(&[], is_failing);
        let mut count: u64 = 1;
        for length in 1..request.len() {
            let served = self.fares(request.get(..length).unwrap_or(request), is_failing);
            if served != before {
                self.printer.tell(&(count, before));
                before = served;
                count = 0;
            }
            count = count.saturating_add(1);
        }
        self.printer.tell(&(count, before));
    }

    /// Makes the call that the word names, of a request that comes so many octets at a time.
    pub fn call(self, word: &str, request: &[u8], size: usize) {
        let mut answering = self;
        match word {
            "serve" => answering.tell(request, size),
            "cut" => answering.tell_cuts(request),
            "fail" => answering.tell_fronts(request, true),
            _ => answering.tell_fronts(request, false),
        }
    }
}
