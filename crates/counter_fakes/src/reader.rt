ghost use Rattle.std.specs.Prelude.{◌≡◌, IsErr, Contains};
ghost use Rattle.std.specs.Io.Take.{take_limit, take_inner, take_remaining};
ghost use Rattle.std.specs.{Io.ReadsAtMost, Io.KnownBytes.ReadConsumes, Hash.DefaultHasher.wrapping_add};

use std::io::{self, ErrorKind, Read, Take};

/// A reader that fails at chosen calls, and at each call once it has given so many octets.
#[derive(Drop)]
pub struct FailingReader<R> {
    /// The reader behind it, up to the octets that it gives.
    pub reader: Take<R>,
    /// The calls that fail, by their numbers; the first call is 1.
    pub chosen: Vec<u64>,
    /// How many calls there were, modulo 2^64.
    pub calls: u64,
}

impl<R: Read> FailingReader<R> {
    /// A reader that fails at these calls, by their numbers from 1 on, and at each call after so many octets.
    pub fn new(reader: R, chosen: Vec<u64>, octets: u64) -> FailingReader<R>
        ensures reader { take_inner result.reader ≡ reader }
        ensures octets { take_limit result.reader ≡ octets }
        ensures chosen { result.chosen ≡ chosen }
        ensures calls { result.calls ≡ 0 }
    {
        FailingReader {
            reader: reader.take(octets),
            chosen,
            calls: 0,
        }
    }
}

impl<R: Read> Read for FailingReader<R> {
    ghost remaining = { λ reader. take_remaining R.remaining reader.reader };

    fn read(&mut self, buf: &mut [u8]) -> io::Result<usize>
        ensures bound { ReadsAtMost result buf.new }
        ensures bytes { ReadConsumes (take_remaining R.remaining self.old.reader)
            (take_remaining R.remaining self.new.reader) result buf.new }
        ensures calls { self.new.calls ≡ wrapping_add self.old.calls 1 }
        ensures same_choice { self.new.chosen ≡ self.old.chosen }
        ensures chosen { Contains self.old.chosen.items (wrapping_add self.old.calls 1) → IsErr result }
        ensures octets { take_limit self.old.reader ≡ 0 → IsErr result }
    {
        self.calls = self.calls.wrapping_add(1);
        if self.chosen.contains(&self.calls) || self.reader.limit() == 0 {
            return Err(ErrorKind::Other.into());
        }
        self.reader.read(buf)
    }
}
