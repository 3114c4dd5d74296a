ghost use Rattle.std.specs.Prelude.{◌≡◌, ◌+◌, IfOk, OnErr, IsErr, Contains};
ghost use Rattle.std.specs.Io.KnownBytes.{Keeps, WriteAppends};
ghost use Rattle.std.specs.{Io.WritesAtMost, Hash.DefaultHasher.wrapping_add};

use std::io::{self, ErrorKind, Write};

/// A writer that fails at chosen calls, and at each call once it has taken so many octets.
#[derive(Drop)]
pub struct FailingWriter<W> {
    /// The writer behind it.
    pub writer: W,
    /// The calls that fail, by their numbers; the first call is 1.
    pub chosen: Vec<u64>,
    /// How many octets it still takes.
    pub octets: usize,
    /// How many calls there were, modulo 2^64.
    pub calls: u64,
}

impl<W> FailingWriter<W> {
    /// A writer that fails at these calls, by their numbers from 1 on, and at each call after so many octets.
    pub fn new(writer: W, chosen: Vec<u64>, octets: usize) -> FailingWriter<W>
        ensures { result ≡ record { writer = writer; chosen = chosen; octets = octets; calls = 0 } }
    {
        FailingWriter {
            writer,
            chosen,
            octets,
            calls: 0,
        }
    }
}

impl<W: Write> Write for FailingWriter<W> {
    ghost contents = { λ writer. W.contents writer.writer };

    fn write(&mut self, buf: &[u8]) -> io::Result<usize>
        ensures bound { WritesAtMost result buf.now }
        ensures bytes { WriteAppends (W.contents self.old.writer) (W.contents self.new.writer) result buf.now }
        ensures calls { self.new.calls ≡ wrapping_add self.old.calls 1 }
        ensures same_choice { self.new.chosen ≡ self.old.chosen }
        ensures chosen { Contains self.old.chosen.items (wrapping_add self.old.calls 1) → IsErr result }
        ensures octets { self.old.octets ≡ 0 → IsErr result }
        ensures taken { IfOk result (λ taken. self.new.octets + taken ≡ self.old.octets) }
        ensures refused { OnErr result (self.new.octets ≡ self.old.octets) }
    {
        self.calls = self.calls.wrapping_add(1);
        if self.chosen.contains(&self.calls) || self.octets == 0 {
            return Err(ErrorKind::Other.into());
        }
        let (front, _) = buf.split_at(self.octets.min(buf.len()));
        let taken = self.writer.write(front)?;
        self.octets -= taken;
        Ok(taken)
    }

    fn flush(&mut self) -> io::Result<()>
        ensures bytes { Keeps (W.contents self.old.writer) (W.contents self.new.writer) }
        ensures calls { self.new.calls ≡ self.old.calls }
        ensures same_choice { self.new.chosen ≡ self.old.chosen }
        ensures octets { self.new.octets ≡ self.old.octets }
    {
        self.writer.flush()
    }
}
