//! A stream whose writes end by a moment.
ghost use Rattle.std.specs.Prelude.{◌≡◌, None, IsSome, IsOk};
ghost use Rattle.std.specs.{Io.WritesAtMost, Io.KnownBytes.Keeps, Io.KnownBytes.WriteAppends};

use crate::peer::Peer;
use sockets::Duplex;
use std::io;
use std::io::{ErrorKind, Write};
use std::time::{Clock, Duration, Instant};

/// How often a write is tried again that ended before its time, as where the process was stopped and goes on.
const MOST_INTERRUPTIONS: usize = 1_000;

/// What is written to a stream that doesn't wait. From the first write or flush on it has so much time: what isn't done
/// by then fails, a flush too, which does nothing else. What the system has no room for yet is waited for.
#[derive(Drop)]
pub struct Limited<'a, R, S> {
    clock: &'a R,
    /// The connection.
    pub(crate) peer: Peer<S>,
    limit: Duration,
    /// When the time is up; none before the first write or flush.
    pub(crate) end: Option<Instant>,
    is_waiting: bool,
}

impl<'a, R: Clock, S> Limited<'a, R, S> {
    /// No time has passed of the limit.
    pub(crate) fn new(clock: &'a R, peer: Peer<S>, limit: Duration) -> Limited<'a, R, S>
        ensures peer { result.peer ≡ peer }
        ensures limit { result.limit ≡ limit }
        ensures end { result.end ≡ None }
    {
        Limited {
            clock,
            peer,
            limit,
            end: None,
            is_waiting: false,
        }
    }

    /// The time that is left, which is some. Once it has begun, it doesn't begin anew.
    fn left(&mut self) -> io::Result<Duration>
        ensures begun { IsOk result → IsSome self.new.end }
        ensures goes_on { IsSome self.old.end → self.new.end ≡ self.old.end }
        ensures same_peer { self.new.peer ≡ self.old.peer }
        ensures same_limit { self.new.limit ≡ self.old.limit }
    {
        let now = Instant::now(self.clock)?;
        let end = match self.end {
            Some(end) => end,
            None => match now.checked_add(self.limit) {
                Some(end) => {
                    self.end = Some(end);
                    end
                }
                None => return Err(io::Error::from(ErrorKind::InvalidInput)),
            },
        };
        let left = end.duration_since(now);
        if left.is_zero() {
            return Err(io::Error::from(ErrorKind::TimedOut));
        }
        Ok(left)
    }
}

impl<R: Clock, S: Duplex> Limited<'_, R, S> {
    /// Writes at once what can be, and else waits.
    fn write_some(&mut self, buf: &[u8]) -> io::Result<usize>
        ensures bound { WritesAtMost result buf.now }
        ensures octets { WriteAppends (S.contents self.old.peer.stream) (S.contents self.new.peer.stream) result
            buf.now }
        ensures goes_on { IsSome self.old.end → self.new.end ≡ self.old.end }
    {
        let left = self.left()?;
        let stream = &mut self.peer.stream;
        if !self.is_waiting {
            match stream.write(buf) {
                Err(error) if error.kind() == ErrorKind::WouldBlock => {
                    stream.set_nonblocking(false)?;
                    self.is_waiting = true;
                }
                written => return written,
            }
        }
        stream.set_write_timeout(Some(left))?;
        stream.write(buf)
    }
}

impl<R: Clock, S: Duplex> Write for Limited<'_, R, S> {
    // the octets that the stream took
    ghost contents = { λ limited. S.contents limited.peer.stream };

    fn write(&mut self, buf: &[u8]) -> io::Result<usize>
        ensures bound { WritesAtMost result buf.now }
        ensures octets { WriteAppends (S.contents self.old.peer.stream) (S.contents self.new.peer.stream) result
            buf.now }
        ensures goes_on { IsSome self.old.end → self.new.end ≡ self.old.end }
    {
        for _ in 0..MOST_INTERRUPTIONS {
            match self.write_some(buf) {
                Err(error) if error.kind() == ErrorKind::Interrupted => {}
                written => return written,
            }
        }
        Err(io::Error::from(ErrorKind::Interrupted))
    }

    fn flush(&mut self) -> io::Result<()>
        ensures octets { Keeps (S.contents self.old.peer.stream) (S.contents self.new.peer.stream) }
        ensures goes_on { IsSome self.old.end → self.new.end ≡ self.old.end }
    {
        let _ = self.left()?;
        Ok(())
    }
}
