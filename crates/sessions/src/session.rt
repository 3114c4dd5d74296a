//! The two ways of a session with a key holder.
use sockets::Duplex;
use std::cell::Cell;
use std::io;
use std::io::{ErrorKind, Read, Write};
use std::marker::Model;
use std::rc::Rc;
use std::time::{Clock, Duration, Instant};

/// How often a read or a write is tried again that ended before its time, as where the process was stopped and goes on.
const MOST_INTERRUPTIONS: usize = 1_000;

/// How far an exchange is.
#[derive(Clone, Copy)]
pub(crate) struct Exchange {
    /// When its time is up; none before the first.
    pub(crate) end: Option<Instant>,
    /// An answer was waited for: what is written next begins another.
    pub(crate) is_asked: bool,
}

/// One way of a stream to a key holder. An exchange begins with the first octet that is written, and goes on until
/// octets are written after some were read. It has so much time in all: what isn't done by then fails. What goes over
/// it is what goes over the stream.
#[derive(Drop)]
pub struct SessionStream<'a, R, S> {
    pub(crate) clock: &'a R,
    pub(crate) stream: S,
    pub(crate) limit: Duration,
    pub(crate) exchange: Rc<Cell<Exchange>>,
}

/// Contracts see the stream.
impl<'a, R, S> Model for SessionStream<'a, R, S> {
    ghost Value = { S };

    ghost view = { λ session. session.stream };
}

impl<R: Clock, S> SessionStream<'_, R, S> {
    /// The time that is left of an exchange, which is some.
    fn left(&self, is_read: bool) -> io::Result<Duration> {
        let now = Instant::now(self.clock)?;
        let exchange = self.exchange.get();
        let end = match exchange.end {
            Some(end) if is_read || !exchange.is_asked => end,
            _ => match now.checked_add(self.limit) {
                Some(end) => end,
                None => return Err(io::Error::from(ErrorKind::InvalidInput)),
            },
        };
        self.exchange.set(Exchange {
            end: Some(end),
            is_asked: is_read,
        });
        let left = end.duration_since(now);
        if left.is_zero() {
            return Err(io::Error::from(ErrorKind::TimedOut));
        }
        Ok(left)
    }
}

impl<R: Clock, S: Duplex> Read for SessionStream<'_, R, S> {
    // the octets that the stream still gives
    ghost remaining = { S.remaining };

    fn read(&mut self, buf: &mut [u8]) -> io::Result<usize> {
        for _ in 0..MOST_INTERRUPTIONS {
            let left = self.left(true)?;
            self.stream.set_read_timeout(Some(left))?;
            match self.stream.read(buf) {
                Err(error) if error.kind() == ErrorKind::Interrupted => {}
                taken => return taken,
            }
        }
        Err(io::Error::from(ErrorKind::Interrupted))
    }
}

impl<R: Clock, S: Duplex> Write for SessionStream<'_, R, S> {
    // the octets that the stream took
    ghost contents = { S.contents };

    fn write(&mut self, buf: &[u8]) -> io::Result<usize> {
        for _ in 0..MOST_INTERRUPTIONS {
            let left = self.left(false)?;
            self.stream.set_write_timeout(Some(left))?;
            match self.stream.write(buf) {
                Err(error) if error.kind() == ErrorKind::Interrupted => {}
                taken => return taken,
            }
        }
        Err(io::Error::from(ErrorKind::Interrupted))
    }

    fn flush(&mut self) -> io::Result<()> {
        Ok(())
    }
}
