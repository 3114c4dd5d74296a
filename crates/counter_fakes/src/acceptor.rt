ghost use Rattle.std.specs.Prelude.{◌≡◌};

use connections::{Accepted, Acceptor, Connection};
use mio::{Events, Poll, Registry, Token};
use service::{Request, Routes};
use sockets::Duplex;
use std::io::{self, ErrorKind, Read, Write};
use std::net::Shutdown;
use std::time::Duration;

/// A connection whose client has sent all that it will: what comes is a reader's, and what goes is a writer's. It has
/// no descriptor, and no time limits it.
#[derive(Drop)]
pub struct ScriptedStream<R, W> {
    /// What its client sent.
    pub reader: R,
    /// What goes to its client.
    pub writer: W,
}

impl<R: Read, W> Read for ScriptedStream<R, W> {
    ghost remaining = { λ stream. R.remaining stream.reader };

    fn read(&mut self, buf: &mut [u8]) -> io::Result<usize> {
        self.reader.read(buf)
    }
}

impl<R, W: Write> Write for ScriptedStream<R, W> {
    ghost contents = { λ stream. W.contents stream.writer };

    fn write(&mut self, buf: &[u8]) -> io::Result<usize> {
        self.writer.write(buf)
    }

    fn flush(&mut self) -> io::Result<()> {
        self.writer.flush()
    }
}

impl<R: Read, W: Write> Duplex for ScriptedStream<R, W> {
    fn set_nonblocking(&self, _nonblocking: bool) -> io::Result<()> {
        Ok(())
    }

    fn set_read_timeout(&self, _limit: Option<Duration>) -> io::Result<()> {
        Ok(())
    }

    fn set_write_timeout(&self, _limit: Option<Duration>) -> io::Result<()> {
        Ok(())
    }

    fn shutdown(&self, _how: Shutdown) -> io::Result<()> {
        Ok(())
    }
}

impl<R: Read, W: Write> Connection for ScriptedStream<R, W> {
    fn read_request(&mut self, routes: &Routes, request: &mut Request) -> Result<(), ErrorKind> {
        request.read_ahead(routes, self)
    }

    fn register(&self, _registry: &Registry, _token: Token) -> io::Result<()> {
        Ok(())
    }
}

/// What accepts connections one after the other, until none is left. It tells which ones, and so their octets, where
/// their readers and writers tell them.
#[derive(Drop)]
pub struct ScriptedAcceptor<S> {
    /// Those that are still to come, the next one first.
    pub streams: Vec<S>,
}

/// It never fails, and waits for nothing.
impl<S: Connection + Drop> Acceptor for ScriptedAcceptor<S> {
    ghost use Rattle.counter_fakes.specs.Scripted.{Gives};

    type Stream = S;

    ghost tells = { λ before told after. Gives before.streams.items told after.streams.items };

    fn register(&self, _registry: &Registry, _token: Token) -> io::Result<()> {
        Ok(())
    }

    fn accept(&mut self) -> Accepted<S> {
        if self.streams.is_empty() {
            return Accepted::Nothing;
        }
        Accepted::One(self.streams.remove(0))
    }

    fn wait(
        &mut self,
        _poll: &mut Poll,
        _events: &mut Events,
        _limit: Option<Duration>,
    ) -> io::Result<()> {
        Ok(())
    }
}
