//! What accepts connections.
ghost use Rattle.std.specs.Prelude.{◌≡◌, ◌≢◌, [], IfErr, MatchResult, OnErr, OnOk};
ghost use Rattle.std.specs.Io.KnownBytes.{Consumes};
ghost use Rattle.service.specs.Received.{Receives};
ghost use Rattle.connections.specs.declared.acceptor.Accepted.{Accepted as SpecAccepted};

use mio::unix::SourceFd;
use mio::{Events, Interest, Poll, Registry, Token};
use service::{Request, Routes};
use sockets::{Duplex, Listener, Stream};
use std::io;
use std::io::ErrorKind;
use std::os::fd::AsRawFd;
use std::time::Duration;

/// A connection. It may tell that reading it fails; what is proved over all is proved of those that tell.
pub trait Connection: Duplex {
    // reading it failed, or the system can't tell when more comes
    ghost fails: { Self → Type 0 } = { λ _. Unit {0} };

    /// Reads once of a request what is there, as `Request::read_ahead`; `WouldBlock` where nothing is.
    fn read_request(&mut self, routes: &Routes, request: &mut Request) -> Result<(), ErrorKind>
        ensures receives { OnOk result
            (Receives (Self.remaining self.old) (Self.remaining self.new) request.old request.new) }
        ensures none_lost { OnErr result (Consumes (Self.remaining self.old) (Self.remaining self.new) []) }
        ensures kept { OnErr result (request.new ≡ request.old) }
        ensures failed { IfErr result (λ kind. kind ≢ ErrorKind.WouldBlock → kind ≢ ErrorKind.Interrupted
            → fails self.new) };

    /// From now on the system tells by that token when something may be there to be read.
    fn register(&self, registry: &Registry, token: Token) -> io::Result<()>
        ensures { OnErr result (fails self.now) };
}

/// It tells nothing: no contract of the machine's streams says when a read fails.
impl Connection for Stream {
    fn read_request(&mut self, routes: &Routes, request: &mut Request) -> Result<(), ErrorKind> {
        request.read_ahead(routes, self)
    }

    fn register(&self, registry: &Registry, token: Token) -> io::Result<()> {
        let descriptor = self.as_raw_fd();
        registry.register(&mut SourceFd(&descriptor), token, Interest::READABLE)
    }
}

/// What accepting a connection came to.
pub enum Accepted<S> {
    /// A connection.
    One(S),
    /// None is there.
    Nothing,
    /// The system has nothing to spare for one that may be there.
    Short,
    /// One failed before it was accepted, as where its client gave it up; or it can't be waited.
    Failed,
}

/// What accepts connections, and waits for them. It may tell which ones came, and their octets; what is proved over all
/// is proved of those that tell, and no code can know one from another.
pub trait Acceptor {
    /// A connection.
    type Stream: Connection + Drop;

    // what accepting came to; waiting comes to nothing, or fails
    ghost tells: { Self → SpecAccepted Self.Stream → Self → Type 0 } = { λ _ _ _. Unit {0} };

    /// From now on accepting doesn't wait, and the system tells by that token when a connection may be there.
    fn register(&self, registry: &Registry, token: Token) -> io::Result<()>;

    /// Accepts the next connection, whose reads don't wait.
    fn accept(&mut self) -> Accepted<Self::Stream>
        ensures { tells self.old result self.new };

    /// Waits until the system tells of something, for so long at most.
    fn wait(
        &mut self,
        poll: &mut Poll,
        events: &mut Events,
        limit: Option<Duration>,
    ) -> io::Result<()>
        ensures { MatchResult result (λ waited. tells self.old Accepted.Nothing self.new)
            (λ error. tells self.old Accepted.Failed self.new) };
}

/// It tells nothing: no contract of the machine's sockets says which connections come.
impl Acceptor for Listener {
    type Stream = Stream;

    fn register(&self, registry: &Registry, token: Token) -> io::Result<()> {
        self.set_nonblocking(true)?;
        let descriptor = self.as_raw_fd();
        registry.register(&mut SourceFd(&descriptor), token, Interest::READABLE)
    }

    fn accept(&mut self) -> Accepted<Stream> {
        match Listener::accept(self) {
            Ok(stream) => match stream.set_nonblocking(true) {
                Ok(()) => Accepted::One(stream),
                Err(_) => Accepted::Failed,
            },
            Err(error) => match error.kind() {
                ErrorKind::WouldBlock => Accepted::Nothing,
                ErrorKind::ConnectionAborted => Accepted::Failed,
                _ => Accepted::Short,
            },
        }
    }

    fn wait(
        &mut self,
        poll: &mut Poll,
        events: &mut Events,
        limit: Option<Duration>,
    ) -> io::Result<()> {
        match poll.poll(events, limit) {
            // The process was stopped, and goes on.
            Err(error) if error.kind() == ErrorKind::Interrupted => Ok(()),
            polled => polled,
        }
    }
}
