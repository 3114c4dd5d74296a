//! A stream that is waited for beside others.
ghost use Rattle.std.specs.Prelude.{◌≡◌, OnErr};

use crate::acceptor::Connection;
use mio::{Registry, Token};
use std::io;

/// A stream whose reads answer at once.
#[derive(Drop)]
pub(crate) struct Peer<S> {
    /// The stream.
    pub(crate) stream: S,
    /// Something may be there to be read.
    pub(crate) is_ready: bool,
    token: Token,
    is_registered: bool,
}

impl<S> Peer<S> {
    /// A stream that was taken, under a token. What is there of it may be read.
    pub(crate) fn new(stream: S, token: Token) -> Peer<S>
        ensures { result.stream ≡ stream }
    {
        Peer {
            stream,
            is_ready: true,
            token,
            is_registered: false,
        }
    }

    /// The system tells that something may be there of what has that token.
    pub(crate) fn hear(&mut self, token: Token)
        ensures { self.new.stream ≡ self.old.stream }
    {
        if self.token == token {
            self.is_ready = true;
        }
    }
}

impl<S: Connection> Peer<S> {
    /// Nothing is there: from now on the system tells when that changes.
    pub(crate) fn wait(&mut self, registry: &Registry) -> io::Result<()>
        ensures same { self.new.stream ≡ self.old.stream }
        ensures failed { OnErr result (S.fails self.new.stream) }
    {
        self.is_ready = false;
        if self.is_registered {
            return Ok(());
        }
        self.stream.register(registry, self.token)?;
        self.is_registered = true;
        Ok(())
    }
}
