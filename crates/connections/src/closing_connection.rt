//! A connection that was answered, and whose client may still send.
ghost use Rattle.std.specs.Prelude.{◌≡◌, ◌<◌, IfSome};
ghost use Rattle.connections.specs.ClosingConnection.{IsCounted};

use crate::acceptor::Connection;
use crate::peer::Peer;
use mio::Registry;
use std::io::{ErrorKind, Read};
use std::time::{Duration, Instant};

/// The most octets that are dropped behind an answer.
const MOST_DROPPED: usize = 16_777_216;

/// How many seconds the next of them is waited for.
const DROP_SECONDS: u64 = 2;

/// How often one connection is read before it is another's turn.
const MOST_READS: u32 = 64;

/// A connection of which our side is ended. What the peer still sends is read and dropped, until it ends its own side,
/// sends nothing for some time, its time is up, or 16 MiB are dropped, at most a buffer more. A stream that is closed
/// with octets in it that weren't read would be reset, and the peer might lose what was written.
#[derive(Drop)]
pub(crate) struct ClosingConnection<S> {
    /// The connection.
    pub(crate) peer: Peer<S>,
    /// When it has had its time.
    end: Instant,
    /// When the next octet has to have come.
    until: Instant,
    dropped: usize,
    ghost few: { dropped < 16_781_312 },
}

/// When the next octet has to have come.
fn until(now: Instant) -> Option<Instant> {
    now.checked_add(Duration::from_secs(DROP_SECONDS))
}

impl<S: Drop> ClosingConnection<S> {
    /// Nothing is dropped yet. None where there is no such moment.
    pub(crate) fn new(peer: Peer<S>, end: Instant, now: Instant) -> Option<ClosingConnection<S>>
        ensures peer { IfSome result (λ closing. closing.peer.stream ≡ peer.stream) }
        ensures none { IfSome result (λ closing. closing.dropped ≡ 0) }
    {
        let mut peer = peer;
        peer.is_ready = true;
        Some(ClosingConnection {
            peer,
            end,
            until: until(now)?,
            dropped: 0,
        })
    }
}

impl<S> ClosingConnection<S> {
    /// The time until it is to be looked at again.
    pub(crate) fn left(&self, now: Instant) -> Duration {
        if self.peer.is_ready {
            Duration::ZERO
        } else {
            self.end.min(self.until).duration_since(now)
        }
    }
}

impl<S: Connection> ClosingConnection<S> {
    /// Drops what is there, and tells whether it can be closed.
    pub(crate) fn is_done(&mut self, registry: &Registry, now: Instant) -> bool
        ensures counted { IsCounted (S.remaining self.old.peer.stream) (S.remaining self.new.peer.stream)
            self.old.dropped self.new.dropped }
    {
        if self.peer.is_ready && self.drop_some(registry, now) {
            return true;
        }
        self.end <= now || self.until <= now
    }

    /// Reads once and drops what came: how many octets.
    fn drop_once(&mut self) -> Result<usize, ErrorKind>
        requires { self.old.dropped < 16_777_216 }
        ensures counted { IsCounted (S.remaining self.old.peer.stream) (S.remaining self.new.peer.stream)
            self.old.dropped self.new.dropped }
    {
        let mut room = [0u8; 4096];
        match self.peer.stream.read(&mut room) {
            Ok(taken) => {
                self.dropped += taken;
                Ok(taken)
            }
            Err(error) => Err(error.kind()),
        }
    }

    /// Reads and drops what is there; whether it is the last.
    #[tactic(auto, using(crate::proofs::ClosingLemmas::counted_none, crate::proofs::ClosingLemmas::counted_then))]
    fn drop_some(&mut self, registry: &Registry, now: Instant) -> bool
        ensures counted { IsCounted (S.remaining self.old.peer.stream) (S.remaining self.new.peer.stream)
            self.old.dropped self.new.dropped }
    {
        for _ in 0..MOST_READS {
            if self.dropped >= MOST_DROPPED {
                return true;
            }
            match self.drop_once() {
                Ok(0) => return true,
                Ok(_) => {}
                Err(ErrorKind::WouldBlock) => return self.peer.wait(registry).is_err(),
                Err(_) => return true,
            }
            match until(now) {
                Some(until) => self.until = until,
                None => return true,
            }
        }
        false
    }
}
