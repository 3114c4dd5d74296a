//! A connection whose request is still to come.
ghost use Rattle.std.specs.Prelude.{◌≡◌, ◌*◌, ◌-◌, [], true, false};
ghost use Rattle.std.specs.{Duration.as_nanos, Time.instant_nanos};
ghost use Rattle.connections.specs.Places.{IsReadOn, IsUnfinished, IsWhole};
ghost use Rattle.connections.specs.WaitingConnection.{HasCome, place_of};

use crate::acceptor::Connection;
use crate::peer::Peer;
use crate::server::CONNECTION_SECONDS;
use mio::{Registry, Token};
use service::{Request, Routes};
use std::alloc::Global;
use std::io::ErrorKind;
use std::time::{Duration, Instant};

/// How often one connection is read before it is another's turn.
const MOST_READS: u32 = 64;

/// How far a request has come.
#[derive(Clone, Copy)]
pub(crate) enum Progress {
    /// Others are wanted.
    Waits,
    /// All is there that will be read of it.
    Whole,
    /// It isn't, and no more of it is waited for.
    Failed,
}

/// Whether all is there that will be read of a request. It isn't where the input ended before any octet came.
pub(crate) fn is_whole(request: &Request) -> bool
    ensures whole { result ≡ true → IsWhole request.now }
    ensures unfinished { result ≡ false → IsUnfinished request.now }
{
    !request.is_open() && !request.is_closed()
}

/// A connection, and what has come of its request.
#[derive(Drop)]
pub(crate) struct WaitingConnection<S> {
    /// The connection.
    pub(crate) peer: Peer<S>,
    /// Its request.
    pub(crate) request: Request,
    /// When it was taken.
    pub(crate) taken: Instant,
    /// Reading it failed.
    pub(crate) has_failed: bool,
}

impl<S> WaitingConnection<S> {
    /// One that is taken, under a token.
    pub(crate) fn new(
        stream: S,
        token: Token,
        taken: Instant,
        alloc: Global,
    ) -> WaitingConnection<S>
        ensures stream { result.peer.stream ≡ stream }
        ensures unread { result.request.octets ≡ [] }
        ensures going_on { result.request.is_ended ≡ false }
        ensures taken { result.taken ≡ taken }
        ensures fine { result.has_failed ≡ false }
    {
        WaitingConnection {
            peer: Peer::new(stream, token),
            request: Request::new(alloc),
            taken,
            has_failed: false,
        }
    }

    /// What is left of so many seconds since it was taken.
    pub(crate) fn left_of(&self, seconds: u64, now: Instant) -> Duration
        ensures { as_nanos result ≡ seconds * 1_000_000_000 - (instant_nanos now - instant_nanos self.now.taken) }
    {
        Duration::from_secs(seconds).saturating_sub(now.duration_since(self.taken))
    }

    /// The time until it is to be looked at again.
    pub(crate) fn left(&self, now: Instant) -> Duration {
        if self.peer.is_ready {
            Duration::ZERO
        } else {
            self.left_of(CONNECTION_SECONDS, now)
        }
    }

    /// How far its request has come. It fails where its input ended before any octet, reading it failed, or its time is
    /// up.
    pub(crate) fn progress(&self, now: Instant) -> Progress
        ensures { HasCome (instant_nanos now) result (place_of self.now) }
    {
        if is_whole(&self.request) {
            return Progress::Whole;
        }
        if self.request.is_closed()
            || self.has_failed
            || self.left_of(CONNECTION_SECONDS, now).is_zero()
        {
            return Progress::Failed;
        }
        Progress::Waits
    }
}

impl<S: Connection> WaitingConnection<S> {
    /// Reads once.
    fn read_once(&mut self, routes: &Routes, registry: &Registry)
        requires { self.old.has_failed ≡ false }
        ensures { IsReadOn S.remaining S.fails (place_of self.old) (place_of self.new) }
    {
        match self.peer.stream.read_request(routes, &mut self.request) {
            Ok(()) | Err(ErrorKind::Interrupted) => {}
            Err(ErrorKind::WouldBlock) => self.has_failed = self.peer.wait(registry).is_err(),
            Err(_) => self.has_failed = true,
        }
    }

    /// Reads what is there, as long as others are wanted.
    #[tactic(auto, using(crate::proofs::PlacesLemmas::still_read, crate::proofs::PlacesLemmas::read_then))]
    pub(crate) fn read(&mut self, routes: &Routes, registry: &Registry)
        ensures { IsReadOn S.remaining S.fails (place_of self.old) (place_of self.new) }
    {
        for _ in 0..MOST_READS {
            if self.has_failed || !self.peer.is_ready || !self.request.is_open() {
                return;
            }
            self.read_once(routes, registry);
        }
    }
}
