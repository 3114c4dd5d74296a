//! Connections whose requests are still to come, each with the octets that came of it.
ghost use Rattle.std.specs.Prelude.{◌≤◌, vec_capacity};

use crate::acceptor::Connection;
use crate::waiting_connection::{Progress, WaitingConnection, is_whole};
use mio::{Registry, Token};
use service::Routes;
use std::alloc::{AllocError, Global};
use std::time::{Duration, Instant};

/// The most connections that are read side by side.
pub(crate) const MOST_PLACES: usize = 256;

/// For how many seconds a connection keeps its place though others wait for one.
const PLACE_SECONDS: u64 = 2;

/// The places of those that are waited for, in the order in which they were taken.
#[derive(Drop)]
pub(crate) struct Places<S> {
    waiting: Vec<WaitingConnection<S>>,
    ghost room: { 256 ≤ vec_capacity waiting },
}

impl<S: Drop> Places<S> {
    ghost use Rattle.std.specs.Prelude.{◌≡◌, ◌<◌, [], ◌∷◌, ◌++◌, length, IfOk};
    ghost use Rattle.connections.specs.{Places.GivesWay, Places.most_places, WaitingConnection.place_of};
    ghost use Rattle.connections.specs.{WaitingConnection.places_of};

    /// None has a place yet.
    pub(crate) fn new(alloc: Global) -> Result<Places<S>, AllocError>
        ensures { IfOk result (λ places. places_of places ≡ []) }
    {
        Ok(Places {
            waiting: Vec::with_capacity(alloc, MOST_PLACES)?,
        })
    }

    /// One more gets a place, behind the others.
    pub(crate) fn push(&mut self, one: WaitingConnection<S>)
        requires { length (places_of self.old) < most_places }
        ensures { places_of self.new ≡ places_of self.old ++ (place_of one ∷ []) }
    {
        self.waiting.push_reserved(one);
    }

    /// One more gets a place, behind the others, for which the first loses its own.
    pub(crate) fn replace_first(&mut self, one: WaitingConnection<S>)
        requires { 0 < length (places_of self.old) }
        ensures { GivesWay (place_of one) (places_of self.old) (places_of self.new) }
    {
        self.waiting[0] = one;
        self.waiting.rotate_left(1);
    }
}

impl<S> Places<S> {
    ghost use Rattle.std.specs.Prelude.{◌≡◌, ◌+◌, ◌<◌, length, IfSome};
    ghost use Rattle.std.specs.{Duration.as_nanos, Time.instant_nanos};
    ghost use Rattle.connections.specs.Places.{IsAt, IsTakenOut, MayGiveWay};
    ghost use Rattle.connections.specs.WaitingConnection.{place_of, places_of};

    /// How many have a place.
    pub(crate) fn len(&self) -> usize
        ensures { result ≡ length (places_of self.now) }
    {
        self.waiting.len()
    }

    /// How long the first of them keeps its place still, though others wait for one; none where there is none, or where
    /// its request is whole.
    pub(crate) fn first_keeps(&self, now: Instant) -> Option<Duration>
        ensures { IfSome result (λ left. as_nanos left ≡ 0
            → IsAt 0 (MayGiveWay (instant_nanos now)) (places_of self.now)) }
    {
        match self.waiting.first() {
            Some(first) if !is_whole(&first.request) => Some(first.left_of(PLACE_SECONDS, now)),
            _ => None,
        }
    }

    /// Takes one out of its place.
    pub(crate) fn remove(&mut self, place: usize) -> WaitingConnection<S>
        requires { place < length (places_of self.old) }
        ensures { IsTakenOut place (place_of result) (places_of self.old) (places_of self.new) }
    {
        self.waiting.remove(place)
    }

    /// Those of a token may have something to be read.
    pub(crate) fn hear(&mut self, token: Token)
        ensures { places_of self.new ≡ places_of self.old }
    {
        for one in self.waiting.iter_mut() {
            one.peer.hear(token);
        }
    }

    /// The least time that one of them has left, where it is less.
    pub(crate) fn least_left(&self, now: Instant, least: Option<Duration>) -> Option<Duration> {
        let mut least = least;
        for one in &self.waiting {
            least = lesser(least, one.left(now));
        }
        least
    }
}

/// The lesser of the two, where there are two.
pub(crate) fn lesser(least: Option<Duration>, left: Duration) -> Option<Duration> {
    match least {
        Some(least) => Some(least.min(left)),
        None => Some(left),
    }
}

impl<S: Connection + Drop> Places<S> {
    ghost use Rattle.std.specs.Prelude.{◌≡◌, IfSome, MatchOption};
    ghost use Rattle.std.specs.{Time.instant_nanos, List.AllByRecursion};
    ghost use Rattle.connections.specs.Places.{AreAllUnfinished, AreReadOn, GivesOne, IsAt, IsUnfinished, IsWhole};
    ghost use Rattle.connections.specs.{Places.LosesOne, WaitingConnection.IsDoneBy, WaitingConnection.place_of};
    ghost use Rattle.connections.specs.{WaitingConnection.places_of};

    /// Reads what is there of each in turn: where the first stands that is done with, and whether its request is whole.
    fn first_done(
        &mut self,
        routes: &Routes,
        registry: &Registry,
        now: Instant,
    ) -> Option<(usize, bool)>
        ensures read { AreReadOn S.remaining S.fails (places_of self.old) (places_of self.new) }
        ensures done { IfSome result
            (λ done. IsAt done.0 (IsDoneBy (instant_nanos now) done.1) (places_of self.new)) }
    {
        for place in 0..self.waiting.len() {
            self.waiting[place].read(routes, registry);
            match self.waiting[place].progress(now) {
                Progress::Waits => {}
                Progress::Whole => return Some((place, true)),
                Progress::Failed => return Some((place, false)),
            }
        }
        None
    }

    /// Reads what is there of each in turn: where the first stands whose request is whole. One that failed keeps its
    /// place.
    fn first_whole(&mut self, routes: &Routes, registry: &Registry) -> Option<usize>
        ensures read { AreReadOn S.remaining S.fails (places_of self.old) (places_of self.new) }
        ensures whole { MatchOption result (AllByRecursion (λ one. IsUnfinished one.received) (places_of self.new))
            (λ place. IsAt place (λ one. IsWhole one.received) (places_of self.new)) }
    {
        for place in 0..self.waiting.len() {
            self.waiting[place].read(routes, registry);
            if is_whole(&self.waiting[place].request) {
                return Some(place);
            }
        }
        None
    }

    /// Another whose request is whole already is taken out of its place. None where there is none.
    pub(crate) fn take_whole(
        &mut self,
        routes: &Routes,
        registry: &Registry,
    ) -> Option<WaitingConnection<S>>
        ensures { MatchOption result (AreAllUnfinished S.remaining S.fails (places_of self.old) (places_of self.new))
            (λ one. GivesOne S.remaining S.fails (places_of self.old) (place_of one) (places_of self.new)) }
    {
        let place = self.first_whole(routes, registry)?;
        Some(self.remove(place))
    }

    /// The first that is done with is taken out of its place: it is given where its request is whole, and else none.
    pub(crate) fn take_done(
        &mut self,
        routes: &Routes,
        registry: &Registry,
        now: Instant,
    ) -> Option<Option<WaitingConnection<S>>>
        ensures { MatchOption result (AreReadOn S.remaining S.fails (places_of self.old) (places_of self.new))
            (λ done. MatchOption done ((one : _)
            × LosesOne S.remaining S.fails (instant_nanos now) (places_of self.old) one (places_of self.new))
            (λ one. GivesOne S.remaining S.fails (places_of self.old) (place_of one) (places_of self.new))) }
    {
        let (place, is_whole) = self.first_done(routes, registry, now)?;
        let one = self.remove(place);
        if is_whole {
            Some(Some(one))
        } else {
            Some(None)
        }
    }
}
