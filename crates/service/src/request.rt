//! The octets of a request, as they come.
ghost use Rattle.std.specs.Prelude.{◌≡◌, ◌+◌, ◌<◌, ◌≤◌, [], length, take, true, false, IfOk, OnOk, OnErr};
ghost use Rattle.std.specs.Io.KnownBytes.{Consumes};
ghost use Rattle.service.specs.Known.{Fills, IsDue, IsDueAtEnd, IsDueInPlace};
ghost use Rattle.service.specs.Received.{IsAll, IsPartial, Receives, is_open, most, reads_left};

use crate::due::Due;
use crate::head::head_in;
use crate::known::{Known, MOST_FIELDS, MOST_OCTETS, Parsed, Refused, known_of, with_room};
use crate::refusal::Refusal;
use crate::routes::Routes;
use httparse::spans::{EMPTY_HEADER_SPAN, HeaderSpan};
use std::alloc::Global;
use std::io::{ErrorKind, Read};
use std::marker::Model;

/// A request, as its octets come: at most a head's 8,192 and a body's 1,048,576. Its head is parsed behind each read
/// until it is whole, and what was found is kept.
#[derive(Drop)]
pub struct Request {
    /// The octets, and room for those that are wanted.
    room: Vec<u8>,
    /// Where the field lines of its head lie, once that is whole.
    headers: [HeaderSpan; MOST_FIELDS],
    /// How many octets came.
    filled: usize,
    /// What they are known to be.
    known: Known,
    /// The input ended behind them.
    is_ended: bool,
}

impl Model for Request {
    ghost use Rattle.service.specs.{Received.ReceivedValue, Known.IsKept, Known.received};

    ghost Value = { ReceivedValue };

    ghost view = { λ r. received r.room.items r.filled r.known r.is_ended };

    ghost invariant = { λ r. IsKept r.room.items r.headers r.filled r.known };
}

/// Reads once into the room behind what is filled, at most so many octets.
fn read_behind<R: Read>(
    reader: &mut R,
    room: &mut [u8],
    filled: usize,
    most: usize,
) -> Result<usize, ErrorKind>
    requires within { filled < length room.old }
    requires some { 0 < most }
    ensures kept { take filled room.new ≡ take filled room.old }
    ensures fills { IfOk result (Fills (R.remaining reader.old) (R.remaining reader.new) room.old room.new filled) }
    ensures few { IfOk result (λ count. count ≤ most) }
    ensures failed { OnErr result (Consumes (R.remaining reader.old) (R.remaining reader.new) []) }
{
    let end = room.len().min(filled.saturating_add(most));
    reader
        .read(&mut room[filled..end])
        .map_err(|error| error.kind())
}

/// Why a request is refused to which octets are wanting: its input has ended, or there is no memory for them.
fn cut(is_ended: bool) -> Refusal
    ensures ended { is_ended ≡ true → result ≡ Refusal.BadRequest }
    ensures out_of_memory { is_ended ≡ false → result ≡ Refusal.Unavailable }
{
    if is_ended {
        Refusal::BadRequest
    } else {
        Refusal::Unavailable
    }
}

impl Request {
    /// Nothing has come yet. Where memory is wanting for what comes, nothing will be read, and the answer is 503.
    pub fn new(alloc: Global) -> Request
        ensures octets { result.octets ≡ [] }
        ensures taken { result.taken ≡ 0 }
        ensures ended { result.is_ended ≡ false }
    {
        let headers = [EMPTY_HEADER_SPAN; MOST_FIELDS];
        match vec![in alloc; 0u8; MOST_OCTETS] {
            Ok(room) => Request {
                room,
                headers,
                filled: 0,
                known: Known::Open,
                is_ended: false,
            },
            Err(_) => Request {
                room: Vec::new(alloc),
                headers,
                filled: 0,
                known: Known::Refused(Refused {
                    refusal: Refusal::Unavailable,
                    taken: 0,
                    is_all: false,
                }),
                is_ended: false,
            },
        }
    }

    /// Whether the input ended before any octet came.
    pub fn is_closed(&self) -> bool
        ensures octets { result ≡ true → self.now.octets ≡ [] }
        ensures ended { result ≡ true → self.now.is_ended ≡ true }
        ensures closed { self.now.octets ≡ [] → self.now.is_ended ≡ true → result ≡ true }
    {
        self.is_ended && self.filled == 0
    }

    /// Whether others are wanted, and may come. Else all is there that will be read of it.
    pub fn is_open(&self) -> bool
        ensures { result ≡ is_open self.now }
    {
        self.known.is_wanting(self.filled) && !self.is_ended
    }

    /// Reads once where it is open: of a head at most so many octets, and of its body at most those that are wanted.
    fn read_some<R: Read>(
        &mut self,
        routes: &Routes,
        reader: &mut R,
        most: usize,
    ) -> Result<(), ErrorKind>
        requires { 0 < most }
        ensures receives { OnOk result (Receives (R.remaining reader.old) (R.remaining reader.new) self.old self.new) }
        ensures nearer { OnOk result (is_open self.old ≡ true → reads_left self.new < reads_left self.old) }
        ensures exact { OnOk result (most ≡ 1 → is_open self.old ≡ true → is_open self.new ≡ false
            → self.new.taken ≡ length self.new.octets) }
        ensures failed { OnErr result (Consumes (R.remaining reader.old) (R.remaining reader.new) []) }
        ensures kept { OnErr result (self.new ≡ self.old) }
        ensures partial { OnErr result (IsPartial self.old.octets) }
    {
        if !self.is_open() {
            return Ok(());
        }
        let filled = self.filled;
        let most = self.known.most(most);
        let count = read_behind(reader, self.room.as_mut_slice(), filled, most)?;
        if count == 0 {
            self.is_ended = true;
            return Ok(());
        }
        let all = filled + count;
        self.filled = all;
        match self.known {
            Known::Open => {
                let octets = self.room.as_slice().split_at(all).0;
                let known = known_of(routes, octets, filled, &mut self.headers);
                self.known = with_room(known, &mut self.room, all);
                Ok(())
            }
            _ => Ok(()),
        }
    }

    /// Reads once where it is open, and asks for no octet behind it.
    pub fn read<R: Read>(&mut self, routes: &Routes, reader: &mut R) -> Result<(), ErrorKind>
        ensures receives { OnOk result (Receives (R.remaining reader.old) (R.remaining reader.new) self.old self.new) }
        ensures nearer { OnOk result (is_open self.old ≡ true → reads_left self.new < reads_left self.old) }
        ensures exact { OnOk result (is_open self.old ≡ true → is_open self.new ≡ false
            → self.new.taken ≡ length self.new.octets) }
        ensures failed { OnErr result (Consumes (R.remaining reader.old) (R.remaining reader.new) []) }
        ensures kept { OnErr result (self.new ≡ self.old) }
        ensures partial { OnErr result (IsPartial self.old.octets) }
    {
        self.read_some(routes, reader, 1)
    }

    /// Reads once where it is open, as many octets as are there; others may stand behind its head.
    pub fn read_ahead<R: Read>(&mut self, routes: &Routes, reader: &mut R) -> Result<(), ErrorKind>
        ensures receives { OnOk result (Receives (R.remaining reader.old) (R.remaining reader.new) self.old self.new) }
        ensures nearer { OnOk result (is_open self.old ≡ true → reads_left self.new < reads_left self.old) }
        ensures failed { OnErr result (Consumes (R.remaining reader.old) (R.remaining reader.new) []) }
        ensures kept { OnErr result (self.new ≡ self.old) }
        ensures partial { OnErr result (IsPartial self.old.octets) }
    {
        self.read_some(routes, reader, MOST_OCTETS)
    }

    /// Whether it is whole, and nothing follows it.
    pub(crate) fn is_all(&self) -> bool
        ensures { result ≡ true → IsAll self.now.octets }
    {
        match self.known {
            Known::Open => false,
            Known::Parsed(parsed) => parsed.is_all && parsed.size == self.filled,
            Known::Refused(refused) => refused.is_all && refused.taken == self.filled,
        }
    }

    /// What is due to it, by what came.
    pub(crate) fn due(&self) -> Due<'_>
        ensures due { IsDue self.now result }
        ensures in_place { IsDueInPlace result }
        ensures ended { self.now.is_wanting ≡ true → self.now.is_ended ≡ true → IsDueAtEnd result }
    {
        match self.known {
            Known::Open if self.is_ended && self.filled == 0 => Due::Nothing,
            Known::Open => Due::Refusal(cut(self.is_ended)),
            Known::Refused(refused) => Due::Refusal(refused.refusal),
            Known::Parsed(parsed) if self.filled < parsed.size => {
                Due::Refusal(cut(self.is_ended))
            }
            Known::Parsed(parsed) => {
                let octets = self.room.as_slice().split_at(self.filled).0;
                let head = head_in(octets.split_at(parsed.seen).0, &self.headers, parsed.spans);
                let body = octets.split_at(parsed.size).0.split_at(parsed.spans.len).1;
                Due::Answer(parsed.action, head, body)
            }
        }
    }
}
