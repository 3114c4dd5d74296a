//! What the octets that came of a request are known to be, whatever others follow.
ghost use Rattle.std.specs.Prelude.{◌≡◌, ℕ, ◌+◌, ◌<◌, ◌≤◌, List, length, take, true};
ghost use Rattle.httparse.specs.{Spans.RequestOverflows, declared.spans.HeaderSpan.HeaderSpan};
ghost use Rattle.service.specs.Known.{BeginsAt, IsKnown, IsBehind, IsShort, HasRoom, headless, is_wanting};
ghost use Rattle.service.specs.{Heads.most_octets, Heads.most_fields, Heads.IsBegun, Heads.IsHeadless, Received.most};
ghost use Rattle.service.specs.{Received.has_no_body, Received.ends_with_body, Views.IsInPlace, Views.head_view};

use crate::fields::stated;
use crate::head::{Head, head_in};
use crate::refusal::Refusal;
use crate::routes::{Action, Routes};
use crate::wanted::{has_body, wanted_by};
use httparse::Status;
use httparse::spans::{HeaderSpan, RequestSpans, parse_request};

/// The most octets of a head, with the empty lines before it.
pub const MOST_OCTETS: usize = 8_192;

/// The most field lines of a head.
pub(crate) const MOST_FIELDS: usize = 32;

/// A head that begins octets, and what it asks for.
#[derive(Clone, Copy)]
pub(crate) struct Parsed {
    /// How many octets had come when it was found.
    pub(crate) seen: usize,
    /// Where its parts lie in them.
    pub(crate) spans: RequestSpans,
    /// What it asks for.
    pub(crate) action: Action,
    /// How many octets the request has, with its body.
    pub(crate) size: usize,
    /// Nothing follows these.
    pub(crate) is_all: bool,
}

/// The octets that are refused.
#[derive(Clone, Copy)]
pub(crate) struct Refused {
    /// Why.
    pub(crate) refusal: Refusal,
    /// How many are read as the request.
    pub(crate) taken: usize,
    /// Nothing follows these.
    pub(crate) is_all: bool,
}

/// What octets are known to be.
#[derive(Clone, Copy)]
pub(crate) enum Known {
    /// A head may begin them, and isn't whole.
    Open,
    /// A head begins them that asks for something.
    Parsed(Parsed),
    /// They are refused, or memory is wanting for those behind them.
    Refused(Refused),
}

/// Whether no body comes with a head, and no field tells of one (RFC 9112 6.3).
fn has_no_body(head: Head<'_>) -> bool
    requires { IsInPlace head }
    ensures { result ≡ has_no_body (head_view head.entry) }
{
    !has_body(head.method)
        && stated(head.octets, head.headers, b"content-length").is_never()
        && stated(head.octets, head.headers, b"transfer-encoding").is_never()
}

/// Whether nothing of a request follows its head and the body that is asked for.
fn ends_with_body(head: Head<'_>) -> bool
    requires { IsInPlace head }
    ensures { result ≡ ends_with_body (head_view head.entry) }
{
    has_body(head.method) || has_no_body(head)
}

/// After how many of these octets it is so that no head begins them, whatever follows, if it is so after all of them,
/// and not after so many.
fn malformed_after(octets: &[u8], before: usize, headers: &mut [HeaderSpan]) -> usize
    requires few { length octets.now ≤ most_octets }
    requires fields { length headers.old ≡ most_fields }
    requires before { before < length octets.now }
    requires begun { IsBegun (take before octets.now) }
    requires malformed { RequestOverflows most_fields octets.now }
    ensures behind { before < result }
    ensures within { result ≤ length octets.now }
    ensures headless { IsHeadless (take result octets.now) }
{
    let mut low = before;
    let mut high = octets.len();
    while low + 1 < high {
        let middle = low + (high - low) / 2;
        match parse_request(&octets[..middle], headers) {
            Ok(Status::Partial) => low = middle,
            Ok(Status::Complete(_head)) => high = middle,
            Err(_) => high = middle,
        }
    }
    high
}

/// So many octets are no head.
fn headless(taken: usize) -> Known
    ensures { result ≡ headless taken }
{
    Known::Refused(Refused {
        refusal: Refusal::BadRequest,
        taken,
        is_all: false,
    })
}

/// What octets are known to be that begin with a head.
fn known_by_head(
    routes: &Routes,
    octets: &[u8],
    headers: &[HeaderSpan],
    spans: RequestSpans,
) -> Known
    requires { BeginsAt octets.now headers.now spans }
    ensures known { IsKnown octets.now headers.now result }
    ensures behind { (before : ℕ) → before < spans.len → IsBehind before result }
    ensures short { IsShort result }
{
    let head = head_in(octets, headers, spans);
    match wanted_by(routes, head) {
        Ok(wanted) => Known::Parsed(Parsed {
            seen: octets.len(),
            spans,
            action: wanted.action,
            size: spans.len + wanted.count as usize,
            is_all: ends_with_body(head),
        }),
        Err(refusal) => Known::Refused(Refused {
            refusal,
            taken: spans.len,
            is_all: has_no_body(head),
        }),
    }
}

/// What octets are known to be, of which the first so many only began a head.
pub(crate) fn known_of(
    routes: &Routes,
    octets: &[u8],
    before: usize,
    headers: &mut [HeaderSpan],
) -> Known
    requires few { length octets.now ≤ most_octets }
    requires fields { length headers.old ≡ most_fields }
    requires before { before < length octets.now }
    requires begun { IsBegun (take before octets.now) }
    ensures known { IsKnown octets.now headers.new result }
    ensures behind { IsBehind before result }
    ensures short { IsShort result }
{
    match parse_request(octets, headers) {
        Ok(Status::Complete(spans)) => known_by_head(routes, octets, headers, spans),
        Ok(Status::Partial) if octets.len() < MOST_OCTETS => Known::Open,
        Ok(Status::Partial) => headless(octets.len()),
        Err(_) => headless(malformed_after(octets, before, headers)),
    }
}

/// What is known once room is made for the octets that are wanted to a request, of which so many came: where there is
/// none, that memory is wanting.
pub(crate) fn with_room(known: Known, room: &mut Vec<u8>, filled: usize) -> Known
    requires within { filled ≤ length room.old.items }
    requires few { length room.old.items ≤ most }
    requires short { IsShort known }
    requires left { HasRoom (length room.old.items) filled Known.Open }
    ensures kept { take filled room.new.items ≡ take filled room.old.items }
    ensures within { filled ≤ length room.new.items }
    ensures few { length room.new.items ≤ most }
    ensures known { (headers : List HeaderSpan) → IsKnown (take filled room.old.items) headers known
        → IsKnown (take filled room.old.items) headers result }
    ensures behind { (before : ℕ) → IsBehind before known → IsBehind before result }
    ensures short { IsShort result }
    ensures left { HasRoom (length room.new.items) filled result }
{
    match known {
        Known::Parsed(parsed) if filled < parsed.size => match room.resize(parsed.size, 0) {
            Ok(()) => known,
            Err(_) => Known::Refused(Refused {
                refusal: Refusal::Unavailable,
                taken: parsed.spans.len,
                is_all: false,
            }),
        },
        _ => known,
    }
}

impl Known {
    /// Whether octets are wanted to a request of which so many came.
    pub(crate) fn is_wanting(self, filled: usize) -> bool
        ensures { result ≡ is_wanting self filled }
    {
        match self {
            Known::Open => true,
            Known::Parsed(parsed) => filled < parsed.size,
            Known::Refused(_) => false,
        }
    }

    /// How many octets are read at most: so many of a head, and of a body all that are wanted.
    pub(crate) fn most(self, most: usize) -> usize
        requires { 0 < most }
        ensures some { 0 < result }
        ensures head { self ≡ Known.Open → result ≡ most }
    {
        match self {
            Known::Open => most,
            _ => usize::MAX,
        }
    }
}
