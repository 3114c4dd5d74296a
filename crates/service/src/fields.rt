//! Field lines of a head (RFC 9110 5), and what their values say.
ghost use Rattle.std.specs.Prelude.{◌≡◌, [], ◌∷◌, map, reverse, ◌==◌, length, All, MatchOption};
ghost use Rattle.std.specs.List.{before_first};
ghost use Rattle.httparse.specs.Grammar.{trim_ows, is_ows, skip_ows};
ghost use Rattle.httparse.specs.Spans.{IsHeaderWithin, header_bytes};
ghost use Rattle.service.specs.Fields.{same_letters, values, stated};
ghost use Rattle.service.specs.{Checks.is_never, Checks.type_in, Views.occurrence_view};

use httparse::spans::HeaderSpan;

/// How often a name stands among field lines, and its value where it stands once.
#[derive(Clone, Copy)]
pub(crate) enum Occurrence<'b> {
    /// It doesn't stand.
    Never,
    /// It stands once.
    Once(&'b [u8]),
    /// It stands twice or more.
    Twice,
}

impl Occurrence<'_> {
    /// Whether it doesn't stand.
    pub(crate) fn is_never(self) -> bool
        ensures { result ≡ is_never (occurrence_view self.entry) }
    {
        matches!(self, Occurrence::Never)
    }
}

/// Whether two names have the same letters, of any case.
pub(crate) fn same_letters(a: &[u8], b: &[u8]) -> bool
    ensures { result ≡ same_letters a.now b.now }
{
    a.eq_ignore_ascii_case(b)
}

/// The first field of a name, in letters of any case, and those behind it.
fn first_field<'b, 'h>(
    octets: &'b [u8],
    headers: &'h [HeaderSpan],
    name: &[u8],
) -> Option<(&'b [u8], &'h [HeaderSpan])>
    requires { All (IsHeaderWithin (length octets.now)) headers.now }
    ensures found { MatchOption result (values name.now (map (header_bytes octets.now) headers.now) ≡ [])
        (λ x. values name.now (map (header_bytes octets.now) headers.now)
        ≡ x.0.now ∷ values name.now (map (header_bytes octets.now) x.1.now)) }
    ensures within { MatchOption result (Unit {0}) (λ x. All (IsHeaderWithin (length octets.now)) x.1.now) }
{
    for (index, header) in headers.iter().enumerate() {
        if same_letters(header.name.of(octets), name) {
            return Some((header.value.of(octets), &headers[index + 1..]));
        }
    }
    None
}

/// How often a field of a name stands, and its value where it stands once.
pub(crate) fn stated<'b>(octets: &'b [u8], headers: &[HeaderSpan], name: &[u8]) -> Occurrence<'b>
    requires { All (IsHeaderWithin (length octets.now)) headers.now }
    ensures { occurrence_view result ≡ stated name.now (map (header_bytes octets.now) headers.now) }
{
    match first_field(octets, headers, name) {
        None => Occurrence::Never,
        Some((value, rest)) => match first_field(octets, rest, name) {
            None => Occurrence::Once(value),
            Some(_) => Occurrence::Twice,
        },
    }
}

fn is_ows(octet: u8) -> bool
    ensures { result ≡ is_ows octet }
{
    octet == b' ' || octet == b'\t'
}

/// The octets from the first that is no space or tab.
fn skip_ows(octets: &[u8]) -> &[u8]
    ensures { result.now ≡ skip_ows octets.now }
{
    let mut rest = octets;
    while let Some((first, others)) = rest.split_first() {
        if !is_ows(*first) {
            return rest;
        }
        rest = others;
    }
    rest
}

/// The octets up to the last that is no space or tab.
fn skip_ows_at_end(octets: &[u8]) -> &[u8]
    ensures { result.now ≡ reverse (skip_ows (reverse octets.now)) }
{
    let mut rest = octets;
    while let Some((last, others)) = rest.split_last() {
        if !is_ows(*last) {
            return rest;
        }
        rest = others;
    }
    rest
}

/// What stands before the first octet of that kind.
fn before(octets: &[u8], end: u8) -> &[u8]
    ensures { result.now ≡ before_first (λ octet. octet == end) octets.now }
{
    for (index, octet) in octets.iter().enumerate() {
        if *octet == end {
            return octets.split_at(index).0;
        }
    }
    octets
}

/// The media type of a field's value, without its parameters (RFC 9110 8.3.1).
#[tactic(auto, unfolding(httparse::specs::Grammar::trim_ows))]
pub(crate) fn type_in(value: &[u8]) -> &[u8]
    ensures { result.now ≡ type_in value.now }
{
    skip_ows_at_end(skip_ows(before(value, b';')))
}
