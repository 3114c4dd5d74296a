//! A head in the octets that were read.
ghost use Rattle.std.specs.Prelude.{◌≡◌, IsUtf8};
ghost use Rattle.httparse.specs.{Grammar.RequestHead, Spans.IsRequestAt, Spans.IsRequestWithin};
ghost use Rattle.service.specs.{Heads.head_value, Views.head_view, Views.IsInPlace};

use httparse::spans::{HeaderSpan, RequestSpans};
use std::str;

/// A request's head: method and target as sent, and where its fields are.
#[derive(Clone, Copy)]
pub(crate) struct Head<'b> {
    pub(crate) method: &'b [u8],
    pub(crate) target: &'b str,
    pub(crate) octets: &'b [u8],
    pub(crate) headers: &'b [HeaderSpan],
}

/// The text of octets that are one, and else none.
fn text_of(octets: &[u8]) -> &str
    ensures { IsUtf8 octets.now → result.now ≡ octets.now }
{
    str::from_utf8(octets).unwrap_or("")
}

/// The head that begins octets.
pub(crate) fn head_in<'b>(
    octets: &'b [u8],
    headers: &'b [HeaderSpan],
    spans: RequestSpans,
) -> Head<'b>
    requires { IsRequestWithin octets.now headers.now spans }
    ensures head { (h : RequestHead) → IsRequestAt octets.now headers.now spans h → head_view result ≡ head_value h }
    ensures within { IsInPlace result }
{
    Head {
        method: spans.method.of(octets),
        target: text_of(spans.path.of(octets)),
        octets,
        headers: headers.split_at(spans.headers).0,
    }
}
