//! The checks of a head, in their order.
ghost use Rattle.std.specs.Prelude.{◌≡◌, ◌≤◌, Option, IfOk};
ghost use Rattle.service.specs.Checks.{without_coding, stated_length, body_length, stated_query, typed, wanted_at};
ghost use Rattle.service.specs.Checks.{wanted_by, most_body, once, has_body, is_stamp};
ghost use Rattle.service.specs.Views.{occurrence_view, head_view, IsInPlace, octets_given, result_by, wanted_view};

use crate::fields::{Occurrence, same_letters, stated, type_in};
use crate::head::Head;
use crate::numbers::length_in;
use crate::refusal::Refusal;
use crate::routes::{Action, Methods, Routes};

/// The most octets of a body.
const MOST_BODY: u64 = 1_048_576;

/// What a head asks for, and how many octets its body has.
#[derive(Clone, Copy)]
pub(crate) struct Wanted {
    pub(crate) action: Action,
    pub(crate) count: u64,
}

/// The value of a field that has to stand once.
pub(crate) fn once<'b>(
    absent: Refusal,
    repeated: Refusal,
    found: Occurrence<'b>,
) -> Result<&'b [u8], Refusal>
    ensures { octets_given result ≡ once absent repeated (occurrence_view found.entry) }
{
    match found {
        Occurrence::Never => Err(absent),
        Occurrence::Once(value) => Ok(value),
        Occurrence::Twice => Err(repeated),
    }
}

/// There is no transfer coding.
fn check_coding(head: Head<'_>) -> Result<(), Refusal>
    requires { IsInPlace head }
    ensures { result ≡ without_coding (head_view head.entry) }
{
    if stated(head.octets, head.headers, b"transfer-encoding").is_never() {
        Ok(())
    } else {
        Err(Refusal::TransferEncoding)
    }
}

/// How many octets the body has, as one field tells; not too many.
fn stated_length(head: Head<'_>) -> Result<u64, Refusal>
    requires { IsInPlace head }
    ensures value { result ≡ stated_length (head_view head.entry) }
    ensures few { IfOk result (λ count. count ≤ most_body) }
{
    let found = stated(head.octets, head.headers, b"content-length");
    let digits = once(Refusal::Length, Refusal::BadLength, found)?;
    let count = length_in(digits).ok_or(Refusal::BadLength)?;
    if count > MOST_BODY {
        return Err(Refusal::TooLarge);
    }
    Ok(count)
}

/// Whether a body comes with a method.
pub(crate) fn has_body(method: &[u8]) -> bool
    ensures { result ≡ has_body method.now }
{
    method == b"POST".as_slice()
}

impl Action {
    /// Whether it answers a time-stamp request.
    pub(crate) fn is_stamp(self) -> bool
        ensures { result ≡ is_stamp self }
    {
        matches!(self, Action::Stamp)
    }
}

/// How many octets are read behind the head.
fn body_length(head: Head<'_>) -> Result<u64, Refusal>
    requires { IsInPlace head }
    ensures value { result ≡ body_length (head_view head.entry) }
    ensures few { IfOk result (λ count. count ≤ most_body) }
{
    if has_body(head.method) {
        stated_length(head)
    } else {
        Ok(0)
    }
}

/// One field tells that the body is a time-stamp request.
fn stated_query(head: Head<'_>) -> Result<(), Refusal>
    requires { IsInPlace head }
    ensures { result ≡ stated_query (head_view head.entry) }
{
    let found = stated(head.octets, head.headers, b"content-type");
    let value = once(Refusal::Type, Refusal::Type, found)?;
    if same_letters(type_in(value), b"application/timestamp-query") {
        Ok(())
    } else {
        Err(Refusal::Type)
    }
}

/// A type is asked of a time-stamp request alone.
fn check_type(head: Head<'_>, action: Action) -> Result<(), Refusal>
    requires { IsInPlace head }
    ensures { result ≡ typed (head_view head.entry) action }
{
    if action.is_stamp() {
        stated_query(head)
    } else {
        Ok(())
    }
}

/// What a head asks for at whose target the methods do this, if it has a route, or the first check of it that fails.
#[tactic(auto, unfolding(crate::specs::Checks::wanted_at))]
fn check_head(head: Head<'_>, methods: Option<Methods>) -> Result<Wanted, Refusal>
    requires { IsInPlace head }
    ensures value { result_by wanted_view result ≡ wanted_at (head_view head.entry) methods }
    ensures few { IfOk result (λ wanted. wanted.count ≤ most_body) }
{
    check_coding(head)?;
    let Some(methods) = methods else {
        return Err(Refusal::NoRoute);
    };
    let Some(action) = methods.action(head.method) else {
        return Err(Refusal::Method(methods));
    };
    let count = body_length(head)?;
    check_type(head, action)?;
    Ok(Wanted { action, count })
}

/// What a head asks for, or the first check of it that fails.
pub(crate) fn wanted_by(routes: &Routes, head: Head<'_>) -> Result<Wanted, Refusal>
    requires { IsInPlace head }
    ensures value { result_by wanted_view result ≡ wanted_by (head_view head.entry) }
    ensures few { IfOk result (λ wanted. wanted.count ≤ most_body) }
{
    check_head(head, routes.methods_at(head.target))
}
