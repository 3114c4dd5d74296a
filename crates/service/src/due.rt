//! What is due to a request.
use crate::head::Head;
use crate::refusal::Refusal;
use crate::routes::Action;

/// What is due to a request, by the octets that came of it.
#[derive(Clone, Copy)]
pub(crate) enum Due<'r> {
    /// The input ended before any octet: nothing.
    Nothing,
    /// It is refused.
    Refusal(Refusal),
    /// It is whole: what it asks for, by that head and that body.
    Answer(Action, Head<'r>, &'r [u8]),
}
