//! The texts of answers (RFC 9112 4 and 6). None but a body takes memory.
ghost use Rattle.std.specs.Prelude.{◌≡◌, ◌+◌, ◌≤◌, ◌++◌, length, Option, option_map};
ghost use Rattle.std.specs.Fmt.{decimal};
ghost use Rattle.http.specs.StatusCode.{reason_phrase};
ghost use Rattle.arrayvec.specs.ArrayString.{array_string_len};
ghost use Rattle.service.specs.Answers.{phrase_of, media_type, status_line, content_lines, allow_line, head_text};
ghost use Rattle.service.specs.Routes.{and_name, names_of};

use crate::routes::{Action, Methods};
use arrayvec::ArrayString;
use http::StatusCode;
use itoa::Buffer;

/// A text on the stack: the head of an answer, a number, or what a refusal says. All of these have fewer octets.
pub(crate) type ShortText = ArrayString<512>;

/// The type of a body.
#[derive(Clone, Copy)]
pub enum Media {
    /// The reply to a time-stamp request.
    Reply,
    /// The octets of a deposit.
    Octets,
    /// Text.
    Text,
    /// Comma-separated values.
    Csv,
}

impl Media {
    /// Its name.
    fn name(self) -> &'static str
        ensures value { result.now ≡ media_type self }
        ensures short { length result.now ≤ 40 }
    {
        match self {
            Media::Reply => "application/timestamp-reply",
            Media::Octets => "application/octet-stream",
            Media::Text => "text/plain",
            Media::Csv => "text/csv",
        }
    }
}

/// When an answer is given. It is at hand for the lines of its head; none tells it.
#[derive(Clone, Copy)]
pub(crate) struct Occasion {
    /// The clock's reading, in microseconds.
    pub(crate) reading: i64,
}

/// What the head of an answer tells, beside the length of its body.
#[derive(Clone, Copy)]
pub(crate) struct Heading {
    pub(crate) at: Occasion,
    pub(crate) status: StatusCode,
    pub(crate) media: Media,
    /// What methods do at the target, where it tells that.
    pub(crate) allow: Option<Methods>,
}

/// The phrase of a status.
fn phrase(status: StatusCode) -> &'static str
    ensures { result.now ≡ phrase_of (reason_phrase status) }
{
    status.canonical_reason().unwrap_or("")
}

/// Appends a number in decimal digits.
pub(crate) fn push_number(text: &mut ShortText, number: u64)
    requires { array_string_len text.old + 40 ≤ 512 }
    ensures bytes { text.new.bytes ≡ text.old.bytes ++ decimal number }
    ensures len { array_string_len text.new ≤ array_string_len text.old + 40 }
{
    let mut digits = Buffer::new();
    text.push_str(digits.format(number));
}

/// Appends the line with an answer's status.
fn push_status(text: &mut ShortText, status: StatusCode)
    requires room { array_string_len text.old + 92 ≤ 512 }
    requires short { length (phrase_of (reason_phrase status)) ≤ 40 }
    ensures bytes { text.new.bytes ≡ text.old.bytes ++ status_line status }
    ensures len { array_string_len text.new ≤ array_string_len text.old + 92 }
{
    text.push_str("HTTP/1.1 ");
    push_number(text, u64::from(status.as_u16()));
    text.push_str(" ");
    text.push_str(phrase(status));
    text.push_str("\r\n");
}

/// Appends the lines on a body of that type and so many octets.
fn push_content(text: &mut ShortText, media: Media, count: usize)
    requires { array_string_len text.old + 114 ≤ 512 }
    ensures bytes { text.new.bytes ≡ text.old.bytes ++ content_lines media count }
    ensures len { array_string_len text.new ≤ array_string_len text.old + 114 }
{
    text.push_str("Content-Type: ");
    text.push_str(media.name());
    text.push_str("\r\n");
    text.push_str("Content-Length: ");
    push_number(text, count as u64);
    text.push_str("\r\n");
}

/// Appends the name of a method that does something, with a comma before it where there are names.
fn push_name(names: &mut ShortText, name: &str, action: Option<Action>)
    requires { array_string_len names.old + 2 + length name.now ≤ 512 }
    ensures bytes { names.new.bytes ≡ and_name names.old.bytes name.now action }
    ensures len { array_string_len names.new ≤ array_string_len names.old + 2 + length name.now }
{
    if action.is_none() {
        return;
    }
    if !names.is_empty() {
        names.push_str(", ");
    }
    names.push_str(name);
}

/// The names of the methods that do something (RFC 9110 10.2.1).
fn method_names(methods: Methods) -> ShortText
    ensures bytes { result.bytes ≡ names_of methods }
    ensures short { array_string_len result ≤ 40 }
{
    let mut names = ArrayString::new();
    push_name(&mut names, "GET", methods.get);
    push_name(&mut names, "POST", methods.post);
    push_name(&mut names, "PUT", methods.put);
    push_name(&mut names, "DELETE", methods.delete);
    names
}

/// Appends the line on the methods that do something at a target, where it is asked for.
fn push_allow(text: &mut ShortText, allow: Option<Methods>)
    requires { array_string_len text.old + 49 ≤ 512 }
    ensures bytes { text.new.bytes ≡ text.old.bytes ++ allow_line (option_map names_of allow) }
    ensures len { array_string_len text.new ≤ array_string_len text.old + 49 }
{
    if let Some(methods) = allow {
        let names = method_names(methods);
        text.push_str("Allow: ");
        text.push_str(names.as_str());
        text.push_str("\r\n");
    }
}

/// All that stands before a body of so many octets.
#[tactic(auto, unfolding(crate::specs::Answers::head_text))]
pub(crate) fn head_text(heading: Heading, count: usize) -> ShortText
    requires { length (phrase_of (reason_phrase heading.status)) ≤ 40 }
    ensures value { result.bytes
        ≡ head_text heading.at.reading heading.status heading.media (option_map names_of heading.allow) count }
    ensures short { array_string_len result ≤ 512 }
{
    let mut text = ArrayString::new();
    push_status(&mut text, heading.status);
    push_content(&mut text, heading.media, count);
    push_allow(&mut text, heading.allow);
    text.push_str("Connection: close\r\n\r\n");
    text
}
