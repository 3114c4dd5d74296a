//! Answers that are written.
ghost use Rattle.std.specs.Prelude.{◌≡◌, ◌≤◌, ◌++◌, length, option_map};
ghost use Rattle.http.specs.StatusCode.{reason_phrase};
ghost use Rattle.desk.specs.Shown.{deposited_as, done_as, shown_as};
ghost use Rattle.desk.specs.{Answers.answered, Answers.reply_as, Command.Command};
ghost use Rattle.service.specs.Answers.{answer_to, created, media_shown, phrase_of, refusal_answer, success};
ghost use Rattle.service.specs.Served.{SendsText, Sends, TellsFailure};
ghost use Rattle.service.specs.{Answers.unavailable, Routes.names_of, Views.added_answer};

use crate::answer::{Heading, Media, Occasion, head_text};
use crate::lists::number_line;
use crate::refusal::Refusal;
use crate::served::Served;
use crate::writes::write_both;
use audit::Output;
use book::StoreFault;
use desk::{Deposited, Fault, Reply};
use http::StatusCode;

/// Writes an answer's head and its body.
fn write_answer<W: Output>(writer: &mut W, status: StatusCode, head: &[u8], body: &[u8]) -> Served
    requires { length head.now ≤ 512 }
    ensures sent { SendsText W.contents writer.old writer.new status (head.now ++ body.now) result }
    ensures failed { TellsFailure (W.failures writer.old) (W.failures writer.new) result }
{
    let status = status.as_u16();
    let sent = write_both(writer, head, body);
    if sent < head.len() + body.len() {
        return Served::WriteFailed { status, sent };
    }
    Served::Answered(status)
}

/// Writes an answer. It takes no memory.
fn send<W: Output>(writer: &mut W, heading: Heading, body: &[u8]) -> Served
    requires { length (phrase_of (reason_phrase heading.status)) ≤ 40 }
    ensures sent { Sends W.contents heading.at.reading writer.old writer.new (record {
      status = heading.status;
      media = heading.media;
      allow = option_map names_of heading.allow;
      body = body.now;
    }) result }
    ensures failed { TellsFailure (W.failures writer.old) (W.failures writer.new) result }
{
    let status = heading.status;
    let head = head_text(heading, body.len());
    write_answer(writer, status, head.as_str().as_bytes(), body)
}

/// Writes an answer of a status that tells success.
fn tell<W: Output>(
    writer: &mut W,
    at: Occasion,
    status: StatusCode,
    media: Media,
    body: &[u8],
) -> Served
    requires { length (phrase_of (reason_phrase status)) ≤ 40 }
    ensures sent { Sends W.contents at.reading writer.old writer.new (success status media body.now) result }
    ensures failed { TellsFailure (W.failures writer.old) (W.failures writer.new) result }
{
    let heading = Heading {
        at,
        status,
        media,
        allow: None,
    };
    send(writer, heading, body)
}

/// Writes the answer that tells a refusal.
pub(crate) fn refuse<W: Output>(writer: &mut W, at: Occasion, refusal: Refusal) -> Served
    ensures sent { Sends W.contents at.reading writer.old writer.new (refusal_answer refusal) result }
    ensures failed { TellsFailure (W.failures writer.old) (W.failures writer.new) result }
{
    let heading = Heading {
        at,
        status: refusal.status(),
        media: Media::Text,
        allow: refusal.allowed(),
    };
    let body = refusal.body();
    send(writer, heading, body.as_str().as_bytes())
}

/// Writes the answer that the counter can't answer now.
pub(crate) fn out_of_memory<W: Output>(writer: &mut W, at: Occasion) -> Served
    ensures sent { Sends W.contents at.reading writer.old writer.new unavailable result }
    ensures failed { TellsFailure (W.failures writer.old) (W.failures writer.new) result }
{
    refuse(writer, at, Refusal::Unavailable)
}

/// Writes an answer of status 200.
pub(crate) fn succeed<W: Output>(writer: &mut W, at: Occasion, media: Media, body: &[u8]) -> Served
    ensures sent { Sends W.contents at.reading writer.old writer.new (success 200 media body.now) result }
    ensures failed { TellsFailure (W.failures writer.old) (W.failures writer.new) result }
{
    tell(writer, at, StatusCode::OK, media, body)
}

/// Writes the reply to a time-stamp request.
pub(crate) fn write_reply<W: Output>(writer: &mut W, at: Occasion, reply: &Reply) -> Served
    ensures sent { (c : Command) → Sends W.contents at.reading writer.old writer.new (answer_to c (reply_as reply.now))
        result }
    ensures failed { TellsFailure (W.failures writer.old) (W.failures writer.new) result }
{
    match reply {
        Reply::Granted { serial: _, bytes } => succeed(writer, at, Media::Reply, bytes),
        Reply::Rejected(rejection) => succeed(writer, at, Media::Reply, rejection.as_slice()),
    }
}

/// Writes the answer that something is created under a number.
fn create<W: Output>(writer: &mut W, at: Occasion, number: u64) -> Served
    ensures sent { Sends W.contents at.reading writer.old writer.new (created number) result }
    ensures failed { TellsFailure (W.failures writer.old) (W.failures writer.new) result }
{
    let line = number_line(number);
    let octets = line.as_str().as_bytes();
    tell(writer, at, StatusCode::CREATED, Media::Text, octets)
}

/// Writes the answer to a deposit: its number, or why it isn't taken.
pub(crate) fn write_deposited<W: Output>(
    writer: &mut W,
    at: Occasion,
    outcome: Result<Deposited, Fault>,
) -> Served
    ensures sent { (c : Command) → Sends W.contents at.reading writer.old writer.new
        (answer_to c (answered deposited_as outcome)) result }
    ensures failed { TellsFailure (W.failures writer.old) (W.failures writer.new) result }
{
    match outcome {
        Ok(deposited) if deposited.is_new => create(writer, at, deposited.number),
        Ok(deposited) => {
            let line = number_line(deposited.number);
            succeed(writer, at, Media::Text, line.as_str().as_bytes())
        }
        Err(fault) => refuse(writer, at, Refusal::from(fault)),
    }
}

/// Writes the answer that shows octets, or why they aren't shown.
pub(crate) fn write_shown<W: Output>(
    writer: &mut W,
    at: Occasion,
    media: Media,
    shown: Result<Vec<u8>, Fault>,
) -> Served
    ensures sent { (c : Command) → media ≡ media_shown c → Sends W.contents at.reading writer.old writer.new
        (answer_to c (answered shown_as shown)) result }
    ensures failed { TellsFailure (W.failures writer.old) (W.failures writer.new) result }
{
    match shown {
        Ok(octets) => succeed(writer, at, media, &octets),
        Err(fault) => refuse(writer, at, Refusal::from(fault)),
    }
}

/// Writes the answer where a right is given or taken, or why it isn't.
pub(crate) fn write_done<W: Output>(
    writer: &mut W,
    at: Occasion,
    outcome: Result<(), Fault>,
) -> Served
    ensures sent { (c : Command) → Sends W.contents at.reading writer.old writer.new
        (answer_to c (answered done_as outcome)) result }
    ensures failed { TellsFailure (W.failures writer.old) (W.failures writer.new) result }
{
    match outcome {
        Ok(()) => succeed(writer, at, Media::Text, b""),
        Err(fault) => refuse(writer, at, Refusal::from(fault)),
    }
}

/// Writes the answer where a calibration or a hold is added: its number, or why it isn't.
pub(crate) fn write_added<W: Output>(
    writer: &mut W,
    at: Occasion,
    outcome: Result<u64, StoreFault>,
) -> Served
    ensures sent { Sends W.contents at.reading writer.old writer.new (added_answer outcome) result }
    ensures failed { TellsFailure (W.failures writer.old) (W.failures writer.new) result }
{
    match outcome {
        Ok(number) => create(writer, at, number),
        Err(StoreFault::Backwards) => refuse(writer, at, Refusal::Backwards),
        Err(_) => out_of_memory(writer, at),
    }
}
