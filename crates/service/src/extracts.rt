//! Extracts for auditors, written row by row. Their length is found first, by a walk of its own over the same stamps.
ghost use Rattle.std.specs.Prelude.{◌≡◌, ◌⊎◌};
ghost use Rattle.policy.specs.View.{account_view, policy_view};
ghost use Rattle.audit.specs.Inquiries.{Allows};
ghost use Rattle.book.specs.{History.History, Stands.OnlyLooks, Stands.Stands};
ghost use Rattle.service.specs.auxiliary.ExtractAnswers.{SendingFails, SendsExtract, ServesExtract};
ghost use Rattle.service.specs.Served.{TellsExtractFailure, TellsFailure};

use crate::answer::{Heading, Media, head_text};
use crate::context::Context;
use crate::refusal::Refusal;
use crate::responses::refuse;
use crate::served::Served;
use audit::{ExtractFault, Inquiry, Output, extract_length, write_extract, write_octets};
use book::Book;
use desk::Desk;
use http::StatusCode;

/// Writes the answer with an extract that is found to have so many octets; none of it where they and the head's are
/// 2^64 or more.
fn send_extract<W: Output, B: Book + Drop>(
    context: &Context<'_>,
    writer: &mut W,
    store: &mut B,
    inquiry: &Inquiry<'_>,
    length: u64,
) -> Served
    ensures looks { OnlyLooks B.Standing store.old store.new }
    ensures sent { SendsExtract B.Standing W.contents context.now.at.reading writer.old writer.new store.old store.new
        inquiry.now.from inquiry.now.to length result }
    ensures failed { Allows inquiry.now → SendingFails B.Standing context.now.at.reading store.old store.new
        inquiry.now.from inquiry.now.to length (W.failures writer.old) (W.failures writer.new) result }
{
    let count = length as usize;
    let heading = Heading {
        at: context.at,
        status: StatusCode::OK,
        media: Media::Csv,
        allow: None,
    };
    let head = head_text(heading, count);
    let status = StatusCode::OK.as_u16();
    let most = usize::MAX - head.len();
    if most < count {
        return Served::WriteFailed { status, sent: 0 };
    }
    let of_head = write_octets(writer, head.as_str().as_bytes());
    if of_head < head.len() {
        return Served::WriteFailed {
            status,
            sent: of_head,
        };
    }
    let written = write_extract(context.alloc, store, inquiry, length, writer);
    if written.octets < length {
        return Served::WriteFailed {
            status,
            sent: head.len() + written.octets as usize,
        };
    }
    Served::Answered(status)
}

/// Answers an auditor who asks for the stamps with serial numbers from one on and up to another. Where the writer's
/// time is up before their length is found, nothing is written.
pub(crate) fn serve_extract<W: Output, B: Book + Drop>(
    context: &Context<'_>,
    writer: &mut W,
    desk: &mut Desk<'_, B>,
    inquiry: &Inquiry<'_>,
) -> Served
    ensures setting { desk.new.setting ≡ desk.old.setting }
    ensures looks { OnlyLooks B.Standing desk.old.store desk.new.store }
    ensures served { ServesExtract B.Standing W.contents context.now.at.reading writer.old writer.new desk.old.store
        desk.new.store (policy_view inquiry.now.policy.now) (account_view inquiry.now.account.now) inquiry.now.from
        inquiry.now.to result }
    ensures failed { TellsFailure (W.failures writer.old) (W.failures writer.new) result
        ⊎ (Allows inquiry.now × (B.honest desk.new.store → (b : History) → Stands B.Standing b desk.old.store
        → TellsExtractFailure context.now.at.reading inquiry.now.from inquiry.now.to b
        (B.fault_count desk.old.store) (B.fault_count desk.new.store) (W.failures writer.old) (W.failures writer.new)
        result)) }
{
    match extract_length(context.alloc, desk.store(), inquiry, writer) {
        Ok(length) => send_extract(context, writer, desk.store(), inquiry, length),
        Err(ExtractFault::Write) => Served::WriteFailed {
            status: StatusCode::OK.as_u16(),
            sent: 0,
        },
        Err(fault) => refuse(writer, context.at, Refusal::from(fault)),
    }
}
