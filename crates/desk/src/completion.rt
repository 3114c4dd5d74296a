//! Stamps of a batch from their signatures on: all that were signed are sealed in one commit, and each is answered.
ghost use Rattle.std.specs.Prelude.{◌≡◌, ◌≤◌, ◌<◌, ◌+◌, [], length, map, IfOk, IfErr};
ghost use Rattle.std.specs.{Prelude.option_map, Prelude.vec_len, Prelude.vec_capacity, List.AllByRecursion};
ghost use Rattle.book.specs.{Entries.entries_view, Fault.IsOfStorage};
ghost use Rattle.cms.specs.Signer.{signed_by, IsSized};
ghost use Rattle.desk.specs.Commits.{call_for, if_accepted, IsCommitted};
ghost use Rattle.desk.specs.auxiliary.Completions.{seal_view, AreWritten, IsWrittenMore};
ghost use Rattle.desk.specs.auxiliary.Verdicts.{merged, reply_for};
ghost use Rattle.desk.specs.{Answers.reply_as, Batches.seal_entry, Calls.settings_view, auxiliary.Halves.AreFinished};
ghost use Rattle.desk.specs.{auxiliary.Halves.HasRoom, WaitingStamps.pending_in, WaitingStamps.pendings_in};

use crate::commit::commit;
use crate::pending_batch::PendingBatch;
use crate::reply::Reply;
use crate::settings::Settings;
use crate::stamp_end::no_answer;
use crate::unsigned_token::{Written, write};
use crate::waiting_stamp::WaitingStamp;
use book::{Book, Entry, StoreFault};
use cms::SignerFault;
use std::alloc::Global;
use tsp::{Rejection, Rule};

/// A token that is to be sealed under its serial number.
#[derive(Drop)]
pub(crate) struct Seal {
    serial: u64,
    token: Vec<u8>,
}

/// What is written for the stamps of a batch: the tokens to be sealed, and a reply for each stamp.
#[derive(Drop)]
pub(crate) struct WrittenBatch {
    pub(crate) seals: Vec<Seal>,
    pub(crate) replies: Vec<Reply>,
}

/// Writes the token of a stamp, where it was signed, and its reply.
fn put(
    alloc: Global,
    settings: Settings<'_>,
    waiting: &WaitingStamp<'_, '_>,
    answer: &Result<Vec<u8>, SignerFault>,
    written: &mut WrittenBatch,
)
    requires sized { IsSized answer.now }
    requires room_for_seal { vec_len written.old.seals < vec_capacity written.old.seals }
    requires room_for_reply { vec_len written.old.replies < vec_capacity written.old.replies }
    ensures written { IsWrittenMore (pending_in (settings_view settings.entry) waiting.now) (signed_by answer.now)
        (map seal_view written.old.seals.items) (map reply_as written.old.replies.items)
        (map seal_view written.new.seals.items) (map reply_as written.new.replies.items) }
    ensures seals { vec_len written.new.seals ≤ vec_len written.old.seals + 1 }
    ensures replies { vec_len written.new.replies ≡ vec_len written.old.replies + 1 }
    ensures room_for_seals { vec_capacity written.new.seals ≡ vec_capacity written.old.seals }
    ensures room_for_replies { vec_capacity written.new.replies ≡ vec_capacity written.old.replies }
{
    let unsigned = &waiting.unsigned;
    let Ok(signature) = answer else {
        written.replies.push_reserved(no_answer());
        return;
    };
    match write(
        alloc,
        settings.identity,
        settings.algorithm,
        unsigned,
        signature,
    ) {
        Some(
            Written {
                serial,
                token,
                bytes,
            },
        ) => {
            written.seals.push_reserved(Seal { serial, token });
            written
                .replies
                .push_reserved(Reply::Granted { serial, bytes });
        }
        None => written.replies.push_reserved(no_answer()),
    }
}

/// Writes the tokens of all stamps that were signed, and a reply for each stamp. The caller has taken the room for both
/// lists.
fn write_each(
    alloc: Global,
    settings: Settings<'_>,
    waits: &[WaitingStamp<'_, '_>],
    answers: &[Result<Vec<u8>, SignerFault>],
    written: &mut WrittenBatch,
)
    requires as_many { length answers.now ≡ length waits.now }
    requires sized { AllByRecursion IsSized answers.now }
    requires no_seal { written.old.seals.items ≡ [] }
    requires no_reply { written.old.replies.items ≡ [] }
    requires room_for_seals { length waits.now ≤ vec_capacity written.old.seals }
    requires room_for_replies { length waits.now ≤ vec_capacity written.old.replies }
    ensures written { AreWritten (pendings_in (settings_view settings.entry) waits.now)
        (map signed_by answers.now) (map seal_view written.new.seals.items) (map reply_as written.new.replies.items) }
    ensures few_seals { vec_len written.new.seals ≤ length waits.now }
{
    for (index, waiting) in waits.iter().enumerate() {
        put(alloc, settings, waiting, &answers[index], written);
    }
}

/// The entries of these seals. Refused where memory wants.
fn entries_of<'w>(alloc: Global, seals: &'w [Seal]) -> Result<Vec<Entry<'w>>, StoreFault>
    ensures entries { IfOk result (λ entries. entries_view entries.items
        ≡ map seal_entry (map seal_view seals.now)) }
    ensures refused { IfErr result (λ fault. fault ≡ StoreFault.Memory) }
{
    let Ok(mut entries) = Vec::with_capacity(alloc, seals.len()) else {
        return Err(StoreFault::Memory);
    };
    for seal in seals {
        entries.push_reserved(Entry::Sealed {
            serial: seal.serial,
            token: &seal.token,
        });
    }
    Ok(entries)
}

/// Seals all tokens in one commit.
fn seal_each<B: Book + Drop>(store: &mut B, alloc: Global, seals: &[Seal]) -> Result<(), StoreFault>
    ensures commits { IsCommitted B.Standing (map seal_entry (map seal_view seals.now)) store.old store.new
        (call_for result) }
    ensures refusals { IfErr result IsOfStorage }
{
    if seals.is_empty() {
        return Ok(());
    }
    let entries = entries_of(alloc, seals)?;
    commit(store, &entries)
}

/// The reply to a stamp: the rejection by the rule that it fails, or what came of it, where it waited.
fn reply_of(verdict: Option<Rule>, completion: Option<Reply>) -> Reply
    ensures { reply_as result ≡ reply_for verdict (option_map reply_as completion) }
{
    match verdict {
        Some(rule) => Reply::Rejected(Rejection::of(rule)),
        None => match completion {
            Some(reply) => reply,
            None => no_answer(),
        },
    }
}

/// The replies in the order of the stamps: the rejection by the rule that one fails, or the next of those that waited.
/// The caller has taken the room for them.
fn merge(verdicts: &[Option<Rule>], completed: Vec<Reply>, replies: &mut Vec<Reply>)
    requires empty { replies.old.items ≡ [] }
    requires room { length verdicts.now ≤ vec_capacity replies.old }
    ensures { map reply_as replies.new.items ≡ merged verdicts.now (map reply_as completed.items) }
{
    let mut rest = completed.into_iter();
    for verdict in verdicts {
        let completion = match *verdict {
            Some(_) => None,
            None => rest.next(),
        };
        replies.push_reserved(reply_of(*verdict, completion));
    }
}

/// The replies to the stamps that waited, where their tokens are sealed, and else none.
fn told_by(sealed: Result<(), StoreFault>, written: WrittenBatch) -> Vec<Reply>
    requires storage { IfErr sealed IsOfStorage }
    ensures { map reply_as result.items ≡ if_accepted (call_for sealed) (map reply_as written.replies.items) }
{
    let WrittenBatch { seals: _, replies } = written;
    let mut told = replies;
    if sealed.is_err() {
        told.clear();
    }
    told
}

/// Finishes stamps that were begun together, by an answer of the signer for each that waits: tokens over the signatures
/// are sealed in one commit, and a reply for each stamp is answered, in their order. All that waited are rejected by
/// rule 12 where that commit is refused.
pub(crate) fn finish_each<B: Book + Drop>(
    store: &mut B,
    alloc: Global,
    pending: PendingBatch<'_, '_>,
    answers: &[Result<Vec<u8>, SignerFault>],
) -> Vec<Reply>
    requires as_many { length answers.now ≡ length pending.waits.items }
    requires sized { AllByRecursion IsSized answers.now }
    requires room { HasRoom pending }
    ensures honest { B.honest store.new → B.honest store.old }
    ensures finishes { AreFinished B.Standing (settings_view pending.entry.settings) pending.entry.verdicts.items
        pending.entry.waits.items (map signed_by answers.now) (map reply_as result.items) store.old store.new }
{
    let PendingBatch {
        settings,
        verdicts,
        waits,
        mut written,
        mut replies,
    } = pending;
    write_each(alloc, settings, &waits, answers, &mut written);
    let sealed = seal_each(store, alloc, &written.seals);
    merge(&verdicts, told_by(sealed, written), &mut replies);
    replies
}
