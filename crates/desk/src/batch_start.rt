//! Stamps that are answered together, up to the one commit of their reservations.
ghost use Rattle.std.specs.Prelude.{◌≡◌, ◌≤◌, ◌<◌, ◌+◌, [], map, length, IfOk, IfErr, OnErr, vec_capacity, vec_len};
ghost use Rattle.book.specs.{Entries.entries_view, Fault.IsOfStorage, History.Reserved};
ghost use Rattle.desk.specs.Outcome.{Call, Fine, Outcome, Refusal};
ghost use Rattle.desk.specs.auxiliary.Verdicts.{verdict_of, Settled, JudgesEach, JudgesOne};
ghost use Rattle.desk.specs.{Calls.settings_view, Commits.call_for, Commits.IsCommitted, auxiliary.Halves.AreBegun};
ghost use Rattle.desk.specs.{auxiliary.Halves.HasRoom, Effects.rule_by as rule_for, Together.question_view};
ghost use Rattle.desk.specs.{Together.questions_view, auxiliary.Verdicts.IsKept, WaitingStamps.waiting_view};

use crate::batch::Asked;
use crate::commit::commit;
use crate::fault::Fault;
use crate::pending_batch::{PendingBatch, empty_batch};
use crate::refusal::{StampRefusal, rule_by};
use crate::settings::Settings;
use crate::stamp_start::judge_one;
use crate::waiting_stamp::{WaitingStamp, reservation_of};
use book::{Book, Entry, StoreFault};
use std::alloc::Global;
use tsp::Rule;

/// Puts a stamp that was judged behind those before it.
fn keep<'p, 'a>(
    judged: Result<WaitingStamp<'p, 'a>, StampRefusal>,
    verdicts: &mut Vec<Option<Rule>>,
    waits: &mut Vec<WaitingStamp<'p, 'a>>,
)
    requires room_for_verdict { vec_len verdicts.old < vec_capacity verdicts.old }
    requires room_for_wait { vec_len waits.old < vec_capacity waits.old }
    ensures kept { IsKept (verdict_of judged.entry) verdicts.old.items verdicts.new.items waits.old.items
        waits.new.items }
    ensures one_verdict { vec_len verdicts.new ≡ vec_len verdicts.old + 1 }
    ensures few_waits { vec_len waits.new ≤ vec_len waits.old + 1 }
    ensures room_for_verdicts { vec_capacity verdicts.new ≡ vec_capacity verdicts.old }
    ensures room_for_waits { vec_capacity waits.new ≡ vec_capacity waits.old }
{
    match judged {
        Ok(waiting) => {
            verdicts.push_reserved(None);
            waits.push_reserved(waiting);
        }
        Err(refusal) => verdicts.push_reserved(Some(rule_by(refusal))),
    }
}

/// Judges each stamp in turn: a rule that it fails, or none, where it waits. The caller has taken the room for both
/// lists.
fn judge_each<'p, 'a, B: Book + Drop>(
    store: &mut B,
    alloc: Global,
    settings: Settings<'p>,
    asked: &[Asked<'a>],
    verdicts: &mut Vec<Option<Rule>>,
    waits: &mut Vec<WaitingStamp<'p, 'a>>,
)
    requires none_judged { verdicts.old.items ≡ [] }
    requires none_waits { waits.old.items ≡ [] }
    requires verdicts_room { length asked.now ≤ vec_capacity verdicts.old }
    requires waits_room { length asked.now ≤ vec_capacity waits.old }
    ensures judges { JudgesEach B.Standing (settings_view settings.entry) (questions_view asked.now)
        verdicts.new.items waits.new.items store.old store.new }
    ensures many { length verdicts.new.items ≡ length asked.now }
    ensures few { length waits.new.items ≤ length asked.now }
{
    for question in asked {
        let judged = judge_one(store, alloc, settings, waits, *question);
        keep(judged, verdicts, waits);
    }
}

/// The reservations of what waits, as entries. Refused where memory wants.
fn entries_of<'w>(
    alloc: Global,
    waits: &'w [WaitingStamp<'_, '_>],
) -> Result<Vec<Entry<'w>>, StoreFault>
    ensures entries { IfOk result (λ entries. entries_view entries.items ≡ map Reserved (map waiting_view waits.now)) }
    ensures refused { IfErr result (λ fault. fault ≡ StoreFault.Memory) }
{
    let Ok(mut entries) = Vec::with_capacity(alloc, waits.len()) else {
        return Err(StoreFault::Memory);
    };
    for waiting in waits {
        entries.push_reserved(Entry::Reserved(reservation_of(waiting)));
    }
    Ok(entries)
}

/// Reserves all that waits in one commit.
fn reserve_each<B: Book + Drop>(
    store: &mut B,
    alloc: Global,
    waits: &[WaitingStamp<'_, '_>],
) -> Result<(), StoreFault>
    ensures commits { IsCommitted B.Standing (map Reserved (map waiting_view waits.now)) store.old store.new
        (call_for result) }
    ensures refusals { IfErr result IsOfStorage }
{
    if waits.is_empty() {
        return Ok(());
    }
    let entries = entries_of(alloc, waits)?;
    commit(store, &entries)
}

/// The rule by which a stamp is rejected once its reservation was refused: one that it fails, or rule 12.
fn settle_one<B: Book + Drop>(
    store: &mut B,
    alloc: Global,
    settings: Settings<'_>,
    asked: Asked<'_>,
) -> Rule
    ensures { (reserving : Call) → (reserving ≡ Fine → ⊥) → (why : Refusal) × (o : Outcome)
        × (result ≡ rule_for why) × JudgesOne B.Standing (settings_view settings.entry) (question_view asked.entry) []
        (Settled why o) store.old store.new }
{
    match judge_one(store, alloc, settings, &[], asked) {
        Ok(_waiting) => Rule::System,
        Err(refusal) => rule_by(refusal),
    }
}

/// Judges each stamp anew once the commit of the reservations was refused: none waits. The caller has taken the room.
fn settle_each<B: Book + Drop>(
    store: &mut B,
    alloc: Global,
    settings: Settings<'_>,
    asked: &[Asked<'_>],
    verdicts: &mut Vec<Option<Rule>>,
)
    requires verdicts_room { length asked.now ≤ vec_capacity verdicts.old }
    ensures judges { (reserving : Call) → (reserving ≡ Fine → ⊥) → JudgesEach B.Standing
        (settings_view settings.entry) (questions_view asked.now) verdicts.new.items [] store.old
        store.new }
    ensures many { length verdicts.new.items ≡ length asked.now }
{
    verdicts.truncate(0);
    for question in asked {
        verdicts.push_reserved(Some(settle_one(store, alloc, settings, *question)));
    }
}

/// Begins stamps together: each is judged by the history with the reservations of those before it, and all that no rule
/// refuses are reserved in one commit, their texts written before it. Where that commit is refused, none waits. Room
/// for all that is written until they are answered is taken first: where it is refused, nothing is done.
pub(crate) fn begin_each<'p, 'a, B: Book + Drop>(
    store: &mut B,
    alloc: Global,
    settings: Settings<'p>,
    asked: &[Asked<'a>],
) -> Result<PendingBatch<'p, 'a>, Fault>
    ensures honest { B.honest store.new → B.honest store.old }
    ensures memory { IfErr result (λ fault. fault ≡ Fault.Memory) }
    ensures unmoved { OnErr result (store.new ≡ store.old) }
    ensures begins { IfOk result (λ pending. AreBegun B.Standing (settings_view settings.entry)
        (questions_view asked.now) pending.verdicts.items pending.waits.items store.old store.new) }
    ensures keeps { IfOk result (λ pending. pending.settings ≡ settings.entry) }
    ensures room { IfOk result HasRoom }
    ensures few { IfOk result (λ pending. length pending.waits.items ≤ length asked.now) }
{
    let PendingBatch {
        settings: _,
        mut verdicts,
        mut waits,
        written,
        replies,
    } = empty_batch(alloc, settings, asked.len())?;
    judge_each(store, alloc, settings, asked, &mut verdicts, &mut waits);
    if reserve_each(store, alloc, &waits).is_err() {
        settle_each(store, alloc, settings, asked, &mut verdicts);
        waits.clear();
    }
    Ok(PendingBatch {
        settings,
        verdicts,
        waits,
        written,
        replies,
    })
}
