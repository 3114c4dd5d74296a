//! A stamp from its reservation on.
ghost use Rattle.std.specs.Prelude.{◌≡◌, ◌≤◌, Ok, Err, length, IfOk, IfErr};
ghost use Rattle.desk.specs.auxiliary.Kept.{keeping_view, kept_as};
ghost use Rattle.desk.specs.auxiliary.Wholes.{IsOfFinish, Ends, CompletesBegun};
ghost use Rattle.desk.specs.{Answers.reply_as, Answers.ended_as, Calls.outcome_of, Calls.why_of};
ghost use Rattle.desk.specs.{CallContract.with_signer, Command.Rejected, auxiliary.NewDeposit.FailsLate};
ghost use Rattle.tsp.specs.{Granted.granted_octets, declared.rule.Rule.TheVariants.System};

use crate::commit::add;
use crate::keeping::{Keeping, entry_with};
use crate::pending::Pending;
use crate::refusal::StampRefusal;
use crate::reply::Reply;
use crate::unsigned_token::{Written, write};
use book::Book;
use cms::Signer;
use std::alloc::Global;
use tsp::{Rejection, Rule};

/// The reply of rule 12.
pub(crate) fn no_answer() -> Reply
    ensures { reply_as result ≡ Rejected System }
{
    Reply::Rejected(Rejection::of(Rule::System))
}

/// Keeps the token over a signature: what is kept. All memory is taken before, that of the granted reply too.
pub(crate) fn finish_with<B: Book + Drop>(
    store: &mut B,
    alloc: Global,
    pending: Pending<'_>,
    signature: &[u8],
    keeping: Keeping<'_>,
) -> Result<Written, StampRefusal>
    requires some { 1 ≤ length signature.now }
    requires few { length signature.now ≤ 4096 }
    ensures honest { B.honest store.new → B.honest store.old }
    ensures refusals { IfErr result IsOfFinish }
    ensures granted { IfOk result (λ kept. kept.bytes.items ≡ granted_octets kept.token.items) }
    ensures ends { Ends B.Standing (keeping_view keeping.entry) pending.entry (Ok signature.now) (outcome_of result)
        store.old store.new (ended_as (kept_as (keeping_view keeping.entry)) result) }
{
    let Pending {
        unsigned,
        identity,
        algorithm,
    } = pending;
    let Some(written) = write(alloc, identity, algorithm, &unsigned, signature) else {
        return Err(StampRefusal::OutOfReplyMemory);
    };
    let entry = entry_with(keeping, written.serial, &written.token);
    add(store, entry).map_err(StampRefusal::Sealing)?;
    Ok(written)
}

/// Has the text of a reservation signed, where a stamp was begun, and keeps the token. Where the signer, memory or the
/// store refuses, the reservation stays void.
pub(crate) fn complete<B: Book + Drop, X: Signer>(
    store: &mut B,
    alloc: Global,
    begun: Result<Pending<'_>, StampRefusal>,
    keeping: Keeping<'_>,
    signer: &mut X,
) -> Result<Written, StampRefusal>
    ensures honest { B.honest store.new → B.honest store.old }
    ensures granted { IfOk result (λ kept. kept.bytes.items ≡ granted_octets kept.token.items) }
    ensures unmoved { IfErr begun.entry (λ r. (result ≡ Err r) × (store.new ≡ store.old) × (signer.new ≡ signer.old)) }
    ensures late { IfErr begun.entry (λ r. FailsLate (why_of r)) → IfErr result (λ r. FailsLate (why_of r)) }
    ensures completes { CompletesBegun B.Standing (with_signer X.signs X.fault_count signer.old signer.new)
        (keeping_view keeping.entry) begun.entry store.old store.new result }
{
    let pending = begun?;
    match signer.sign(pending.text()) {
        Ok(signature) => finish_with(store, alloc, pending, &signature, keeping),
        Err(fault) => {
            pending.abandon();
            Err(StampRefusal::Signing(fault))
        }
    }
}
