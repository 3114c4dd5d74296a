//! What a book keeps that a stamp is judged by.
ghost use Rattle.std.specs.Prelude.{◌≡◌, ◌⊎◌, ◌-◌, ◌++◌, ◌∷◌, [], List, IfOk, IfErr};
ghost use Rattle.book.specs.Fault.{CountsFaults, IsOfStorage};
ghost use Rattle.book.specs.{History.History, Rows.StampRow, Stands.OnlyLooks, Stands.Stands, Values.stamp_view};
ghost use Rattle.judgement.specs.Explanation.{IsExplanation};
ghost use Rattle.judgement.specs.{Judged.IsJudgedBehind, Past.IsPast, Readings.evidence_in, View.evidence_view};
ghost use Rattle.operations.specs.Kept.{IsKept, rows_before};
ghost use Rattle.policy.specs.View.{policy_view};

use crate::past::past_up_to;
use audit::ExtractFault;
use book::{Book, Calibration, Hold, IdentityRow, Stamp, StoreFault};
use judgement::{Evidence, Judgement, Past, explain, judge_behind};
use policy::Policy;
use std::alloc::Global;

/// What a book keeps of calibrations, holds and identities, and what the rows before a stamp say.
#[derive(Drop)]
pub(crate) struct Kept {
    /// All calibrations, in the order in which they were added.
    pub(crate) calibrations: Vec<Calibration>,
    /// All holds.
    pub(crate) holds: Vec<Hold>,
    /// All identities, by number.
    pub(crate) identities: Vec<IdentityRow>,
    /// What the rows before a stamp say of it.
    pub(crate) past: Past,
}

impl Kept {
    /// What a stamp is judged by, with the rules of a policy file.
    pub(crate) fn evidence<'a>(&'a self, policy: &'a Policy) -> Evidence<'a>
        ensures { (b : History) (rows : List StampRow) → IsKept b rows self.now
            → evidence_view result ≡ evidence_in (policy_view policy.now) b }
    {
        Evidence {
            policy,
            calibrations: self.calibrations.as_slice(),
            holds: self.holds.as_slice(),
            identities: self.identities.as_slice(),
        }
    }

    /// How the stamp that follows the rows is judged by the rules of a policy file; the stamp's is one of the rows from
    /// now on. Refused where memory runs out.
    pub(crate) fn judge_next(
        &mut self,
        policy: &Policy,
        stamp: &Stamp,
    ) -> Result<Option<Judgement>, ExtractFault>
        ensures judged { (b : History) (rows : List StampRow) → IsKept b rows self.old → IfOk result (λ judged.
            IsJudgedBehind (evidence_in (policy_view policy.now) b) rows (stamp_view stamp.now) judged
            × IsKept b (rows ++ stamp_view stamp.now ∷ []) self.new) }
        ensures identities { self.new.identities ≡ self.old.identities }
        ensures refusals { IfErr result (λ e. e ≡ ExtractFault.Memory) }
    {
        let judged = judge_behind(&self.evidence(policy), &self.past, stamp);
        self.past.add(stamp)?;
        Ok(judged)
    }

    /// Explains a stamp behind the rows, by a policy file. Refused where memory runs out.
    pub(crate) fn explain(
        &self,
        alloc: Global,
        policy: &Policy,
        stamp: &Stamp,
    ) -> Result<Vec<u8>, StoreFault>
        ensures explained { (b : History) (rows : List StampRow) → IsKept b rows self.now → IfOk result (λ text.
            IsExplanation (evidence_in (policy_view policy.now) b) rows (stamp_view stamp.now) text.items) }
        ensures refusals { IfErr result (λ fault. fault ≡ StoreFault.Memory) }
    {
        explain(alloc, &self.evidence(policy), &self.past, stamp).or(Err(StoreFault::Memory))
    }
}

/// What a book keeps that the stamp of a serial number is judged by, with the rows before it. Refused with `Memory` and
/// `Database`, where they are met. The book changes nowhere, and no row is kept.
pub(crate) fn kept_before<B: Book>(
    alloc: Global,
    book: &mut B,
    serial: u64,
) -> Result<Kept, StoreFault>
    ensures looks { OnlyLooks B.Standing book.old book.new }
    ensures value { B.honest book.new → (b : History) → Stands B.Standing b book.old
        → IfOk result (IsKept b (rows_before serial b)) }
    ensures refusals { IfErr result IsOfStorage }
    ensures faults { CountsFaults result (B.fault_count book.old) (B.fault_count book.new) }
{
    let calibrations = book.calibrations()?;
    let holds = book.holds()?;
    let identities = book.identities()?;
    let past = past_up_to(alloc, book, serial.saturating_sub(1))?;
    Ok(Kept {
        calibrations,
        holds,
        identities,
        past,
    })
}
