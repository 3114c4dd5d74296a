//! How a stamp that the database at a path keeps is explained.
ghost use Rattle.std.specs.Prelude.{◌⊎◌, IfErr, IfOk, option_map};
ghost use Rattle.policy.specs.View.{policy_view};
ghost use Rattle.book.specs.{Fault.IsOfStorage, History.History, Stands.OnlyLooks, Stands.Stands};
ghost use Rattle.operations.specs.DatabaseFaults.{IsOpeningFault};
ghost use Rattle.operations.specs.Explanations.{Explains, IsExplainedOver, IsExplanationOf, IsLookedAtOver};

use crate::database::{Database, DatabaseFiles};
use crate::kept::kept_before;
use crate::operation::{Operation, perform_at};
use book::{Book, StoreFault};
use policy::Policy;
use std::alloc::Global;

/// Which stamp is explained, and by which policy file.
#[derive(Clone, Copy)]
struct Explanation<'a> {
    policy: &'a Policy,
    serial: u64,
}

impl Operation<(), ()> for Explanation<'_> {
    type Answer = Result<Option<Vec<u8>>, StoreFault>;

    ghost answers = { λ _ _ _ _ _ done. IfErr done IsOfStorage };

    ghost moves = { λ _ g wanted old new _ _ _ _ done. IfOk done (λ found. IsExplanationOf g
        (policy_view wanted.policy.now) wanted.serial (option_map (λ text. text.items) found) old new)
        × IfErr done (λ _. OnlyLooks g old new) };

    fn perform<B: Book + Drop>(
        self,
        alloc: Global,
        book: B,
        _input: &mut (),
        _output: &mut (),
    ) -> (B, Result<Option<Vec<u8>>, StoreFault>) {
        let mut book = book;
        let done = explain_in(alloc, &mut book, self.policy, self.serial);
        (book, done)
    }
}

/// Explains the stamp with a serial number by a policy file, as `judgement::explain` does, with what the database keeps
/// and behind its stamps with lower numbers; `None` where no stamp has that number. Refused with `Memory`, with
/// `Database` where no file stands there or it can't be read, and with `NotOurs` where it isn't a database of the
/// counter's. Nothing changes.
pub fn explain<F: DatabaseFiles>(
    alloc: Global,
    database: Database<'_, F>,
    policy: &Policy,
    serial: u64,
) -> Result<Option<Vec<u8>>, StoreFault>
    // Whatever the files hold: the store that was opened over them is only looked at, and closed.
    ensures explained { IfOk result (λ found. IsExplainedOver F.Disk.Disk F.held (policy_view policy.now) serial
        (option_map (λ text. text.items) found)) }

    // Where it is refused, no store was opened, by that refusal, or it was only looked at.
    ensures refused { IfErr result (λ fault. F.refuses database.entry.files database.entry.path.now fault
        ⊎ IsLookedAtOver F.Disk.Disk F.held) }
    ensures refusals { IfErr result IsOpeningFault }
{
    let wanted = Explanation { policy, serial };
    perform_at(alloc, database, wanted, &mut (), &mut ())?
}

/// Explains the stamp of a book with a serial number, if there is one.
fn explain_in<B: Book>(
    alloc: Global,
    book: &mut B,
    policy: &Policy,
    serial: u64,
) -> Result<Option<Vec<u8>>, StoreFault>
    ensures looks { OnlyLooks B.Standing book.old book.new }
    ensures explained { B.honest book.new → (b : History) → Stands B.Standing b book.old → IfOk result (λ found.
        Explains (policy_view policy.now) serial b (option_map (λ text. text.items) found)) }
    ensures refusals { IfErr result IsOfStorage }
{
    let Some(stamp) = book.next_stamp(serial, serial)? else {
        return Ok(None);
    };
    let kept = kept_before(alloc, book, serial)?;
    let text = kept.explain(alloc, policy, &stamp)?;
    Ok(Some(text))
}
