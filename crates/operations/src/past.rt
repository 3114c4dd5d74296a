//! What is known of the stamps before one.
ghost use Rattle.std.specs.Prelude.{◌≡◌, ◌++◌, [], ◌∷◌, List, IfErr, IfOk, OnOk};
ghost use Rattle.book.specs.{Fault.CountsFaults, Fault.IsOfStorage, History.History, History.stamps_between};
ghost use Rattle.book.specs.{Rows.StampRow, Stands.OnlyLooks, Stands.Stands, Values.stamp_view};
ghost use Rattle.judgement.specs.Past.{IsPast};

use book::{Book, Stamp, StoreFault};
use judgement::Past;
use std::alloc::Global;

/// What is known of the stamps up to a serial number, and of its own. Refused with `Memory` and `Database`.
pub(crate) fn past_up_to<B: Book>(
    alloc: Global,
    book: &mut B,
    last: u64,
) -> Result<Past, StoreFault>
    ensures looks { OnlyLooks B.Standing book.old book.new }
    ensures value { B.honest book.new → (b : History) → Stands B.Standing b book.old
        → IfOk result (IsPast (stamps_between 1 last b)) }
    ensures refusals { IfErr result IsOfStorage }
    ensures faults { CountsFaults result (B.fault_count book.old) (B.fault_count book.new) }
{
    let mut past = Past::new(alloc);
    let mut from = 1;
    while let Some(stamp) = book.next_stamp(from, last)? {
        add_row(&mut past, &stamp)?;
        from = stamp.serial + 1;
    }
    Ok(past)
}

/// Adds the row that follows. Refused with `Memory`.
fn add_row(past: &mut Past, stamp: &Stamp) -> Result<(), StoreFault>
    ensures added { (rows : List StampRow) → IsPast rows past.old
        → OnOk result (IsPast (rows ++ stamp_view stamp.now ∷ []) past.new) }
    ensures refusals { IfErr result (λ fault. fault ≡ StoreFault.Memory) }
{
    past.add(stamp).or(Err(StoreFault::Memory))
}
