//! The stamps of a range, one after the other.
ghost use Rattle.std.specs.Prelude.{◌≡◌, ◌+◌, None, IfOk, IfErr, IfSome, MatchResult};
ghost use Rattle.book.specs.{History.History, History.stamps_between, Fault.CountsFaults, Fault.IsOfStorage};
ghost use Rattle.book.specs.{Stands.Stands, Stands.OnlyLooks, Ranges.HandsOut, Ranges.IsWithin};

use crate::book::Book;
use crate::fault::StoreFault;
use crate::rows::Stamp;

/// A walk over the stamps of a range, by serial number, those that never got their token too. It borrows the book
/// until it is dropped, and keeps none of them; the book changes nowhere.
#[derive(Drop)]
pub struct StampsBetween<'book, B: Book> {
    book: &'book mut B,
    /// The least serial number that may still come.
    from: u64,
    /// The greatest.
    to: u64,
}

impl<'book, B: Book> StampsBetween<'book, B> {
    /// The stamps with serial numbers from `from` on and up to `to`, one at a time. Takes no memory, and asks the book
    /// for none yet.
    pub fn of(book: &'book mut B, from: u64, to: u64) -> StampsBetween<'book, B>
        ensures same_reference { result.book.ghost_name ≡ book.entry.ghost_name }
        ensures begun { result.book.now ≡ book.old }
        ensures from { result.from ≡ from }
        ensures to { result.to ≡ to }
    {
        StampsBetween { book, from, to }
    }

    /// The stamp with the least serial number of those that are left, or none where none is left. Refused with `Memory`
    /// or `Database`; the same are left then, and the next call goes on with them.
    pub fn next(&mut self) -> Result<Option<Stamp>, StoreFault>
        ensures same_reference { self.new.book.ghost_name ≡ self.old.book.ghost_name }
        ensures looks { OnlyLooks B.Standing self.old.book.now self.new.book.now }
        ensures opened { B.honest self.new.book.now
            → IfOk result (λ found. IfSome found (λ _. B.is_open self.old.book.now)) }
        ensures value { B.honest self.new.book.now → (b : History) → Stands B.Standing b self.old.book.now
            → IfOk result (HandsOut (stamps_between self.old.from self.old.to b)
            (stamps_between self.new.from self.new.to b)) }
        ensures onwards { IfOk result (λ found. IfSome found (λ stamp.
            IsWithin self.old.from self.old.to stamp.serial × (self.new.from ≡ stamp.serial + 1))) }
        ensures end { self.new.to ≡ self.old.to }
        ensures still { MatchResult result (λ found. found ≡ None → self.new.from ≡ self.old.from)
            (λ _. self.new.from ≡ self.old.from) }
        ensures refusals { IfErr result IsOfStorage }
        ensures faults { CountsFaults result (B.fault_count self.old.book.now) (B.fault_count self.new.book.now) }
    {
        let found = self.book.next_stamp(self.from, self.to)?;
        if let Some(stamp) = &found {
            self.from = stamp.serial + 1;
        }
        Ok(found)
    }
}
