//! The stamps of a range, one after the other.
ghost use Rattle.std.specs.Prelude.{◌≡◌, IfSome};
ghost use Rattle.book.specs.Ranges.{IsWithin};
ghost use Rattle.store.specs.auxiliary.Steps.{only_within};

use crate::store::Store;
use book::{Stamp, StampsBetween};
use sqlite::Alter;

impl<S: Alter + Drop> Store<S> {
    /// The stamps with serial numbers from `from` on and up to `to`, one at a time. Takes no memory, and asks the
    /// database for none yet.
    pub fn stamps_between(&mut self, from: u64, to: u64) -> StampsBetween<'_, Store<S>>
        ensures same_reference { result.book.ghost_name ≡ self.entry.ghost_name }
        ensures begun { result.book.now ≡ self.old }
        ensures from { result.from ≡ from }
        ensures to { result.to ≡ to }
    {
        StampsBetween::of(self, from, to)
    }
}

/// A stamp, where its serial number is in the range: so a walk ends whatever a database tells.
pub(crate) fn only_within(found: Option<Stamp>, from: u64, to: u64) -> Option<Stamp>
    ensures same { result ≡ only_within from to found }
    ensures within { IfSome result (λ stamp. IsWithin from to stamp.serial) }
{
    match found {
        Some(stamp) if from <= stamp.serial && stamp.serial <= to => Some(stamp),
        _ => None,
    }
}
