//! The walk of a list, from one deposit that who asks sees to the next: by the least of several cursors, of those that
//! the account owns, those that it reads by its own name, and those that it reads in each of its groups.
ghost use Rattle.std.specs.Prelude.{◌≡◌, ◌<◌, ◌^◌, length, map, replicate, Some, IfOk, IfErr, IfSome, OnOk};
ghost use Rattle.std.specs.Prelude.{IsTrue};
ghost use Rattle.tables.specs.Base.{IsHonest};
ghost use Rattle.book.specs.Fault.{CountsFaults, IsOfStorage};
ghost use Rattle.book.specs.{History.History, Entries.reader_view, Values.viewer_of, Stands.Stands, Stands.OnlyLooks};
ghost use Rattle.store.specs.Stands.{over_tables};
ghost use Rattle.store.specs.auxiliary.Steps.{IsNextSeen, IsNextReadable, IsCursor, AreCursors, AreNextReadable};
ghost use Rattle.store.specs.auxiliary.Steps.{AreOwned, least_of, least_in, later_of};

use crate::labels::Owned;
use crate::store::Store;
use book::{GREATEST_NUMBER, Reader, StoreFault};
use sqlite::Alter;
use std::alloc::Global;

/// How far a list has gone through the rights. Each cursor is the first deposit after the last that was asked for, so
/// that a list goes through the rights of each reader once.
#[derive(Drop)]
pub(crate) struct Cursors {
    /// What the account reads by its own name.
    own: Option<u64>,
    /// What it reads in each of its groups.
    shared: Vec<Option<u64>>,
}

impl Cursors {
    /// Those of an account in so many groups, at the beginning: no deposit has the number 0.
    pub(crate) fn new(alloc: Global, count: usize) -> Result<Cursors, StoreFault>
        ensures own { IfOk result (λ cursors. cursors.own ≡ Some 0) }
        ensures shared { IfOk result (λ cursors. cursors.shared.items ≡ replicate count (Some 0)) }
        ensures memory { IfErr result (λ e. e ≡ StoreFault.Memory) }
    {
        let mut shared = Vec::new(alloc);
        for _ in 0..count {
            shared.push(Some(0))?;
        }
        Ok(Cursors {
            own: Some(0),
            shared,
        })
    }

    /// The least of them.
    fn least(&self) -> Option<u64>
        ensures { result ≡ least_in self.now.own self.now.shared.items }
    {
        let mut least = self.own;
        for number in self.shared.iter() {
            least = lesser(least, *number);
        }
        least
    }
}

impl<S: Alter + Drop> Store<S> {
    /// The first deposit after a number that the account sees, as its owner, or as a reader, by its own name or in one
    /// of the groups.
    pub(crate) fn next_seen(
        &mut self,
        account: &str,
        groups: &[&str],
        after: u64,
        cursors: &mut Cursors,
        known: &mut Vec<Owned>,
    ) -> Result<Option<u64>, StoreFault>
        requires { length cursors.old.shared.items ≡ length groups.now }
        ensures looks { OnlyLooks (over_tables S.Store) self.old self.new }
        ensures sized { length cursors.new.shared.items ≡ length cursors.old.shared.items }
        ensures known { IsHonest S.Store self.new → (b : History) → Stands (over_tables S.Store) b self.old
            → AreOwned b known.old.items → OnOk result (AreOwned b known.new.items) }
        ensures value { IsHonest S.Store self.new → (b : History) → Stands (over_tables S.Store) b self.old
            → AreCursors (viewer_of account.now (map (λ name. name.now) groups.now)) after b
            cursors.old.own cursors.old.shared.items → AreOwned b known.old.items
            → IfOk result (λ next. IsNextSeen (viewer_of account.now (map (λ name. name.now) groups.now)) after b next
            × AreNextReadable (viewer_of account.now (map (λ name. name.now) groups.now)) after b
            cursors.new.own cursors.new.shared.items) }
        ensures rises { IfOk result (λ next. IfSome next (λ number. (after < number) × (number < 2 ^ 63))) }
        ensures refusals { IfErr result IsOfStorage }
        ensures faults { CountsFaults result self.old.faults self.new.faults }
    {
        let owned = self.next_owned(account, after, known)?;
        self.advance(account, groups, after, cursors)?;
        Ok(next_of(owned, cursors.least(), after))
    }

    /// Moves each cursor that isn't after a number to the first deposit after it.
    fn advance(
        &mut self,
        account: &str,
        groups: &[&str],
        after: u64,
        cursors: &mut Cursors,
    ) -> Result<(), StoreFault>
        requires { length cursors.old.shared.items ≡ length groups.now }
        ensures looks { OnlyLooks (over_tables S.Store) self.old self.new }
        ensures sized { length cursors.new.shared.items ≡ length cursors.old.shared.items }
        ensures value { IsHonest S.Store self.new → (b : History) → Stands (over_tables S.Store) b self.old
            → AreCursors (viewer_of account.now (map (λ name. name.now) groups.now)) after b
            cursors.old.own cursors.old.shared.items
            → OnOk result (AreNextReadable (viewer_of account.now (map (λ name. name.now) groups.now)) after b
            cursors.new.own cursors.new.shared.items) }
        ensures refusals { IfErr result IsOfStorage }
        ensures faults { CountsFaults result self.old.faults self.new.faults }
    {
        cursors.own = self.next_right(Reader::Account(account), after, cursors.own)?;
        for (i, name) in groups.iter().enumerate() {
            cursors.shared[i] = self.next_right(Reader::Group(name), after, cursors.shared[i])?;
        }
        Ok(())
    }

    /// The first deposit after a number that the reader reads.
    fn next_right(
        &mut self,
        reader: Reader<'_>,
        after: u64,
        found: Option<u64>,
    ) -> Result<Option<u64>, StoreFault>
        ensures looks { OnlyLooks (over_tables S.Store) self.old self.new }
        ensures value { IsHonest S.Store self.new → (b : History) → Stands (over_tables S.Store) b self.old
            → IsCursor (reader_view reader.entry) after b found
            → IfOk result (λ next. IsNextReadable (reader_view reader.entry) after b next) }
        ensures refusals { IfErr result IsOfStorage }
        ensures faults { CountsFaults result self.old.faults self.new.faults }
    {
        if is_after(found, after) {
            return Ok(found);
        }
        let next = self.base.next_readable(reader, after)?;
        Ok(next)
    }
}

/// Whether there is none, or it is after a number.
fn is_after(found: Option<u64>, after: u64) -> bool
    ensures { IsTrue result → IfSome found (λ n. after < n) }
{
    match found {
        Some(number) => number > after,
        None => true,
    }
}

/// The lesser of what is there.
fn lesser(one: Option<u64>, other: Option<u64>) -> Option<u64>
    ensures { result ≡ least_of one other }
{
    match (one, other) {
        (Some(n), Some(m)) => Some(n.min(m)),
        (Some(n), None) => Some(n),
        (None, other) => other,
    }
}

/// The lesser of two numbers, where it is after a third. What a database tells is taken for the next number only where
/// it is one, so that a walk ends whatever it tells.
fn next_of(owned: Option<u64>, readable: Option<u64>, after: u64) -> Option<u64>
    ensures next { result ≡ later_of after (least_of owned readable) }
    ensures rises { IfSome result (λ number. (after < number) × (number < 2 ^ 63)) }
{
    match lesser(owned, readable) {
        Some(n) if n > after && n <= GREATEST_NUMBER => Some(n),
        _ => None,
    }
}
