//! Commits of entries.
ghost use Rattle.std.specs.Prelude.{[], ◌∷◌, IfErr};
ghost use Rattle.book.specs.{Entries.entries_view, Entries.entry_view, Entries.Appends, Fault.IsOfStorage};
ghost use Rattle.desk.specs.Commits.{call_for, IsCommitted};

use book::{Book, Entry, StoreFault};

/// Adds these entries in one commit; none where there are none.
pub(crate) fn commit<B: Book + Drop>(store: &mut B, entries: &[Entry<'_>]) -> Result<(), StoreFault>
    ensures commits { IsCommitted B.Standing (entries_view entries.now) store.old store.new (call_for result) }
    ensures refusals { IfErr result IsOfStorage }
{
    if entries.is_empty() {
        return Ok(());
    }
    store.append(entries)
}

/// Adds an entry, in a commit of its own.
pub(crate) fn add<B: Book + Drop>(store: &mut B, added: Entry<'_>) -> Result<(), StoreFault>
    ensures appends { Appends B.Standing (entry_view added.entry ∷ []) store.old store.new result }
    ensures refusals { IfErr result IsOfStorage }
{
    store.append(&[added])
}
