//! What is done to the history of the database at a path.
ghost use Rattle.std.specs.Prelude.{◌≡◌, IfErr, IfOk, OnErr, Result};
ghost use Rattle.book.specs.{declared.fault.StoreFault.StoreFault as SpecFault, declared.standing.Standing.Ghosts};
ghost use Rattle.operations.specs.{DatabaseFaults.IsOpeningFault, OverFiles.IsDoneOver};

use crate::database::{Database, DatabaseFiles, OpenDatabase};
use book::{Book, StoreFault};
use std::alloc::Global;

/// What is done to a history, however the book is kept. Input and output are what it reads from and writes to; `()`
/// where it does neither.
pub(crate) trait Operation<I, O>: Drop {
    /// What it answers.
    type Answer;

    // what input and output are before it and after it, and what it answers
    ghost answers: { Self → I → I → O → O → Self.Answer → Type 0 };

    // by what is known of a book: how it moves the book, what input and output are before it and after it, and what it
    // answers
    ghost moves: { (B : Type 0) → Ghosts B → Self → B → B → I → I → O → O → Self.Answer → Type 0 };

    /// Does it, and gives the book back.
    fn perform<B: Book + Drop>(
        self,
        alloc: Global,
        book: B,
        input: &mut I,
        output: &mut O,
    ) -> (B, Self::Answer)
        ensures answered { answers self input.old input.new output.old output.new result.1 }
        ensures moved { moves B B.Standing self book result.0 input.old input.new output.old output.new result.1 };
}

/// Does it to the history that the database keeps. Refused with `Memory`, with `Database` where no file
/// stands there or it can't be read or written, and with `NotOurs` where it isn't a database of the counter's: that is
/// left as it is. Nothing is done then.
///
/// This function alone opens one, and hands it on by one call: what names a store over the machine's files is dear to
/// prove.
pub(crate) fn perform_at<F: DatabaseFiles, I, O, T: Operation<I, O>>(
    alloc: Global,
    database: Database<'_, F>,
    operation: T,
    input: &mut I,
    output: &mut O,
) -> Result<T::Answer, StoreFault>
    ensures answered { IfOk result (T.answers operation input.old input.new output.old output.new) }

    // Whatever the files hold: the store that was opened over them is moved, in its own words, and what that left is
    // closed.
    ensures moved { IfOk result (λ answer. IsDoneOver F.Disk.Disk F.held (λ g opened left.
        T.moves _ g operation opened left input.old input.new output.old output.new answer)) }
    ensures refused { IfErr result (F.refuses database.entry.files database.entry.path.now) }
    ensures unread { OnErr result (input.new ≡ input.old) }
    ensures unwritten { OnErr result (output.new ≡ output.old) }
    ensures refusals { IfErr result IsOpeningFault }
{
    let store = database.files.open(database.path)?;
    Ok(perform_and_close(alloc, store, operation, input, output))
}

/// Does it to the history of a database that was opened, and closes that.
fn perform_and_close<B: OpenDatabase, I, O, T: Operation<I, O>>(
    alloc: Global,
    opened: B,
    operation: T,
    input: &mut I,
    output: &mut O,
) -> T::Answer
    ensures answered { T.answers operation input.old input.new output.old output.new result }

    // It is moved in the operation's own words, and what that left is closed.
    ensures moved { (left : B) × T.moves _ B.Standing operation opened left input.old input.new output.old output.new
        result × ((done : Result B.Left SpecFault) × B.closes left done) }
{
    let (left, answer) = operation.perform(alloc, opened, input, output);
    // What was committed stays in the log where it can't be copied into the file.
    let _closed = left.close_database();
    answer
}
