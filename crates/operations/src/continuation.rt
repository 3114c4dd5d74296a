//! How the history of a database goes on in a new one.
ghost use Rattle.std.specs.Prelude.{◌≡◌, ◌⊎◌, reverse, map, option_map, Err, IfOk, IfErr, IsOk, OnOk};
ghost use Rattle.std.specs.{Prelude.Ok, List.list_any};
ghost use Rattle.book.specs.{Continuation.closed, Continuation.holds_all, Fault.IsOfStorage, History.History};
ghost use Rattle.book.specs.{History.holds, Stands.OnlyLooks, Stands.Stands, Values.hold_view, Values.stamp_view};
ghost use Rattle.operations.specs.Continuation.{BeginsOnlyIf, Carries, Closes, IsAskedFor, IsBelow, IsCarried};
ghost use Rattle.operations.specs.Continuation.{IsLookFault, entries_of, last_stamp_of};
ghost use Rattle.operations.specs.DatabaseFaults.{IsOpeningFault};
ghost use Rattle.operations.specs.OverFiles.{IsContinuedOver, IsDoneOver, IsMadeOver, IsRefusedBy};

use crate::carried::{Carried, holds_all};
use crate::database::{Database, DatabaseFiles, make_at};
use crate::fault::ContinuationFault;
use crate::operation::{Operation, perform_at};
use crate::void_stamp::{Floor, void_for};
use book::{Book, Entry, Hold, Stamp, StoreFault, continuations_go_on, identities_tell_who_signed};
use desk::void_stamps_are_stated;
use std::alloc::Global;

const ALL_MOMENTS: Hold = Hold {
    from: 0,
    to: i64::MAX,
};

/// Has the history that the database at a path keeps go on in a new one at another path.
///
/// The old one is closed for tokens by a hold of all moments, unless it has one. The new one is made where no file
/// stands, an empty one, or a database without tables, with its first entries in one commit: the latest calibration,
/// the other holds, and the last stamp with its token, behind its identity and before a later one. Where a floor is
/// asked for, a void stamp comes in place of the last one, for its request, under the floor's serial number and
/// genTime.
///
/// Refused with `Unopened`, where nothing was done; with `Unclosed` or `NotAfter`, where the old one was only looked
/// at; and with `Unfinished`, where it is closed or as it was: then the same can be asked for again. Each but
/// `NotAfter` has the database's refusal: `Memory`; `Database` where no file stands at the old path, none can be made
/// at the new one, or one of both can't be read or written; `NotOurs` where the old one isn't a database of the
/// counter's, or something else stands at the new path, such a database too, which is left as it is. The old path's
/// refusal is told first, then `NotAfter`, then the new path's.
pub fn continue_in<F: DatabaseFiles, N: DatabaseFiles>(
    alloc: Global,
    old: Database<'_, F>,
    new: Database<'_, N>,
    floor: Option<Floor>,
) -> Result<(), ContinuationFault>
    // Whatever the files hold: the store that was opened over the old ones is closed for tokens, and goes on in one
    // over the new.
    ensures continued { OnOk result (IsContinuedOver F.Disk.Disk F.held
        N.Disk.Disk floor) }

    // By the refusal, what was done to the old ones.
    ensures refused { IfErr result (IsRefusedBy F.Disk.Disk F.held
        (F.refuses old.entry.files old.entry.path.now) floor) }

    // The old one is closed only where the new path was found free.
    ensures free { BeginsOnlyIf (N.is_free new.entry.files new.entry.path.now) result }
{
    continuations_go_on();
    identities_tell_who_signed();
    void_stamps_are_stated();
    let room = new.files.may_make(new.path);
    let carried = close_at(alloc, old, BookEnd { floor, room })?;
    match make_from(alloc, new, &carried) {
        Ok(()) => Ok(()),
        Err(fault) => Err(ContinuationFault::Unfinished(fault)),
    }
}

/// What closes a history for tokens, and answers what is carried on from it.
#[derive(Clone, Copy)]
struct BookEnd {
    /// Above what it goes on.
    floor: Option<Floor>,
    /// Whether there is room for the new one.
    room: Result<(), StoreFault>,
}

impl Operation<(), ()> for BookEnd {
    type Answer = Result<Carried, ContinuationFault>;

    ghost answers = { λ closing _ _ _ _ done. BeginsOnlyIf (IsOk closing.room) done };

    ghost moves = { λ _ g closing old new _ _ _ _ done. IfErr closing.room IsOpeningFault
        → Carries g closing.floor old new done };

    fn perform<B: Book + Drop>(
        self,
        alloc: Global,
        book: B,
        _input: &mut (),
        _output: &mut (),
    ) -> (B, Result<Carried, ContinuationFault>) {
        let mut book = book;
        let carried = carry(alloc, &mut book, self);
        (book, carried)
    }
}

/// Closes the history of a database for tokens, and answers what is carried on from it.
fn close_at<F: DatabaseFiles>(
    alloc: Global,
    database: Database<'_, F>,
    closing: BookEnd,
) -> Result<Carried, ContinuationFault>
    requires { IfErr closing.room IsOpeningFault }
    ensures closed { IfOk result (λ carried. IsDoneOver F.Disk.Disk F.held (λ g opened left.
        Carries g closing.floor opened left (Ok carried))) }
    ensures refused { IfErr result (IsRefusedBy F.Disk.Disk F.held
        (F.refuses database.entry.files database.entry.path.now) closing.floor) }
    ensures room { BeginsOnlyIf (IsOk closing.room) result }
{
    match perform_at(alloc, database, closing, &mut (), &mut ()) {
        Ok(done) => done,
        Err(fault) => Err(ContinuationFault::Unopened(fault)),
    }
}

/// Looks up what is carried on from a book, and closes it for tokens, where there is room for the new one.
fn carry<B: Book>(
    alloc: Global,
    book: &mut B,
    closing: BookEnd,
) -> Result<Carried, ContinuationFault>
    ensures done { IfErr closing.room IsOpeningFault → Carries B.Standing closing.floor book.old book.new result }
    ensures room { BeginsOnlyIf (IsOk closing.room) result }
{
    let carried = look_up(alloc, book, closing.floor)?;
    closing.room?;
    match close_for_tokens(book, carried.holds.as_slice()) {
        Ok(()) => Ok(carried),
        Err(refused) => Err(ContinuationFault::Unfinished(refused)),
    }
}

/// Looks up what is carried on from a book, above what is asked for.
fn look_up<B: Book>(
    alloc: Global,
    book: &mut B,
    floor: Option<Floor>,
) -> Result<Carried, ContinuationFault>
    ensures looks { OnlyLooks B.Standing book.old book.new }
    ensures settled { B.honest book.new → (left : B.Left) → B.leaves book.new left → (b : History)
        → Stands B.Standing b book.old → OnOk result (B.holds left b) }
    ensures value { B.honest book.new → (b : History) → Stands B.Standing b book.old
        → IfOk result (λ carried. IsCarried carried b) }
    ensures asked { IfOk result (IsAskedFor floor) }
    ensures none { result ≡ Err ContinuationFault.NotAfter → B.honest book.new → (b : History)
        → Stands B.Standing b book.old → IsBelow floor b }
    ensures refusals { IfErr result IsLookFault }
{
    let calibration = book.calibration()?;
    let holds = book.holds()?;
    let stamp = last_stamp(book)?;
    let identities = book.identities()?;
    let void = void_for(alloc, floor, stamp.as_ref())?;
    Ok(Carried {
        calibration,
        holds,
        stamp,
        identities,
        void,
    })
}

fn last_stamp<B: Book>(book: &mut B) -> Result<Option<Stamp>, StoreFault>
    ensures looks { OnlyLooks B.Standing book.old book.new }
    ensures value { B.honest book.new → (b : History) → Stands B.Standing b book.old
        → IfOk result (λ stamp. option_map stamp_view stamp ≡ last_stamp_of b) }
    ensures refusals { IfErr result IsOfStorage }
{
    let last = book.last()?;
    book.next_stamp(last.serial, last.serial)
}

/// Adds a hold of all moments to a book with these holds, unless there is one.
fn close_for_tokens<B: Book>(book: &mut B, held: &[Hold]) -> Result<(), StoreFault>
    ensures closes { Closes B.Standing (λ b. map hold_view held.now ≡ reverse (holds b)) book.old book.new result }

    // Where what a stop could leave before held the history, what it leaves now holds it closed.
    ensures settled { B.honest book.new → (left : B.Left) → B.leaves book.new left → (b : History)
        → Stands B.Standing b book.old → map hold_view held.now ≡ reverse (holds b)
        → (B.leaves book.old left → B.holds left b) → OnOk result (B.holds left (closed b)) }
    ensures refusals { IfErr result IsOfStorage }
{
    if is_closed(held) {
        return Ok(());
    }
    book.append(&[Entry::Held(ALL_MOMENTS)])
}

/// Whether one of the holds has all moments.
fn is_closed(held: &[Hold]) -> bool
    ensures { result ≡ list_any holds_all (map hold_view held.now) }
{
    held.iter().any(|hold| holds_all(hold))
}

/// Makes the new database, with the entries of what is carried on, and closes it.
fn make_from<N: DatabaseFiles>(
    alloc: Global,
    new: Database<'_, N>,
    carried: &Carried,
) -> Result<(), StoreFault>
    ensures made { OnOk result (IsMadeOver N.Disk.Disk (entries_of carried.now)) }

    // It is refused for want of memory over the entries, or by the making.
    ensures refused { IfErr result (λ fault. (fault ≡ StoreFault.Memory)
        ⊎ N.refuses_making new.entry.files new.entry.path.now fault) }
    ensures refusals { IfErr result IsOpeningFault }
{
    match carried.entries(alloc) {
        Ok(entries) => make_at(new, entries.as_slice()),
        Err(_) => Err(StoreFault::Memory),
    }
}
