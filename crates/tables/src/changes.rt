//! What each entry changes, made inside a transaction, and the one commit.

ghost use Rattle.std.specs.Prelude.{◌≡◌, ◌<◌, false, length};
ghost use Rattle.sqlite.specs.Held.{state};
ghost use Rattle.book.specs.Entries.{entry_view, entries_view};
ghost use Rattle.tables.specs.{Changes.applied, Changes.applied_all, Transaction.Carries, Transaction.Commits};

use crate::calibrations::put_calibration;
use crate::deposits::put_deposit;
use crate::holds::put_hold;
use crate::identities::put_identity;
use crate::rights::{drop_right, put_right};
use crate::stamps::{day_of, put_stamp, set_token};
use crate::tallies::count_stamp;
use book::Entry;
use sqlite::{Alter, Connection, Error, Transaction};

/// Makes what an entry changes.
fn make<S: Alter>(tx: &mut Transaction<'_, S>, entry: &Entry<'_>) -> Result<usize, Error>
    ensures same_reference { tx.new.conn.ghost_name ≡ tx.old.conn.ghost_name }
    ensures carries { Carries (applied (entry_view entry.now)) (state S.Store tx.old.conn.now)
        (state S.Store tx.new.conn.now) result }
{
    match entry {
        Entry::Reserved(reservation) => {
            put_stamp(tx, reservation)?;
            count_stamp(tx, reservation.account, day_of(reservation.gen_time))
        }
        Entry::Sealed { serial, token } => set_token(tx, *serial, token),
        Entry::Deposited {
            serial,
            token,
            owner,
            reference,
            bytes,
        } => {
            set_token(tx, *serial, token)?;
            put_deposit(tx, *serial, owner, reference, bytes)
        }
        Entry::Calibrated(calibration) => put_calibration(tx, calibration),
        Entry::Held(hold) => put_hold(tx, hold),
        Entry::Granted { number, reader } => {
            drop_right(tx, *number, reader)?;
            put_right(tx, *number, reader)
        }
        Entry::Revoked { number, reader } => drop_right(tx, *number, reader),
        Entry::Installed { certificate, chain } => put_identity(tx, certificate, chain),
    }
}

/// Makes what each entry changes, in turn.
pub fn make_each<S: Alter>(tx: &mut Transaction<'_, S>, entries: &[Entry<'_>]) -> Result<(), Error>
    requires { 0 < length entries.now }
    ensures same_reference { tx.new.conn.ghost_name ≡ tx.old.conn.ghost_name }
    ensures carries { Carries (applied_all (entries_view entries.now)) (state S.Store tx.old.conn.now)
        (state S.Store tx.new.conn.now) result }
{
    for entry in entries {
        make(tx, entry)?;
    }
    Ok(())
}

/// Makes what each entry changes, in turn, in one commit.
pub fn commit_entries<S: Alter>(
    conn: &mut Connection<S>,
    entries: &[Entry<'_>],
) -> Result<(), Error>
    requires settled { conn.old.in_transaction ≡ false }
    requires some { 0 < length entries.now }
    ensures closed { conn.new.in_transaction ≡ false }
    ensures commits { Commits (applied_all (entries_view entries.now)) (state S.Store conn.old) (state S.Store conn.new)
        result }
{
    let mut tx = conn.transaction();
    make_each(&mut tx, entries)?;
    tx.commit()
}
