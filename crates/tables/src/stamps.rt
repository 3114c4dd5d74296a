//! The table of stamps: the statements that change it, inside a transaction, and the look-ups.

ghost use Rattle.std.specs.Prelude.{◌≡◌, None};
ghost use Rattle.sqlite.specs.Held.{state};
ghost use Rattle.book.specs.{History.day_of, History.stamp_of, Values.reservation_view};
ghost use Rattle.tables.specs.Queries.{LooksUp, ShowsStamp, ShowsOrigin, ShowsLast, is_within};
ghost use Rattle.tables.specs.{Found.IsFoundAs, Found.IsLeastAs, Found.IsGreatestAs, auxiliary.Steps.with_stamp_alone};
ghost use Rattle.tables.specs.{Tables.with_token, Tables.is_stamp, Transaction.Carries};

use crate::base::Base;
use crate::fault::TableFault;
use crate::queries::{FromRow, number, octets, octets_or_none, text};
use crate::rows::{ColumnNumber, LastStamp, Origin, column};
use book::{DAY, Reservation, Stamp};
use sqlite::types::ValueRef;
use sqlite::{Alter, Error, Row, Transaction};

const INSERT_STAMP: &str =
    "INSERT INTO stamp (serial, account, day, gen, policy, algorithm, digest, request, tst) VALUES (?1, ?2, ?3, ?4, \
    ?5, ?6, ?7, ?8, ?9)";

const SET_TOKEN: &str = "UPDATE stamp SET token = ?2 WHERE serial = ?1";

const STAMP: &str =
    "SELECT serial, account, day, gen, policy, algorithm, digest, request, tst, token FROM stamp WHERE serial = ?1";

const ORIGIN: &str = "SELECT account, gen FROM stamp WHERE serial = ?1";

const NEXT_STAMP: &str =
    "SELECT serial, account, day, gen, policy, algorithm, digest, request, tst, token FROM stamp WHERE serial >= ?1 \
    AND serial <= ?2 ORDER BY serial LIMIT 1";

pub(crate) const LAST_STAMP: &str = "SELECT serial, gen FROM stamp ORDER BY serial DESC LIMIT 1";

/// The UTC day of a genTime, counted from 1970-01-01.
pub(crate) fn day_of(gen_time: u64) -> u64
    ensures { result ≡ day_of gen_time }
{
    gen_time / DAY
}

pub(crate) fn put_stamp<S: Alter>(
    tx: &mut Transaction<'_, S>,
    reservation: &Reservation<'_>,
) -> Result<usize, Error>
    ensures same_reference { tx.new.conn.ghost_name ≡ tx.old.conn.ghost_name }
    ensures carries { Carries (with_stamp_alone (stamp_of None (reservation_view reservation.now)))
        (state S.Store tx.old.conn.now) (state S.Store tx.new.conn.now) result }
{
    let serial = column(reservation.serial)?;
    let gen_time = column(reservation.gen_time)?;
    let day = column(day_of(reservation.gen_time))?;
    tx.execute(
        INSERT_STAMP,
        &[
            serial,
            ValueRef::Text(reservation.account.as_bytes()),
            day,
            gen_time,
            ValueRef::Blob(reservation.policy),
            ValueRef::Blob(reservation.algorithm),
            ValueRef::Blob(reservation.digest),
            ValueRef::Blob(reservation.request),
            ValueRef::Blob(reservation.tst),
        ],
    )
}

pub(crate) fn set_token<S: Alter>(
    tx: &mut Transaction<'_, S>,
    serial: u64,
    token: &[u8],
) -> Result<usize, Error>
    ensures same_reference { tx.new.conn.ghost_name ≡ tx.old.conn.ghost_name }
    ensures carries { Carries (with_token serial token.now) (state S.Store tx.old.conn.now)
        (state S.Store tx.new.conn.now) result }
{
    let serial = column(serial)?;
    tx.execute(SET_TOKEN, &[serial, ValueRef::Blob(token)])
}

impl FromRow for Stamp {
    ghost use Rattle.std.specs.Prelude.{◌≡◌};
    ghost use Rattle.tables.specs.{Queries.stamp_view, auxiliary.Shown.stamp_shown, Tables.StampRow};

    ghost shows = { λ row s. (x : StampRow) → row ≡ stamp_shown x → stamp_view s ≡ x };

    fn from_row(row: &Row) -> Result<Stamp, Error> {
        let serial = number(row, 0)?;
        let account = text(row, 1)?;
        let day = number(row, 2)?;
        let gen_time = number(row, 3)?;
        let policy = octets(row, 4)?;
        let algorithm = octets(row, 5)?;
        let digest = octets(row, 6)?;
        let request = octets(row, 7)?;
        let tst = octets(row, 8)?;
        let token = octets_or_none(row, 9)?;
        Ok(Stamp {
            serial,
            account,
            day,
            gen_time,
            policy,
            algorithm,
            digest,
            request,
            tst,
            token,
        })
    }
}

impl FromRow for Origin {
    ghost use Rattle.std.specs.Prelude.{◌≡◌};
    ghost use Rattle.tables.specs.{Queries.ShowsOrigin, auxiliary.Shown.origin_shown, Tables.StampRow};

    ghost shows = { λ row origin. (x : StampRow) → row ≡ origin_shown x → ShowsOrigin x origin };

    fn from_row(row: &Row) -> Result<Origin, Error> {
        let account = text(row, 0)?;
        let gen_time = number(row, 1)?;
        Ok(Origin { account, gen_time })
    }
}

impl FromRow for LastStamp {
    ghost use Rattle.std.specs.Prelude.{◌≡◌, pos};
    ghost use Rattle.sqlite_value.specs.{Order.column, declared.value.Value.TheVariants.Int};

    ghost shows = { λ row last. (column row 0 ≡ Int (pos last.serial)) × (column row 1 ≡ Int (pos last.gen_time)) };

    fn from_row(row: &Row) -> Result<LastStamp, Error> {
        let serial = number(row, 0)?;
        let gen_time = number(row, 1)?;
        Ok(LastStamp { serial, gen_time })
    }
}

impl<S: Alter + Drop> Base<S> {
    /// The stamp with the serial number.
    pub fn stamp(&mut self, serial: u64) -> Result<Option<Stamp>, TableFault>
        ensures { LooksUp S.Store (λ t found. IsFoundAs ShowsStamp (is_stamp serial) t.stamps found)
            self.old self.new result }
    {
        self.first_at(STAMP, serial)
    }

    /// The account and the genTime of the stamp with the serial number.
    pub fn origin(&mut self, serial: u64) -> Result<Option<Origin>, TableFault>
        ensures { LooksUp S.Store (λ t found. IsFoundAs ShowsOrigin (is_stamp serial) t.stamps found)
            self.old self.new result }
    {
        self.first_at(ORIGIN, serial)
    }

    /// The stamp with the least serial number from `from` on and up to `to`.
    pub fn next_stamp(
        &mut self,
        from: ColumnNumber,
        to: ColumnNumber,
    ) -> Result<Option<Stamp>, TableFault>
        ensures { LooksUp S.Store (λ t found. IsLeastAs ShowsStamp (λ row. row.serial) (is_within from.value to.value)
            t.stamps found) self.old self.new result }
    {
        self.first_as(NEXT_STAMP, &[from.cell(), to.cell()])
    }

    /// The stamp with the greatest serial number.
    pub fn greatest_stamp(&mut self) -> Result<Option<LastStamp>, TableFault>
        ensures { LooksUp S.Store (λ t last. IsGreatestAs ShowsLast (λ row. row.serial) t.stamps last)
            self.old self.new result }
    {
        self.first_as(LAST_STAMP, &[])
    }
}
