//! Queries, asked inside a transaction that goes on, or each in one of its own that is undone.
ghost use Rattle.std.specs.Prelude.{◌≡◌, ◌≢◌, ◌<◌, ◌^◌, ◌∷◌, [], ℕ, pos, false, length, IfOk, IfErr, IfSome, OnOk};
ghost use Rattle.std.specs.{Prelude.IsTrue, Prelude.string_bytes, Prelude.option_map, Prelude.is_some, List.slice_get};
ghost use Rattle.sqlite_value.specs.declared.value.Value.TheVariants.{Int, Text, Blob};
ghost use Rattle.sqlite_value.specs.{Value.owned, Order.column};
ghost use Rattle.sqlite.specs.{Held.state, State.HasCleanDisk, Values.bound};
ghost use Rattle.tables.specs.QueryAnswers.{IsQueryText, IsPlainIn, Answers, TellsRows, TellsNumber, Looks};
ghost use Rattle.tables.specs.Queries.{LooksUp, TellsRow, TellsAs, TellsAll, TellsAllAs};
ghost use Rattle.tables.specs.{Layout.token_cell, Versions.IsUnanswered, Schema.the_schema, QueryAnswers.AreReadAs};
ghost use Rattle.tables.specs.{QueryAnswers.AsksInside, Transaction.Carries, Changes.IsCounted};

use crate::base::Base;
use crate::fault::TableFault;
use crate::rows;
use sqlite::types::ValueRef;
use sqlite::{Alter, Connection, Error, ErrorCode, Row, Transaction};
use std::alloc::Global;

/// What a row can be read as.
pub(crate) trait FromRow {
    // which rows show a value
    ghost shows: { Row → Self → Type 0 };

    ghost use Rattle.std.specs.Prelude.{IfOk};
    ghost use Rattle.sqlite_value.specs.Order.{Row};

    /// The value of a row.
    fn from_row(row: &Row) -> Result<Self, Error>
        ensures { IfOk result (λ value. shows row.now value) };
}

/// The rows that a query answers, inside a transaction.
fn rows_in<S: Alter>(
    tx: &mut Transaction<'_, S>,
    sql: &str,
    params: &[ValueRef<'_>],
) -> Result<Vec<Row>, Error>
    ensures same_reference { tx.new.conn.ghost_name ≡ tx.old.conn.ghost_name }
    ensures asks { AsksInside (state S.Store tx.old.conn.now) (state S.Store tx.new.conn.now) result }
    ensures carries { IsQueryText sql.now
        → Carries (λ t. t) (state S.Store tx.old.conn.now) (state S.Store tx.new.conn.now) result }
    ensures told { IsQueryText sql.now → HasCleanDisk (state S.Store tx.new.conn.now)
        → (state S.Store tx.old.conn.now).now.schema ≡ the_schema → IfOk result (λ rows.
        TellsRows sql.now (bound params.now) (state S.Store tx.old.conn.now).now.trees rows.items) }
    ensures answered { HasCleanDisk (state S.Store tx.new.conn.now)
        → IsPlainIn (state S.Store tx.old.conn.now).now.schema sql.now
        → IfOk result (λ rows. Answers sql.now (bound params.now) (state S.Store tx.old.conn.now).now rows.items) }
    ensures unanswered { HasCleanDisk (state S.Store tx.new.conn.now)
        → IsPlainIn (state S.Store tx.old.conn.now).now.schema sql.now
        → IfErr result (λ e. e ≢ Error.SqliteFailure ErrorCode.OutOfMemory
        → IsUnanswered sql.now (bound params.now) (state S.Store tx.old.conn.now) (state S.Store tx.new.conn.now)) }
{
    tx.query_all(sql, params)
}

/// The number that the first row that a query answers begins with, inside a transaction; 0 where there is no row.
pub(crate) fn number_in<S: Alter>(tx: &mut Transaction<'_, S>, sql: &str) -> Result<u64, Error>
    requires { IsQueryText sql.now }
    ensures same_reference { tx.new.conn.ghost_name ≡ tx.old.conn.ghost_name }
    ensures carries { Carries (λ t. t) (state S.Store tx.old.conn.now) (state S.Store tx.new.conn.now) result }
    ensures told { HasCleanDisk (state S.Store tx.new.conn.now)
        → (state S.Store tx.old.conn.now).now.schema ≡ the_schema
        → IfOk result (TellsNumber sql.now (state S.Store tx.old.conn.now).now.trees) }
    ensures small { IfOk result (λ n. n < 2 ^ 63) }
{
    let rows = rows_in(tx, sql, &[])?;
    match first_of(rows) {
        Some(row) => number(&row, 0),
        None => Ok(0),
    }
}

/// The rows that a query answers.
pub(crate) fn rows_of<S: Alter>(
    conn: &mut Connection<S>,
    sql: &str,
    params: &[ValueRef<'_>],
) -> Result<Vec<Row>, Error>
    requires { conn.old.in_transaction ≡ false }
    ensures closed { conn.new.in_transaction ≡ false }
    ensures looks { Looks (state S.Store conn.old) (state S.Store conn.new) }
    ensures opened { HasCleanDisk (state S.Store conn.new) → OnOk result (IsTrue (state S.Store conn.old).is_open) }
    ensures told { IsQueryText sql.now → HasCleanDisk (state S.Store conn.new)
        → (state S.Store conn.old).now.schema ≡ the_schema
        → IfOk result (λ rows. TellsRows sql.now (bound params.now) (state S.Store conn.old).now.trees rows.items) }
    ensures answered { HasCleanDisk (state S.Store conn.new) → IsPlainIn (state S.Store conn.old).now.schema sql.now
        → IfOk result (λ rows. Answers sql.now (bound params.now) (state S.Store conn.old).now rows.items) }
    ensures unanswered { HasCleanDisk (state S.Store conn.new) → IsPlainIn (state S.Store conn.old).now.schema sql.now
        → IfErr result (λ e. e ≢ Error.SqliteFailure ErrorCode.OutOfMemory
        → IsUnanswered sql.now (bound params.now) (state S.Store conn.old) (state S.Store conn.new)) }
{
    let mut tx = conn.transaction();
    let rows = rows_in(&mut tx, sql, params);
    tx.rollback();
    rows
}

/// The first of the rows, if any.
fn first_of(mut rows: Vec<Row>) -> Option<Row>
    ensures { slice_get rows.items 0 ≡ result }
{
    if rows.is_empty() {
        return None;
    }
    Some(rows.swap_remove(0))
}

impl<S: Alter + Drop> Base<S> {
    /// The first row that a query answers, if any.
    fn first_row(&mut self, sql: &str, params: &[ValueRef<'_>]) -> Result<Option<Row>, TableFault>
        ensures { LooksUp S.Store (TellsRow sql.now (bound params.now)) self.old self.new result }
    {
        match rows_of(&mut self.conn, sql, params) {
            Ok(rows) => Ok(first_of(rows)),
            Err(error) => Err(self.fault(error)),
        }
    }

    /// Whether a query answers a row.
    pub(crate) fn any_row(&mut self, sql: &str, params: &[ValueRef<'_>]) -> Result<bool, TableFault>
        ensures { LooksUp S.Store (λ t any. (row : _) × TellsRow sql.now (bound params.now) t row × (any ≡ is_some row))
            self.old self.new result }
    {
        let found = self.first_row(sql, params)?;
        Ok(found.is_some())
    }

    /// The rows that a query answers.
    fn rows(&mut self, sql: &str, params: &[ValueRef<'_>]) -> Result<Vec<Row>, TableFault>
        ensures { LooksUp S.Store (λ t rows. TellsAll sql.now (bound params.now) t rows.items) self.old self.new
            result }
    {
        match rows_of(&mut self.conn, sql, params) {
            Ok(rows) => Ok(rows),
            Err(error) => Err(self.fault(error)),
        }
    }

    /// What each row that a query answers is read as.
    pub(crate) fn all_as<R: FromRow + Drop>(
        &mut self,
        alloc: Global,
        sql: &str,
        params: &[ValueRef<'_>],
    ) -> Result<Vec<R>, TableFault>
        ensures { LooksUp S.Store (λ t found. TellsAllAs R.shows sql.now (bound params.now) t found.items)
            self.old self.new result }
    {
        let rows = self.rows(sql, params)?;
        match read_all(alloc, &rows) {
            Ok(values) => Ok(values),
            Err(error) => Err(self.fault(error)),
        }
    }

    /// What the first row that a query answers is read as, if there is a row.
    pub(crate) fn first_as<R: FromRow>(
        &mut self,
        sql: &str,
        params: &[ValueRef<'_>],
    ) -> Result<Option<R>, TableFault>
        ensures { LooksUp S.Store (TellsAs R.shows sql.now (bound params.now)) self.old self.new result }
    {
        let Some(row) = self.first_row(sql, params)? else {
            return Ok(None);
        };
        match R::from_row(&row) {
            Ok(value) => Ok(Some(value)),
            Err(error) => Err(self.fault(error)),
        }
    }

    /// The same of a query about a number.
    pub(crate) fn first_at<R: FromRow>(
        &mut self,
        sql: &str,
        number: u64,
    ) -> Result<Option<R>, TableFault>
        ensures { LooksUp S.Store (TellsAs R.shows sql.now (Int (pos number) ∷ [])) self.old self.new result }
    {
        let number = self.column(number)?;
        self.first_as(sql, &[number])
    }

    /// The number that the first row that a query answers begins with, if there is a row.
    pub(crate) fn first_number(
        &mut self,
        sql: &str,
        params: &[ValueRef<'_>],
    ) -> Result<Option<u64>, TableFault>
        ensures looks { LooksUp S.Store (TellsAs (λ row n. column row 0 ≡ Int (pos n)) sql.now (bound params.now))
            self.old self.new result }
        ensures small { IfOk result (λ found. IfSome found (λ n. n < 2 ^ 63)) }
    {
        let Some(row) = self.first_row(sql, params)? else {
            return Ok(None);
        };
        match number(&row, 0) {
            Ok(number) => Ok(Some(number)),
            Err(error) => Err(self.fault(error)),
        }
    }

    /// A number as a column of INTEGER has it. Where none can it is a fault.
    pub(crate) fn column<'a>(&mut self, number: u64) -> Result<ValueRef<'a>, TableFault>
        ensures value { IfOk result (λ cell. owned cell ≡ Int (pos number)) }
        ensures same { OnOk result (self.new ≡ self.old) }
        ensures unasked { self.new.conn ≡ self.old.conn }
        ensures counted { IfErr result (λ e. IsCounted e self.old.faults self.new.faults) }
    {
        match rows::column(number) {
            Ok(cell) => Ok(cell),
            Err(error) => Err(self.fault(error)),
        }
    }
}

/// What each of the rows is read as.
fn read_all<R: FromRow + Drop>(alloc: Global, rows: &[Row]) -> Result<Vec<R>, Error>
    ensures { IfOk result (λ values. AreReadAs R.shows rows.now values.items) }
{
    let mut values = Vec::new(alloc);
    for row in rows {
        let value = R::from_row(row)?;
        values.push(value)?;
    }
    Ok(values)
}

/// A whole number of a row, at least 0.
pub(crate) fn number(row: &Row, at: usize) -> Result<u64, Error>
    ensures read { IfOk result (λ n. column row.now at ≡ Int (pos n)) }
    ensures small { IfOk result (λ n. n < 2 ^ 63) }
    ensures refused { IfErr result (λ e. e ≢ Error.SqliteFailure ErrorCode.OutOfMemory → at < length row.now
        → (n : ℕ) → column row.now at ≢ Int (pos n)) }
{
    let number: i64 = row.get(at)?;
    match u64::try_from(number) {
        Ok(unsigned) => Ok(unsigned),
        Err(_) => Err(Error::IntegralValueOutOfRange(at)),
    }
}

/// A whole number of a row.
pub(crate) fn signed(row: &Row, at: usize) -> Result<i64, Error>
    ensures { IfOk result (λ n. column row.now at ≡ Int n) }
{
    let whole: i64 = row.get(at)?;
    Ok(whole)
}

/// A text of a row.
pub(crate) fn text(row: &Row, at: usize) -> Result<String, Error>
    ensures { IfOk result (λ s. column row.now at ≡ Text (string_bytes s)) }
{
    let text: String = row.get(at)?;
    Ok(text)
}

/// Octets of a row.
pub(crate) fn octets(row: &Row, at: usize) -> Result<Vec<u8>, Error>
    ensures { IfOk result (λ b. column row.now at ≡ Blob b.items) }
{
    let octets: Vec<u8> = row.get(at)?;
    Ok(octets)
}

/// Octets of a row, where they aren't NULL.
pub(crate) fn octets_or_none(row: &Row, at: usize) -> Result<Option<Vec<u8>>, Error>
    ensures { IfOk result (λ found. column row.now at ≡ token_cell (option_map (λ b. b.items) found)) }
{
    if let ValueRef::Null = row.get_ref(at)? {
        return Ok(None);
    }
    let octets = octets(row, at)?;
    Ok(Some(octets))
}
