//! Whether the tables of a connection are ours, and of which version of the schema.

ghost use Rattle.std.specs.Prelude.{◌≡◌, ◌≢◌, ◌↔◌, [], Some, false, IsTrue, IfOk, IfErr, OnOk};
ghost use Rattle.sqlite_resolve.specs.declared.error.CompileError.{CompileError};
ghost use Rattle.sqlite.specs.{Held.state, State.HasCleanDisk};
ghost use Rattle.tables.specs.QueryAnswers.{Answers, Looks};
ghost use Rattle.tables.specs.Versions.{version_query, columns_of, number_of, IsKnownAs, IsVersion};
ghost use Rattle.tables.specs.Versions.{IsUnprepared, IsUnanswered, IsUntold, TellsVersion};
ghost use Rattle.tables.specs.{Layout.IsDatabaseIn, auxiliary.Told.TellsColumns, Tables.Tables};

use crate::queries::rows_of;
use sqlite::types::ValueRef;
use sqlite::{Alter, Connection, Error, ErrorCode, Row};

/// A query over each table and each column of the first version, and of what later ones add.
macro_rules! select_first {
    ($($column:literal)*, $($table:literal)*) => {
        concat!(
            "SELECT meta.version, stamp.serial, stamp.account, stamp.day, stamp.gen, stamp.policy, stamp.algorithm, \
            stamp.digest, stamp.request, stamp.tst, stamp.token, calibration.n, calibration.reading, \
            calibration.offset_us, calibration.uncertainty, hold.n, hold.from_us, hold.to_us, deposit.serial, \
            deposit.owner, deposit.reference, deposit.bytes, reader.serial, reader.account, tally.account, tally.day, \
            tally.count",
            $($column,)*
            " FROM meta, stamp, calibration, hold, deposit, reader, tally"
            $(, $table)*
        )
    };
}

/// The same of the second version.
macro_rules! select_second {
    ($($column:literal)*, $($table:literal)*) => {
        select_first!(", group_reader.serial, group_reader.name" $($column)*, ", group_reader" $($table)*)
    };
}

/// And of the third.
macro_rules! select_third {
    ($($column:literal)*, $($table:literal)*) => {
        select_second!(
            ", identity.n, identity.after_serial, identity.certificate, identity.chain" $($column)*,
            ", identity" $($table)*
        )
    };
}

const FIRST_COLUMNS: &str = select_first!(,);

const SECOND_COLUMNS: &str = select_second!(,);

const ALL_COLUMNS: &str = select_third!(,);

const VERSION: &str = "SELECT version FROM meta";

/// A version of the schema.
#[derive(Clone, Copy)]
pub enum Version {
    /// 1, without the rights of groups.
    First,
    /// 2, without identities.
    Second,
    /// 3, that of now.
    Current,
}

impl Version {
    /// Its number, as the one row of `meta` says it.
    fn number(self) -> u8
        ensures { result ≡ number_of self }
    {
        match self {
            Version::First => 1,
            Version::Second => 2,
            Version::Current => 3,
        }
    }

    /// Whether it is that of now.
    pub(crate) fn is_current(self) -> bool
        ensures { IsTrue result ↔ (self ≡ Version.Current) }
    {
        match self {
            Version::First => false,
            Version::Second => false,
            Version::Current => true,
        }
    }
}

/// That a text isn't understood, where an error says it; any other error is handed on.
fn not_understood(error: Error) -> Result<bool, Error>
    ensures known { IfOk result (λ yes. (yes ≡ false) × ((f : CompileError) × (error ≡ Error.SqlInputError f))) }
    ensures other { IfErr result (λ e. (e ≡ error) × ((f : CompileError) → error ≢ Error.SqlInputError f)) }
{
    match error {
        Error::SqlInputError(_) => Ok(false),
        other => Err(other),
    }
}

/// Whether a query is understood. It is never run.
fn understands<S: Alter>(conn: &mut Connection<S>, sql: &str) -> Result<bool, Error>
    requires { conn.old.in_transaction ≡ false }
    ensures closed { conn.new.in_transaction ≡ false }
    ensures looks { Looks (state S.Store conn.old) (state S.Store conn.new) }
    ensures unprepared { HasCleanDisk (state S.Store conn.new)
        → IfErr result (λ e. e ≢ Error.SqliteFailure ErrorCode.OutOfMemory
        → IsUnprepared sql.now (state S.Store conn.old) (state S.Store conn.new)) }
    ensures told { HasCleanDisk (state S.Store conn.new)
        → IfOk result (TellsColumns sql.now (state S.Store conn.old) (state S.Store conn.new)) }
{
    match conn.prepare(sql) {
        Ok(_) => Ok(true),
        Err(error) => not_understood(error),
    }
}

fn is_version(rows: &[Row], number: u8) -> bool
    ensures { IsTrue result ↔ IsVersion number rows.now }
{
    if rows.len() != 1 {
        return false;
    }
    match rows[0].get_ref(0) {
        Ok(ValueRef::Int(version)) => version == i64::from(number),
        _ => false,
    }
}

/// Whether `meta` has one row, with this number.
fn has_version<S: Alter>(conn: &mut Connection<S>, number: u8) -> Result<bool, Error>
    requires { conn.old.in_transaction ≡ false }
    ensures closed { conn.new.in_transaction ≡ false }
    ensures looks { Looks (state S.Store conn.old) (state S.Store conn.new) }
    ensures opened { HasCleanDisk (state S.Store conn.new) → OnOk result (IsTrue (state S.Store conn.old).is_open) }
    ensures unanswered { HasCleanDisk (state S.Store conn.new)
        → IfErr result (λ e. e ≢ Error.SqliteFailure ErrorCode.OutOfMemory
        → IsUnanswered version_query [] (state S.Store conn.old) (state S.Store conn.new)) }
    ensures told { HasCleanDisk (state S.Store conn.new) → IfOk result (λ yes. (rows : _)
        × Answers version_query [] (state S.Store conn.old).now rows × (IsTrue yes ↔ IsVersion number rows)) }
{
    let rows = rows_of(conn, VERSION, &[])?;
    Ok(is_version(rows.as_slice(), number))
}

/// The latest version of which all tables and columns are there.
fn known_version<S: Alter>(conn: &mut Connection<S>) -> Result<Option<Version>, Error>
    requires { conn.old.in_transaction ≡ false }
    ensures closed { conn.new.in_transaction ≡ false }
    ensures looks { Looks (state S.Store conn.old) (state S.Store conn.new) }
    ensures unprepared { HasCleanDisk (state S.Store conn.new)
        → IfErr result (λ e. e ≢ Error.SqliteFailure ErrorCode.OutOfMemory
        → (v : Version) × IsUnprepared (columns_of v) (state S.Store conn.old) (state S.Store conn.new)) }
    ensures known { HasCleanDisk (state S.Store conn.new)
        → IfOk result (λ found. IsTrue (state S.Store conn.old).is_open
        × ((state S.Store conn.new).now ≡ (state S.Store conn.old).now)
        × IsKnownAs found (state S.Store conn.old).now.schema) }
{
    if understands(conn, ALL_COLUMNS)? {
        return Ok(Some(Version::Current));
    }
    if understands(conn, SECOND_COLUMNS)? {
        return Ok(Some(Version::Second));
    }
    if understands(conn, FIRST_COLUMNS)? {
        return Ok(Some(Version::First));
    }
    Ok(None)
}

/// The version that a connection's tables are of: the latest whose tables and columns are there, if the one row of
/// `meta` says it.
pub(crate) fn found_version<S: Alter>(conn: &mut Connection<S>) -> Result<Option<Version>, Error>
    requires { conn.old.in_transaction ≡ false }
    ensures closed { conn.new.in_transaction ≡ false }
    ensures looks { Looks (state S.Store conn.old) (state S.Store conn.new) }
    ensures opened { HasCleanDisk (state S.Store conn.new) → OnOk result (IsTrue (state S.Store conn.old).is_open) }
    ensures found { HasCleanDisk (state S.Store conn.new) → (v : Version) (t : Tables)
        → IsDatabaseIn (number_of v) t (state S.Store conn.old).now → IfOk result (λ found. found ≡ Some v) }
    ensures shown { HasCleanDisk (state S.Store conn.new)
        → IfOk result (λ found. TellsVersion found (state S.Store conn.old)) }
    ensures untold { HasCleanDisk (state S.Store conn.new)
        → IfErr result (λ e. e ≢ Error.SqliteFailure ErrorCode.OutOfMemory
        → IsUntold (state S.Store conn.old) (state S.Store conn.new)) }
{
    let Some(version) = known_version(conn)? else {
        return Ok(None);
    };
    if has_version(conn, version.number())? {
        return Ok(Some(version));
    }
    Ok(None)
}
