//! The rights of accounts and of groups: the statements that change them, inside a transaction, and the look-ups.

ghost use Rattle.std.specs.{List.list_any, Prelude.◌≡◌, Prelude.◌<◌, Prelude.◌^◌, Prelude.IfOk, Prelude.IfSome};
ghost use Rattle.sqlite.specs.Held.{state};
ghost use Rattle.book.specs.Entries.{reader_view};
ghost use Rattle.tables.specs.Queries.{LooksUp, ShowsReaderSerial, is_readable_after};
ghost use Rattle.tables.specs.Tables.{without_right, is_reader_row, by_kind, rights_of, name_of};
ghost use Rattle.tables.specs.{Found.IsLeastAs, auxiliary.Steps.with_right_alone, Transaction.Carries};

use crate::base::Base;
use crate::fault::TableFault;
use crate::rows::column;
use book::Reader;
use sqlite::types::ValueRef;
use sqlite::{Alter, Error, Transaction};

const INSERT_READER: &str = "INSERT INTO reader (serial, account) VALUES (?1, ?2)";

const INSERT_GROUP_READER: &str = "INSERT INTO group_reader (serial, name) VALUES (?1, ?2)";

const DELETE_READER: &str = "DELETE FROM reader WHERE serial = ?1 AND account = ?2";

const DELETE_GROUP_READER: &str = "DELETE FROM group_reader WHERE serial = ?1 AND name = ?2";

const IS_READER: &str = "SELECT serial FROM reader WHERE serial = ?1 AND account = ?2";

const IS_GROUP_READER: &str = "SELECT serial FROM group_reader WHERE serial = ?1 AND name = ?2";

const NEXT_READABLE: &str =
    "SELECT serial FROM reader WHERE account = ?1 AND serial > ?2 ORDER BY serial LIMIT 1";

const NEXT_GROUP_READABLE: &str =
    "SELECT serial FROM group_reader WHERE name = ?1 AND serial > ?2 ORDER BY serial LIMIT 1";

/// The statement over the table of a reader's rights, that of accounts or that of groups, and the reader's name.
fn in_table<'a>(
    reader: Reader<'a>,
    accounts: &'static str,
    groups: &'static str,
) -> (&'static str, &'a [u8])
    ensures statement { result.0.now ≡ by_kind (reader_view reader.entry) accounts.now groups.now }
    ensures name { result.1.now ≡ name_of (reader_view reader.entry) }
{
    match reader {
        Reader::Account(name) => (accounts, name.as_bytes()),
        Reader::Group(name) => (groups, name.as_bytes()),
    }
}

pub(crate) fn put_right<S: Alter>(
    tx: &mut Transaction<'_, S>,
    serial: u64,
    reader: &Reader<'_>,
) -> Result<usize, Error>
    ensures same_reference { tx.new.conn.ghost_name ≡ tx.old.conn.ghost_name }
    ensures carries { Carries (with_right_alone serial (reader_view reader.now)) (state S.Store tx.old.conn.now)
        (state S.Store tx.new.conn.now) result }
{
    let (statement, name) = in_table(*reader, INSERT_READER, INSERT_GROUP_READER);
    tx.execute(statement, &[column(serial)?, ValueRef::Text(name)])
}

pub(crate) fn drop_right<S: Alter>(
    tx: &mut Transaction<'_, S>,
    serial: u64,
    reader: &Reader<'_>,
) -> Result<usize, Error>
    ensures same_reference { tx.new.conn.ghost_name ≡ tx.old.conn.ghost_name }
    ensures carries { Carries (without_right serial (reader_view reader.now)) (state S.Store tx.old.conn.now)
        (state S.Store tx.new.conn.now) result }
{
    let (statement, name) = in_table(*reader, DELETE_READER, DELETE_GROUP_READER);
    tx.execute(statement, &[column(serial)?, ValueRef::Text(name)])
}

impl<S: Alter + Drop> Base<S> {
    /// Whether the reader has the right to read the deposit with the number.
    pub fn is_reader(&mut self, serial: u64, reader: Reader<'_>) -> Result<bool, TableFault>
        ensures { LooksUp S.Store (λ t reads. reads
            ≡ list_any (is_reader_row serial (name_of (reader_view reader.entry)))
            (rights_of (reader_view reader.entry) t)) self.old self.new result }
    {
        let (statement, name) = in_table(reader, IS_READER, IS_GROUP_READER);
        let serial = self.column(serial)?;
        self.any_row(statement, &[serial, ValueRef::Text(name)])
    }

    /// The least number after `after` of a deposit that the reader has the right to read. It goes through the rights to
    /// deposits after `after`, up to the one that it answers.
    pub fn next_readable(
        &mut self,
        reader: Reader<'_>,
        after: u64,
    ) -> Result<Option<u64>, TableFault>
        ensures looks { LooksUp S.Store (λ t found. IsLeastAs ShowsReaderSerial (λ row. row.serial)
            (is_readable_after (name_of (reader_view reader.entry)) after) (rights_of (reader_view reader.entry) t)
            found) self.old self.new result }
        ensures small { IfOk result (λ found. IfSome found (λ number. number < 2 ^ 63)) }
    {
        let (statement, name) = in_table(reader, NEXT_READABLE, NEXT_GROUP_READABLE);
        let after = self.column(after)?;
        self.first_number(statement, &[ValueRef::Text(name), after])
    }
}
