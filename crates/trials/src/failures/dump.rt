//! What the tables of a database hold.
use crate::failures::versions::CURRENT;
use sqlite::{Alter, Connection, Error, Row};
use std::alloc::{AllocError, Global};

/// Each table's rows, in an order of their own.
const TABLES: [&str; 8] = [
    "SELECT serial, account, day, gen, policy, algorithm, digest, request, tst, token FROM stamp ORDER BY serial",
    "SELECT n, reading, offset_us, uncertainty FROM calibration ORDER BY n",
    "SELECT n, from_us, to_us FROM hold ORDER BY n",
    "SELECT serial, owner, reference, bytes FROM deposit ORDER BY serial",
    "SELECT serial, account FROM reader ORDER BY serial, account",
    "SELECT account, day, count FROM tally ORDER BY account, day",
    "SELECT serial, name FROM group_reader ORDER BY serial, name",
    "SELECT n, after_serial, certificate, chain FROM identity ORDER BY n",
];

const VERSION: &str = "SELECT version FROM meta";

/// What the tables of a database hold.
#[derive(Drop, PartialEq)]
pub struct Dump {
    version: i64,
    /// The rows of each table, as texts of their values and kinds; none for a table that isn't there.
    tables: Vec<Option<String>>,
}

fn add_row(alloc: Global, text: &mut String, row: &Row) -> anyhow::Result<()> {
    for at in 0..row.column_count() {
        text.push_str(&format!(in alloc; " {:?}", row.get_ref(at)?)?)?;
    }
    text.push('\n')?;
    Ok(())
}

/// The rows that a query shows, or none where it isn't understood.
fn rows_of<S: Alter>(
    alloc: Global,
    conn: &mut Connection<S>,
    query: &str,
) -> anyhow::Result<Option<String>> {
    let rows = match conn.query_all(query, &[]) {
        Ok(rows) => rows,
        Err(Error::SqlInputError(_)) => return Ok(None),
        Err(error) => return Err(error.into()),
    };
    let mut text = String::new(alloc);
    for row in &rows {
        add_row(alloc, &mut text, row)?;
    }
    Ok(Some(text))
}

fn version_of<S: Alter>(conn: &mut Connection<S>) -> Result<i64, Error> {
    conn.query_row(VERSION, &[])?.get(0)
}

/// The rows of each table.
fn tables_of<S: Alter>(
    alloc: Global,
    conn: &mut Connection<S>,
) -> anyhow::Result<Vec<Option<String>>> {
    let mut tables = Vec::new(alloc);
    for query in TABLES {
        tables.push(rows_of(alloc, conn, query)?)?;
    }
    Ok(tables)
}

/// What the tables hold.
pub fn dump_of<S: Alter>(alloc: Global, conn: &mut Connection<S>) -> anyhow::Result<Dump> {
    let tables = tables_of(alloc, conn)?;
    Ok(Dump {
        version: version_of(conn)?,
        tables,
    })
}

/// Whether a table holds what a migration makes of it: the same rows, or none where it wasn't there.
fn is_kept(before: &Option<String>, now: &Option<String>) -> bool {
    let Some(found) = now else {
        return false;
    };
    match before {
        Some(rows) => found == rows,
        None => found.is_empty(),
    }
}

impl Dump {
    /// Whether a migration makes it of an earlier one.
    pub fn is_migrated(&self, earlier: &Dump) -> bool {
        let mut tables = earlier.tables.iter().zip(self.tables.iter());
        self.version == CURRENT && tables.all(|(before, now)| is_kept(before, now))
    }

    /// The same once more.
    pub fn copied(&self, alloc: Global) -> Result<Dump, AllocError> {
        let mut tables = Vec::new(alloc);
        for table in &self.tables {
            let rows = match table {
                Some(rows) => Some(String::from_str(alloc, rows)?),
                None => None,
            };
            tables.push(rows)?;
        }
        Ok(Dump {
            version: self.version,
            tables,
        })
    }
}
