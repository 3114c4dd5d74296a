//! Connections, and the stores that are made and taken over them.
use crate::scenarios::bench::Bench;
use crate::scenarios::entries::entries_of;
use crate::scenarios::kept::{Connected, Opened};
use crate::transcript::Words;
use book::Entry;
use desk::{Desk, Settings};
use sqlite::{Alter, Connection, Error};
use store::Book;

/// Connects to an empty database in memory.
pub fn connect<B: Book + Drop>(bench: &mut Bench<'_, B>) {
    match Connection::open_in_memory(bench.alloc) {
        Ok(conn) => bench.conn = Some(conn),
        Err(fault) => bench.printer.tell(&fault),
    }
}

/// Keeps a desk over a store, or the connection and why the desk was refused.
fn keep_over<B: Book + Drop + Connected>(bench: &mut Bench<'_, B>, store: B) {
    let settings = Settings {
        policy: &bench.setting.policy,
        identity: &bench.setting.identity,
        algorithm: &bench.setting.algorithm,
    };
    match Desk::open(bench.alloc, settings, store) {
        Ok(desk) => bench.desk = Some(desk),
        Err((fault, store)) => {
            bench.printer.tell(&fault);
            bench.conn = Some(store.connection());
        }
    }
}

/// Keeps a desk over the store that was opened, or the connection and why it was refused.
fn keep<B: Book + Drop + Connected>(bench: &mut Bench<'_, B>, opened: Opened<B>) {
    match opened {
        Ok(store) => keep_over(bench, store),
        Err((fault, conn)) => {
            bench.printer.tell(&fault);
            bench.conn = Some(conn);
        }
    }
}

/// Makes a store over the connection.
fn make_with<B: Book + Drop + Connected>(bench: &mut Bench<'_, B>, entries: &[Entry<'_>]) {
    if let Some(conn) = bench.conn.take() {
        let opened = B::make(bench.alloc, conn, entries);
        keep(bench, opened);
    }
}

/// Makes a store over the connection, with the entries that the words name, if any.
pub fn make<'p, B: Book + Drop + Connected>(bench: &mut Bench<'p, B>, words: &mut Words<'p>) {
    match entries_of(bench.alloc, bench.printer.names, words) {
        Ok(entries) => make_with(bench, &entries),
        Err(fault) => bench.printer.tell(&fault),
    }
}

/// Takes the store that the connection has.
pub fn take<B: Book + Drop + Connected>(bench: &mut Bench<'_, B>) {
    if let Some(conn) = bench.conn.take() {
        let opened = B::take(bench.alloc, conn);
        keep(bench, opened);
    }
}

/// Gives the store's connection back.
pub fn part<B: Book + Drop + Connected>(bench: &mut Bench<'_, B>) {
    if let Some(desk) = bench.desk.take() {
        bench.conn = Some(desk.into_store().connection());
    }
}

fn number<S: Alter>(conn: &mut Connection<S>, sql: &str) -> Result<i64, Error> {
    conn.query_row(sql, &[])?.get(0)
}

/// The number, asked for once more where it is refused.
fn number_again<S: Alter>(conn: &mut Connection<S>, sql: &str) -> Result<i64, Error> {
    match number(conn, sql) {
        Ok(number) => Ok(number),
        Err(_) => number(conn, sql),
    }
}

/// Asks the database for a number.
pub fn ask<B: Book + Drop>(bench: &mut Bench<'_, B>, sql: &str) {
    if let Some(conn) = &mut bench.conn {
        bench.printer.tell(&number_again(conn, sql));
    }
}

/// Makes statements.
pub fn execute<B: Book + Drop>(bench: &mut Bench<'_, B>, sql: &str) {
    if let Some(conn) = &mut bench.conn {
        bench.printer.tell(&conn.execute_batch(sql));
    }
}
