//! The store of a scenario, and what it offers besides a book's calls.
use book::Entry;
use counter_fakes::FailingBook;
use sqlite::{Alter, Connection, MemStore};
use std::alloc::Global;
use store::{Book, StampsBetween, Store, StoreFault};

/// Where the database lies.
pub type Place = MemStore;

/// A store, or why it was refused, and the connection.
pub type Opened<B> = Result<B, (StoreFault, Connection<Place>)>;

/// A book that hands out its stamps, and one of whose calls can fail. Scenarios are played over any such, so that only
/// the functions here are proved of the store itself.
pub trait Kept: Book + Drop {
    /// The book whose stamps they are.
    type Base: Book;

    /// The stamps of a range, one at a time.
    fn stamps(&mut self, from: u64, to: u64) -> StampsBetween<'_, Self::Base>;

    /// Has one of the next calls fail: 1 is the next one.
    fn fail(&mut self, call: u64);
}

/// What lies over a connection.
pub trait Connected {
    /// Makes it, with these entries.
    fn make(alloc: Global, conn: Connection<Place>, entries: &[Entry<'_>]) -> Opened<Self>;

    /// Takes the one that the connection has.
    fn take(alloc: Global, conn: Connection<Place>) -> Opened<Self>;

    /// Gives the connection back.
    fn connection(self) -> Connection<Place>;
}

/// Makes a store over a connection, with these entries, or takes the one that it has.
fn open<S: Alter + Drop>(
    alloc: Global,
    conn: Connection<S>,
    entries: Option<&[Entry<'_>]>,
) -> Result<Store<S>, (StoreFault, Connection<S>)> {
    if !conn.is_autocommit() {
        return Err((StoreFault::Full, conn));
    }
    let Some(entries) = entries else {
        return Store::adopt(alloc, conn);
    };
    if entries.is_empty() {
        return Store::create(alloc, conn);
    }
    Store::create_with(alloc, conn, entries)
}

impl<S: Alter + Drop> Kept for FailingBook<Store<S>> {
    type Base = Store<S>;

    fn stamps(&mut self, from: u64, to: u64) -> StampsBetween<'_, Store<S>> {
        self.book.stamps_between(from, to)
    }

    fn fail(&mut self, call: u64) {
        self.failing = call;
    }
}

impl Connected for FailingBook<Store<Place>> {
    fn make(alloc: Global, conn: Connection<Place>, entries: &[Entry<'_>]) -> Opened<Self> {
        open(alloc, conn, Some(entries)).map(|store| FailingBook::new(store))
    }

    fn take(alloc: Global, conn: Connection<Place>) -> Opened<Self> {
        open(alloc, conn, None).map(|store| FailingBook::new(store))
    }

    fn connection(self) -> Connection<Place> {
        let FailingBook {
            book,
            failing: _,
            faults: _,
        } = self;
        book.into_connection()
    }
}
