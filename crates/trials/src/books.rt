//! Stores that are made over databases, and what is done over them.
use sqlite::{Alter, Connection, FileFrom, FileStore, Start};
use sqlite_disk::Disk;
use std::alloc::Global;
use store::{Book, Calibration, Store, StoreFault};

/// What is done over a book.
pub trait OverBook {
    /// Does it, and gives the book back.
    fn over<B: Book + Drop>(&mut self, book: B) -> anyhow::Result<B>;
}

/// What is done over a connection, whatever storage it has.
pub trait OverConnection {
    /// Does it, and gives the connection back.
    fn over<S: Alter + Drop>(&mut self, conn: Connection<S>) -> anyhow::Result<Connection<S>>;
}

/// What became of an opening: a store, or why there is none, and the connection.
pub type Opened<S> = Result<Store<S>, (StoreFault, Connection<S>)>;

/// A store that is made over a database, or the one that this has.
pub fn opened<S: Alter + Drop>(alloc: Global, conn: Connection<S>, is_new: bool) -> Opened<S> {
    if !conn.is_autocommit() {
        return Err((StoreFault::Database, conn));
    }
    if is_new {
        Store::create(alloc, conn)
    } else {
        Store::adopt(alloc, conn)
    }
}

/// Does work over a store, and gives it back. No other function takes a store for a book, so that the types of one are
/// compared with a book's but once.
pub fn over_store<S: Alter + Drop, W: OverBook>(
    store: Store<S>,
    work: &mut W,
) -> anyhow::Result<Store<S>> {
    work.over(store)
}

/// Does work over the store of a connection, which is given back.
pub fn over_opened<S: Alter + Drop, W: OverBook>(
    store: Opened<S>,
    work: &mut W,
) -> anyhow::Result<Connection<S>> {
    match store {
        Ok(store) => Ok(over_store(store, work)?.into_connection()),
        Err((fault, _conn)) => Err(fault.into()),
    }
}

/// Does work over the store that is made over an empty database in memory.
pub fn over_memory<W: OverBook>(alloc: Global, work: &mut W) -> anyhow::Result<()> {
    let conn = Connection::open_in_memory(alloc)?;
    let _conn = over_opened(opened(alloc, conn, true), work)?;
    Ok(())
}

/// Does work over the store of files, and closes them.
fn over_files<D: Disk + Drop, W: OverBook>(
    store: Store<FileStore<D>>,
    work: &mut W,
) -> anyhow::Result<()> {
    let store = over_store(store, work)?;
    let _files = store.close()?;
    Ok(())
}

/// Does work over what was opened at a path.
fn over_found<T: Start + Drop, W: OverBook>(
    store: Result<Store<FileStore<FileFrom<T>>>, StoreFault>,
    work: &mut W,
) -> anyhow::Result<()> {
    match store {
        Ok(store) => over_files(store, work),
        Err(fault) => Err(fault.into()),
    }
}

/// Does work over the counter's database at a path.
pub fn over_path<T: Start + Drop, W: OverBook>(
    rt: &HostRuntime,
    path: &str,
    start: T,
    work: &mut W,
) -> anyhow::Result<()> {
    over_found(Store::open(rt, path, start), work)
}

/// Does work over a new database at a path where no file stands.
pub fn over_new_path<T: Start + Drop, W: OverBook>(
    rt: &HostRuntime,
    path: &str,
    start: T,
    work: &mut W,
) -> anyhow::Result<()> {
    over_found(Store::make(rt, path, start), work)
}

/// A calibration of a clock that is right, at a reading.
pub fn calibration_at(reading: i64) -> Calibration {
    Calibration {
        reading,
        offset: 0,
        uncertainty: 0,
    }
}

/// The book, with such a calibration.
pub fn calibrated<B: Book + Drop>(book: B, reading: i64) -> Result<B, StoreFault> {
    let mut book = book;
    book.calibrate(&calibration_at(reading))?;
    Ok(book)
}
