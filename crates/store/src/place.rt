//! What stands at a path, found without changing it.
ghost use Rattle.std.specs.Prelude.{◌≡◌, ◌↔◌, IfOk, IfErr, IsTrue};
ghost use Rattle.store.specs.Files.{beginning, found_as};
ghost use Rattle.book.specs.Fault.{IsOfStorage};

use crate::paths::{FileState, Paths};
use book::StoreFault;
use std::fs;
use std::fs::File;
use std::io::{self, ErrorKind, Read};
use std::rt::HostRuntime;

/// How a database begins.
const BEGINNING: &[u8; 16] = b"SQLite format 3\0";

/// A path, and what was found there.
#[derive(Clone, Copy)]
pub(crate) struct Place<'path> {
    pub(crate) path: &'path str,
    pub(crate) found: FileState,
}

/// It tells nothing: no contract says what stands at a path of the machine.
impl Paths for HostRuntime {
    fn system(&self) -> &HostRuntime {
        self
    }

    fn look(&self, path: &str) -> Result<FileState, StoreFault> {
        match look(self, path) {
            Ok(found) => Ok(found),
            Err(error) => Err(fault_of(error)),
        }
    }

    fn try_making(&self, path: &str) -> Result<(), StoreFault> {
        match make_and_remove(self, path) {
            Ok(()) => Ok(()),
            Err(error) => Err(fault_of(error)),
        }
    }
}

/// The path, and what stands there. Refused as `Paths::look` is.
pub(crate) fn find<'path, P: Paths>(paths: &P, path: &'path str) -> Result<Place<'path>, StoreFault>
    ensures there { IfOk result (λ place. place.path.now ≡ path.now) }
    ensures seen { IfOk result (λ place. P.sees paths.now path.now place.found) }
    ensures refusals { IfErr result IsOfStorage }
{
    let found = paths.look(path)?;
    Ok(Place { path, found })
}

/// Want of memory as it is, and any other error as the database's.
fn fault_of(error: io::Error) -> StoreFault
    ensures { IsOfStorage result }
{
    match error.kind() {
        ErrorKind::OutOfMemory => StoreFault::Memory,
        _ => StoreFault::Database,
    }
}

/// A file that stands there by now is left.
fn make_and_remove(rt: &HostRuntime, path: &str) -> io::Result<()> {
    match File::create_new(rt, path) {
        Ok(_file) => fs::remove_file(rt, path),
        Err(error) if error.kind() == ErrorKind::AlreadyExists => Ok(()),
        Err(error) => Err(error),
    }
}

fn look(rt: &HostRuntime, path: &str) -> io::Result<FileState> {
    if !fs::exists(rt, path)? {
        return Ok(FileState::Nothing);
    }
    let real = fs::canonicalize(rt, path)?;
    let file = fs::metadata(rt, real.as_str())?;
    if !file.is_file() {
        return Err(ErrorKind::Unsupported.into());
    }
    let is_database = begins_as_database(rt, real.as_str())? || has_log(rt, real.as_str())?;
    Ok(found_as(is_database, file.len()))
}

/// What a file is, by whether it begins as a database or its log holds octets, and by its length.
fn found_as(is_database: bool, len: u64) -> FileState
    ensures { result ≡ found_as is_database len }
{
    if is_database {
        FileState::Database
    } else if len == 0 {
        FileState::Empty
    } else {
        FileState::Other
    }
}

fn begins_as_database(rt: &HostRuntime, path: &str) -> io::Result<bool> {
    let mut beginning = [0; 16];
    let mut file = File::open(rt, path)?;
    let count = file.read(&mut beginning)?;
    Ok(is_beginning(count, &beginning))
}

/// Whether so many octets were read, and they are how a database begins.
fn is_beginning(count: usize, octets: &[u8; 16]) -> bool
    ensures { IsTrue result ↔ ((count ≡ 16) × (octets.now ≡ beginning)) }
{
    count == BEGINNING.len() && *octets == *BEGINNING
}

/// Whether the log beside a file holds octets: where a first opening was cut short, the file may be in the log alone.
fn has_log(rt: &HostRuntime, path: &str) -> io::Result<bool> {
    let log = format!(in rt.alloc(); "{path}-wal")?;
    if !fs::exists(rt, log.as_str())? {
        return Ok(false);
    }
    Ok(fs::metadata(rt, log.as_str())?.len() != 0)
}
