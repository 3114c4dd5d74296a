//! A database with stamps, deposits and readers.
use crate::books::{OverBook, over_new_path};
use sqlite_disk::Unknown;
use std::alloc::Global;
use store::{Book, Calibration, Hold, Reservation, StoreFault};

/// The octets of a reservation's parts, of no meaning to the store.
const OCTETS: &[u8] = b"\x88\x37";

/// The octets of the greatest deposit.
const MOST: usize = 1_048_576;

fn reserve<B: Book>(store: &mut B, serial: u64, account: &str) -> Result<(), StoreFault> {
    store.reserve(&Reservation {
        serial,
        account,
        gen_time: 86_400_000_000,
        policy: OCTETS,
        algorithm: OCTETS,
        digest: OCTETS,
        request: OCTETS,
        tst: OCTETS,
    })
}

/// Reserves five stamps.
fn reserve_each<B: Book>(store: &mut B) -> Result<(), StoreFault> {
    for (serial, account) in [
        (1, "alice"),
        (2, "bob"),
        (3, "alice"),
        (4, "guest"),
        (5, "guest"),
    ] {
        reserve(store, serial, account)?;
    }
    Ok(())
}

/// Seals all but the fourth, three of them as deposits; two accounts have the same reference.
fn seal_each<B: Book>(store: &mut B, greatest: &[u8]) -> Result<(), StoreFault> {
    store.seal_deposit(2, b"token 2", "bob", "plan-7", b"")?;
    store.seal_deposit(1, b"token 1", "alice", "plan-7", b"abc")?;
    store.seal_deposit(3, b"token 3", "alice", "plan-8", greatest)?;
    store.seal(5, b"token 5")
}

/// Five stamps, of which the fourth is void and three are deposits.
fn deposit<B: Book>(alloc: Global, store: &mut B) -> Result<(), StoreFault> {
    match vec![in alloc; 0xab; MOST] {
        Ok(greatest) => {
            reserve_each(store)?;
            seal_each(store, &greatest)
        }
        Err(_) => Err(StoreFault::Memory),
    }
}

/// Rights given, taken, given again and given twice, one of them to an account that owns another deposit.
fn give_rights<B: Book>(store: &mut B) -> Result<(), StoreFault> {
    store.grant(1, "bob")?;
    store.grant(1, "carol")?;
    store.revoke(1, "carol")?;
    store.grant(3, "carol")?;
    store.grant(3, "carol")?;
    store.revoke(2, "guest")?;
    store.grant(2, "alice")?;
    store.revoke(2, "alice")?;
    store.grant(2, "alice")
}

fn fill<B: Book>(alloc: Global, store: &mut B) -> Result<(), StoreFault> {
    store.calibrate(&Calibration {
        reading: 5,
        offset: -250,
        uncertainty: 400,
    })?;
    store.hold(&Hold { from: -9, to: 7 })?;
    deposit(alloc, store)?;
    give_rights(store)
}

/// A book that is filled.
#[derive(Clone, Copy)]
struct Sample {
    alloc: Global,
}

impl OverBook for Sample {
    fn over<B: Book + Drop>(&mut self, book: B) -> anyhow::Result<B> {
        let mut book = book;
        fill(self.alloc, &mut book)?;
        Ok(book)
    }
}

/// Writes a database with what it is to hold at a path where no file stands.
pub fn write(rt: &HostRuntime, path: &str) -> anyhow::Result<()> {
    let mut sample = Sample { alloc: rt.alloc() };
    over_new_path(rt, path, Unknown, &mut sample)
}
