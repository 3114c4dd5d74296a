//! Files in memory, and what a stop of the machine leaves of them.
use sqlite_disk::{Crash, Disk, Memory};
use std::alloc::Global;
use std::io;

/// What a stop leaves of what was written to a file and isn't synced.
#[derive(Clone, Copy)]
pub enum Outcome {
    /// All of it, as where the process dies and the machine goes on.
    Written,
    /// Nothing.
    Synced,
    /// The first half of each write.
    Torn,
}

/// How a stop is read, and what it leaves.
#[derive(Clone, Copy)]
pub struct Reading {
    /// Whether the database is told that a stop leaves each octet of a write old or new. It then syncs once for most
    /// commits, and else twice.
    pub mixes: bool,
    /// What a stop leaves.
    pub outcome: Outcome,
}

impl Outcome {
    pub const ALL: [Outcome; 3] = [Outcome::Written, Outcome::Synced, Outcome::Torn];
}

/// When a file fails.
#[derive(Clone, Copy, Debug)]
pub struct Fate {
    /// How many calls it answers before it stops.
    pub calls: u64,
    /// From which of the calls that write on there is no room, counted from 0.
    pub full_from: u64,
    /// From which of them on there is room again.
    pub full_until: u64,
}

impl Fate {
    /// It never fails.
    pub const NONE: Fate = Fate {
        calls: u64::MAX,
        full_from: u64::MAX,
        full_until: u64::MAX,
    };
}

/// A file in memory that can be made to stop.
pub trait Platter: Crash + Drop {
    /// A file that holds these octets, all of them synced. The fate says when there is no room.
    fn holding(alloc: Global, octets: &[u8], reading: Reading, fate: Fate) -> io::Result<Self>;

    /// What it holds.
    fn octets(&self) -> &[u8];
}

/// The toolchain's own file in memory, over which the database syncs twice. There is always room, and a stop leaves
/// what was synced.
impl Platter for Memory {
    fn holding(alloc: Global, octets: &[u8], _reading: Reading, _fate: Fate) -> io::Result<Memory> {
        let mut file = Memory::new(alloc);
        file.write_at(0, octets)?;
        file.sync()?;
        Ok(file)
    }

    fn octets(&self) -> &[u8] {
        self.bytes()
    }
}
