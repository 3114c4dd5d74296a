//! A file in memory of either reading of a stop, in which there may be no room.
ghost use Rattle.std.specs.Prelude.{◌≡◌, ◌⊎◌, length, refl, true, false, is_ok, IsTrue, OnOk, OnErr, MatchBool};
ghost use Rattle.std.proofs.Common.{inl};
ghost use Rattle.sqlite_disk.specs.Disk.{Holds, Torn, Mixed, Cut, CountsFault, MoreFaults};
ghost use Rattle.sqlite_disk.specs.Refusal.{finds_no_room};

use crate::failures::platter::{Fate, Outcome, Platter, Reading};
use sqlite_disk::{Crash, Disk, Tally, digest_of};
use std::alloc::{AllocError, Global};
use std::io;

/// A file in memory. A stop leaves all that was written, or what was synced, or the first half of each later write.
#[derive(Drop)]
pub struct Medium {
    octets: Vec<u8>,
    synced: Vec<u8>,
    torn: Vec<u8>,
    reading: Reading,
    fate: Fate,
    usable: bool,
    faults: u64,
    caught: u64,
    refused: u64,
    /// How many calls have written, those that failed too.
    writes: u64,
}

impl Disk for Medium {
    ghost seen = { λ m. m.octets.items };

    ghost may_leave = { λ m c. (c ≡ m.octets.items) ⊎ ((c ≡ m.synced.items) ⊎ (c ≡ m.torn.items)) };

    ghost is_usable = { λ m. m.usable };

    ghost faults = { λ m. m.faults };

    ghost is_clean = { λ _. true };

    ghost tally_of = { λ m. record { caught = m.caught; refused = m.refused } };

    ghost key_of = { λ _. 0 };

    ghost is_fair = { λ _ _. true };

    ghost fair_if_clean = { λ _ _ _. refl };

    ghost seen_may_stay = { λ m. inl refl };

    ghost is_mixing = { λ m. m.reading.mixes };

    fn mixes(&self) -> bool {
        self.reading.mixes
    }

    // It tells no lie, so it needs no secret.
    fn key(&self) -> u64 {
        0
    }

    fn tally(&self) -> Tally {
        Tally {
            caught: self.caught,
            refused: self.refused,
        }
    }

    fn may_be_used(&self) -> bool {
        self.usable
    }

    fn len(&mut self) -> io::Result<usize> {
        Ok(self.octets.len())
    }

    fn read_at(&mut self, at: usize, buf: &mut [u8]) -> io::Result<()> {
        if at > self.octets.len() || buf.len() > self.octets.len() - at {
            return Err(io::ErrorKind::UnexpectedEof.into());
        }
        buf.copy_from_slice(&self.octets[at..at + buf.len()]);
        Ok(())
    }

    fn read_checked(&mut self, key: u64, want: u64, at: usize, buf: &mut [u8]) -> io::Result<()> {
        self.read_at(at, buf)?;
        if digest_of(key, buf) != want {
            self.faults = self.faults.saturating_add(1);
            self.caught = self.caught.saturating_add(1);
            return Err(io::ErrorKind::InvalidData.into());
        }
        Ok(())
    }

    fn write_at(&mut self, at: usize, bytes: &[u8]) -> io::Result<()> {
        find_room(
            self.fate,
            &mut self.writes,
            &mut self.faults,
            &mut self.refused,
        )?;
        count(overwrite(&mut self.octets, at, bytes), &mut self.faults)?;
        count(tear(&mut self.torn, at, bytes), &mut self.faults)
    }

    fn set_len(&mut self, len: usize) -> io::Result<()> {
        find_room(
            self.fate,
            &mut self.writes,
            &mut self.faults,
            &mut self.refused,
        )?;
        count(resize(&mut self.octets, len), &mut self.faults)?;
        count(resize(&mut self.torn, len), &mut self.faults)
    }

    fn sync(&mut self) -> io::Result<()> {
        self.usable = false;
        count(replace(&mut self.torn, &self.octets), &mut self.faults)?;
        count(replace(&mut self.synced, &self.octets), &mut self.faults)?;
        self.usable = true;
        Ok(())
    }
}

/// Leaves what its outcome says, or all if memory runs out.
impl Crash for Medium {
    fn crash(&mut self) {
        self.usable = true;
        let left = match self.reading.outcome {
            Outcome::Written => return,
            Outcome::Synced => replace(&mut self.octets, &self.synced),
            Outcome::Torn => replace(&mut self.octets, &self.torn),
        };
        if left.is_err() {
            self.faults = self.faults;
        }
    }
}

impl Platter for Medium {
    fn holding(alloc: Global, octets: &[u8], reading: Reading, fate: Fate) -> io::Result<Medium> {
        Ok(Medium {
            octets: Vec::from_slice(alloc, octets)?,
            synced: Vec::from_slice(alloc, octets)?,
            torn: Vec::from_slice(alloc, octets)?,
            reading,
            fate,
            usable: true,
            faults: 0,
            caught: 0,
            refused: 0,
            writes: 0,
        })
    }

    fn octets(&self) -> &[u8] {
        &self.octets
    }
}

/// Whether there is room for a call that writes.
fn find_room(fate: Fate, writes: &mut u64, faults: &mut u64, refused: &mut u64) -> io::Result<()>
    ensures faults { CountsFault result faults.old faults.new }
    ensures refused { MatchBool (finds_no_room result) (MoreFaults refused.old refused.new)
        (refused.new ≡ refused.old) }
{
    let call = *writes;
    *writes = writes.saturating_add(1);
    if fate.full_from <= call && call < fate.full_until {
        *faults = faults.saturating_add(1);
        *refused = refused.saturating_add(1);
        return Err(io::ErrorKind::StorageFull.into());
    }
    Ok(())
}

fn count(outcome: Result<(), AllocError>, faults: &mut u64) -> io::Result<()>
    ensures variant { is_ok result ≡ is_ok outcome }
    ensures kind { finds_no_room result ≡ false }
    ensures faults { CountsFault result faults.old faults.new }
{
    if outcome.is_err() {
        *faults = faults.saturating_add(1);
        return Err(io::Error::from(io::ErrorKind::OutOfMemory));
    }
    Ok(())
}

fn replace(file: &mut Vec<u8>, octets: &[u8]) -> Result<(), AllocError>
    ensures ok { OnOk result (file.new.items ≡ octets.now) }
    ensures err { OnErr result (file.new.items ≡ file.old.items) }
{
    let mut copy = Vec::new(*file.allocator());
    copy.extend_from_slice(octets)?;
    *file = copy;
    Ok(())
}

fn resize(file: &mut Vec<u8>, len: usize) -> Result<(), AllocError>
    ensures len { OnOk result (length file.new.items ≡ len) }
    ensures others { Cut len file.old.items file.new.items }
{
    file.resize(len, 0)
}

fn overwrite(file: &mut Vec<u8>, at: usize, octets: &[u8]) -> Result<(), AllocError>
    ensures written { OnOk result (Holds file.new.items at octets.now) }
    ensures others { Mixed at octets.now file.old.items file.new.items }
{
    let end = at.checked_add(octets.len()).ok_or(AllocError)?;
    if end > file.len() {
        resize(file, end)?;
    }
    file[at..end].copy_from_slice(octets);
    Ok(())
}

/// Writes the first half alone.
fn tear(file: &mut Vec<u8>, at: usize, octets: &[u8]) -> Result<(), AllocError>
    ensures { Mixed at octets.now file.old.items file.new.items }
{
    overwrite(file, at, &octets[..octets.len() / 2])
}
