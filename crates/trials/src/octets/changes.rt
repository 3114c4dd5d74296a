//! Fronts of octets, and changes of one of them.
use crate::tally::Tally;
use std::io;

/// How many wrong cases are told with their octets.
const MOST_TOLD: u64 = 3;

/// What octets are tried on.
pub trait Subject {
    /// Whether these octets fare as they have to.
    fn takes(&mut self, octets: &[u8]) -> bool;
}

fn tell_wrong(rt: &HostRuntime, octets: &[u8]) -> io::Result<()> {
    print!(rt; "  wrong:")?;
    for octet in octets {
        print!(rt; " {octet:02x}")?;
    }
    println!(rt; "")
}

fn try_one<S: Subject>(
    rt: &HostRuntime,
    subject: &mut S,
    octets: &[u8],
    tally: &mut Tally,
) -> io::Result<()> {
    let is_right = subject.takes(octets);
    tally.add(is_right);
    if !is_right && tally.wrong <= MOST_TOLD {
        tell_wrong(rt, octets)?;
    }
    Ok(())
}

fn set(octets: &mut [u8], at: usize, value: u8) {
    if let Some(octet) = octets.get_mut(at) {
        *octet = value;
    }
}

/// Tries the octets with one of them as each of the 255 other values.
fn try_values<S: Subject>(
    rt: &HostRuntime,
    subject: &mut S,
    octets: &mut [u8],
    at: usize,
    tally: &mut Tally,
) -> io::Result<()> {
    let Some(kept) = octets.get(at).copied() else {
        return Ok(());
    };
    for value in 0..=255u8 {
        if value != kept {
            set(octets, at, value);
            try_one(rt, subject, octets, tally)?;
        }
    }
    set(octets, at, kept);
    Ok(())
}

/// Tries each front of the octets, the empty one and the whole too, and each change of one octet to each of the 255
/// other values.
pub fn try_all<S: Subject>(
    rt: &HostRuntime,
    subject: &mut S,
    octets: &mut [u8],
) -> io::Result<Tally> {
    let mut tally = Tally::NONE;
    for length in 0..=octets.len() {
        if let Some(front) = octets.get(..length) {
            try_one(rt, subject, front, &mut tally)?;
        }
    }
    for at in 0..octets.len() {
        try_values(rt, subject, octets, at, &mut tally)?;
    }
    Ok(tally)
}
