//! Policy files.
use crate::octets::changes::{Subject, try_all};
use crate::tally::Tally;
use policy::{EXAMPLE, Policy, PolicyFault};
use std::time::Instant;

/// How many seconds one may take that isn't made once more.
const LONGEST: u64 = 1;

/// Octets as a policy file, and how many were none of text, and how many were one.
#[derive(Drop)]
struct Files<'r> {
    rt: &'r HostRuntime,
    texts: u64,
    found: u64,
}

/// Whether there is a record or a fault, and memory enough.
fn is_told(files: &mut Files<'_>, text: &str) -> bool {
    match Policy::from_text(files.rt.alloc(), text) {
        Ok(_policy) => {
            files.found = files.found.saturating_add(1);
            true
        }
        Err(fault) => fault != PolicyFault::Memory,
    }
}

/// The same, and whether it took less than a second.
fn is_told_soon(files: &mut Files<'_>, text: &str) -> bool {
    let Ok(begun) = Instant::now(files.rt) else {
        return false;
    };
    if !is_told(files, text) {
        return false;
    }
    match begun.elapsed(files.rt) {
        Ok(time) => time.as_secs() < LONGEST,
        Err(_) => false,
    }
}

impl Subject for Files<'_> {
    fn takes(&mut self, octets: &[u8]) -> bool {
        let Ok(text) = str::from_utf8(octets) else {
            return true;
        };
        self.texts = self.texts.saturating_add(1);
        let found = self.found;
        if is_told_soon(self, text) {
            return true;
        }
        // a machine at work on something else makes one wait
        self.found = found;
        is_told_soon(self, text)
    }
}

/// Tries the example of a policy file. Tells how many were tried, how many of them were text and had a record, and how
/// many were wrong.
pub fn try_line(rt: &HostRuntime, name: &str) -> anyhow::Result<Tally> {
    let mut octets = Vec::from_slice(rt.alloc(), EXAMPLE.as_bytes())?;
    let mut files = Files {
        rt,
        texts: 0,
        found: 0,
    };
    let tally = try_all(rt, &mut files, &mut octets)?;
    print!(rt;
        "policy file {name}: {} tried, {} of them text",
        tally.tried, files.texts
    )?;
    println!(rt; ", {} with a record; {} wrong", files.found, tally.wrong)?;
    Ok(tally)
}
