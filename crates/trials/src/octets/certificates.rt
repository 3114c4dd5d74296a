//! Certificates, and the AlgorithmIdentifiers of signers.
use crate::fields::{octets, word};
use crate::octets::changes::{Subject, try_all};
use crate::tally::Tally;
use cms::{Algorithm, CmsFault, Identity};
use std::alloc::Global;

/// Octets as an `identity` or an `algorithm`, and how many were one.
#[derive(Drop)]
struct Values<'k> {
    alloc: Global,
    kind: &'k str,
    found: u64,
}

/// Whether octets are an identity's, of which they are the whole certificate; a fault is wrong where it is another one.
fn is_identity(alloc: Global, octets: &[u8]) -> Result<bool, CmsFault> {
    Ok(Identity::from_certificate(alloc, octets)?.certificate() == octets)
}

/// The same of an AlgorithmIdentifier.
fn is_algorithm(alloc: Global, octets: &[u8]) -> Result<bool, CmsFault> {
    Ok(Algorithm::from_bytes(alloc, octets)?.as_slice() == octets)
}

impl Subject for Values<'_> {
    fn takes(&mut self, octets: &[u8]) -> bool {
        let told = match self.kind {
            "identity" => is_identity(self.alloc, octets),
            _ => is_algorithm(self.alloc, octets),
        };
        match told {
            Ok(is_whole) => {
                self.found = self.found.saturating_add(1);
                is_whole
            }
            Err(fault) => fault == CmsFault::NotCertificate,
        }
    }
}

/// Tries the octets of a line, a name and hexadecimal digits, as an `identity` or an `algorithm`.
pub fn try_line(rt: &HostRuntime, kind: &str, line: &str) -> anyhow::Result<Tally> {
    let (name, digits) = word(line);
    let mut octets = octets(rt.alloc(), digits)?;
    let mut values = Values {
        alloc: rt.alloc(),
        kind,
        found: 0,
    };
    let tally = try_all(rt, &mut values, &mut octets)?;
    println!(rt;
        "{kind} {name}: {} tried, {} found; {} wrong",
        tally.tried, values.found, tally.wrong
    )?;
    Ok(tally)
}
