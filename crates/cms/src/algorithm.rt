ghost use Rattle.std.specs.Prelude.{◌≡◌, ◌⊎◌, ◌<◌, ◌≤◌, ◌↔◌, length, Err, OnOk, IfOk, IfErr};
ghost use Rattle.cms.specs.Certificate.{IsAlgorithm};
ghost use Rattle.cms.specs.declared.fault.CmsFault.TheVariants.{NotCertificate, TooLarge, Memory};

use crate::fault::CmsFault;
use crate::outline::is_algorithm;
use std::alloc::Global;
use std::marker::Model;

/// The most octets of an AlgorithmIdentifier that is read.
const MAX_ALGORITHM: usize = 256;

/// An AlgorithmIdentifier (RFC 5280 4.1.1.2) of at most 256 octets, in its encoding.
#[derive(Drop)]
pub struct Algorithm {
    pub(crate) octets: Vec<u8>,
}

impl Model for Algorithm {
    ghost use Rattle.std.specs.Prelude.{ℕ, List};

    ghost Value = { List ℕ };

    ghost view = { λ algorithm. algorithm.octets.items };
}

impl Algorithm {
    /// The AlgorithmIdentifier that octets are: a lawful value, a SEQUENCE of an object identifier and at most one
    /// value more, its parameters, of any kind (RFC 5280 4.1.1.2).
    ///
    /// Refused as `TooLarge` for more than 256 octets, which is judged first, as `NotCertificate` where the octets are
    /// no AlgorithmIdentifier, and as `Memory` where memory runs out for one that they are.
    pub fn from_bytes(alloc: Global, octets: &[u8]) -> Result<Algorithm, CmsFault>
        ensures same { IfOk result (λ algorithm. algorithm ≡ octets.now) }
        ensures found { OnOk result (IsAlgorithm octets.now) }
        ensures only { IsAlgorithm octets.now → length octets.now ≤ 256 → IfErr result (λ fault. fault ≡ Memory) }
        ensures too_large { (result ≡ Err TooLarge) ↔ (256 < length octets.now) }
        ensures memory { result ≡ Err Memory → IsAlgorithm octets.now }
        ensures refusals { IfErr result (λ fault. (fault ≡ NotCertificate) ⊎ ((fault ≡ TooLarge) ⊎ (fault ≡ Memory))) }
    {
        if octets.len() > MAX_ALGORITHM {
            return Err(CmsFault::TooLarge);
        }
        if !is_algorithm(octets) {
            return Err(CmsFault::NotCertificate);
        }
        let mut copy = Vec::new(alloc);
        copy.extend_from_slice(octets)?;
        Ok(Algorithm { octets: copy })
    }

    /// Its encoding. Takes no memory.
    pub fn as_slice(&self) -> &[u8]
        ensures { result.now ≡ self.now }
    {
        &self.octets
    }
}
