ghost use Rattle.std.specs.Prelude.{◌≡◌, ℕ, List, IfOk, IfErr};
ghost use Rattle.cms.specs.declared.fault.CmsFault.TheVariants.{Memory};

use crate::algorithm::Algorithm;
use crate::fault::CmsFault;
use crate::signer::{Signer, SignerFault};
use sha2::{Digest, Sha256};
use std::alloc::Global;
use std::marker::Model;

/// A stand-in for a signer, for tests and first steps: its answer is SHA-256 of its key followed by the text. It is no
/// signature, and protects nothing.
#[derive(Drop)]
pub struct KeyedHash {
    alloc: Global,
    key: Vec<u8>,
    algorithm: Algorithm,
}

impl Model for KeyedHash {
    ghost use Rattle.std.specs.Prelude.{◌≡◌, ℕ, List};
    ghost use Rattle.cms.specs.KeyedHash.{keyed_hash_algorithm};

    ghost Value = { List ℕ };

    ghost view = { λ signer. signer.key.items };

    ghost invariant = { λ signer. signer.algorithm ≡ keyed_hash_algorithm };
}

impl KeyedHash {
    /// A signer with that key. It keeps the allocator for its answers. Refused only for want of memory, as `Memory`.
    pub fn new(alloc: Global, key: &[u8]) -> Result<KeyedHash, CmsFault>
        ensures key { IfOk result (λ signer. signer ≡ key.now) }
        ensures memory { IfErr result (λ fault. fault ≡ Memory) }
    {
        let mut octets = Vec::new(alloc);
        octets.extend_from_slice(&[0x30, 0x05, 0x06, 0x03, 0x88, 0x37, 0x09])?;
        let mut copy = Vec::new(alloc);
        copy.extend_from_slice(key)?;
        Ok(KeyedHash {
            alloc,
            key: copy,
            algorithm: Algorithm { octets },
        })
    }
}

impl Signer for KeyedHash {
    ghost use Rattle.std.proofs.Common.{refl, ◌∙◌};
    ghost use Rattle.cms.specs.KeyedHash.{SignsByHash, SendsNothing, keyed_hash_algorithm};
    ghost use Rattle.cms.specs.Signer.{AwaitsInTurn};

    ghost signs = { SignsByHash };

    ghost sent = { SendsNothing };

    ghost awaits = { AwaitsInTurn SignsByHash SendsNothing };

    ghost fault_count = { λ _. 0 };

    ghost algorithm_octets = { λ _. keyed_hash_algorithm };

    fn sign(&mut self, text: &[u8]) -> Result<Vec<u8>, SignerFault> {
        let mut hasher = Sha256::new();
        hasher.update(self.key.as_slice());
        hasher.update(text);
        let digest = hasher.finalize();
        let mut signature = Vec::new(self.alloc);
        signature.extend_from_slice(&digest)?;
        Ok(signature)
    }

    fn send(&mut self, _texts: &[&[u8]]) {}

    fn receive(&mut self, text: &[u8]) -> Result<Vec<u8>, SignerFault> {
        self.sign(text)
    }

    fn algorithm(&self) -> &Algorithm {
        &self.algorithm
    }

    fn faults(&self) -> u64 {
        0
    }

    ghost unsent = { λ x texts. refl };

    ghost sent_after = { λ x y z texts others first second. second ∙ first };

    ghost all_signed = { λ x y texts answers awaits. awaits.signed };

    ghost all_sent = { λ x y texts answers outstanding awaits. awaits.went_out };
}
