ghost use Rattle.std.specs.Prelude.{◌≡◌};

use cms::{Algorithm, Signer, SignerFault};

/// A signer that fails at chosen calls, and passes the others to a signer behind it. It counts all calls.
#[derive(Drop)]
pub struct FailingSigner<S> {
    /// The signer behind it.
    pub signer: S,
    /// The calls that fail, by their numbers; the first call is 1.
    pub chosen: Vec<u64>,
    /// How many calls there were, modulo 2^64.
    pub calls: u64,
    /// How many of them were chosen, modulo 2^64.
    pub faults: u64,
}

impl<S> FailingSigner<S> {
    /// A signer that fails at these calls, by their numbers from 1 on. Takes no memory.
    pub fn new(signer: S, chosen: Vec<u64>) -> FailingSigner<S>
        ensures { result ≡ record { signer = signer; chosen = chosen; calls = 0; faults = 0 } }
    {
        FailingSigner {
            signer,
            chosen,
            calls: 0,
            faults: 0,
        }
    }
}

impl<S: Signer> Signer for FailingSigner<S> {
    ghost use Rattle.std.specs.Prelude.{◌+◌, ◌%◌, ◌^◌};
    ghost use Rattle.counter_fakes.specs.Chosen.{SignsUnlessChosen};
    ghost use Rattle.cms.specs.Signer.{AwaitsInTurn};

    ghost signs = { SignsUnlessChosen S.signs };

    ghost sent = { λ before texts after. S.sent before.signer texts after.signer };

    ghost awaits = { AwaitsInTurn (SignsUnlessChosen S.signs)
        (λ before texts after. S.sent before.signer texts after.signer) };

    ghost fault_count = { λ signer. (signer.faults + S.fault_count signer.signer) % 2 ^ 64 };

    ghost algorithm_octets = { λ signer. S.algorithm_octets signer.signer };

    fn sign(&mut self, text: &[u8]) -> Result<Vec<u8>, SignerFault> {
        self.calls = self.calls.wrapping_add(1);
        if self.chosen.contains(&self.calls) {
            self.faults = self.faults.wrapping_add(1);
            return Err(SignerFault::Failed);
        }
        self.signer.sign(text)
    }

    fn send(&mut self, _texts: &[&[u8]]) {}

    fn receive(&mut self, text: &[u8]) -> Result<Vec<u8>, SignerFault> {
        self.sign(text)
    }

    fn algorithm(&self) -> &Algorithm {
        self.signer.algorithm()
    }

    fn faults(&self) -> u64 {
        self.faults.wrapping_add(self.signer.faults())
    }

    ghost unsent = { λ x texts. S.unsent x.signer texts };

    ghost sent_after = { λ x y z texts others first second.
        S.sent_after x.signer y.signer z.signer texts others first second };

    ghost all_signed = { λ x y texts answers awaits. awaits.signed };

    ghost all_sent = { λ x y texts answers outstanding awaits.
        S.sent_after x.signer y.signer y.signer texts outstanding awaits.went_out (S.unsent y.signer outstanding) };
}
