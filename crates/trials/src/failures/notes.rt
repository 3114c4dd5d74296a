//! A signer that notes what it is given.
use cms::{Algorithm, Signer, SignerFault};
use std::alloc::{AllocError, Global};

/// A signer, and the texts that it was given or that were noted otherwise, in their order.
#[derive(Drop)]
pub struct NotingSigner<S> {
    alloc: Global,
    signer: S,
    texts: Vec<Vec<u8>>,
    /// Whether no text is missing.
    is_whole: bool,
}

impl<S> NotingSigner<S> {
    /// A signer with no text yet.
    pub fn new(alloc: Global, signer: S) -> NotingSigner<S> {
        NotingSigner {
            alloc,
            signer,
            texts: Vec::new(alloc),
            is_whole: true,
        }
    }

    /// The texts; none if one is missing.
    pub fn texts(&self) -> Option<&[Vec<u8>]> {
        self.is_whole.then_some(self.texts.as_slice())
    }

    /// Notes a text.
    pub fn note(&mut self, text: &[u8]) {
        if keep(self.alloc, &mut self.texts, text).is_err() {
            self.is_whole = false;
        }
    }
}

fn keep(alloc: Global, texts: &mut Vec<Vec<u8>>, text: &[u8]) -> Result<(), AllocError> {
    let text = Vec::from_slice(alloc, text)?;
    texts.push(text)?;
    Ok(())
}

impl<S: Signer> Signer for NotingSigner<S> {
    ghost use Rattle.cms.specs.Signer.{AwaitsInTurn};

    ghost signs = { λ before text answer after. S.signs before.signer text answer after.signer };

    ghost sent = { λ before texts after. S.sent before.signer texts after.signer };

    ghost awaits = { AwaitsInTurn (λ before text answer after. S.signs before.signer text answer after.signer)
        (λ before texts after. S.sent before.signer texts after.signer) };

    ghost fault_count = { λ signer. S.fault_count signer.signer };

    ghost algorithm_octets = { λ signer. S.algorithm_octets signer.signer };

    fn sign(&mut self, text: &[u8]) -> Result<Vec<u8>, SignerFault> {
        if keep(self.alloc, &mut self.texts, text).is_err() {
            self.is_whole = false;
        }
        self.signer.sign(text)
    }

    fn send(&mut self, _texts: &[&[u8]]) {}

    fn receive(&mut self, text: &[u8]) -> Result<Vec<u8>, SignerFault> {
        self.sign(text)
    }

    fn algorithm(&self) -> &Algorithm {
        self.signer.algorithm()
    }

    fn faults(&self) -> u64 {
        self.signer.faults()
    }

    ghost unsent = { λ x texts. S.unsent x.signer texts };

    ghost sent_after = { λ x y z texts others first second.
        S.sent_after x.signer y.signer z.signer texts others first second };

    ghost all_signed = { λ x y texts answers awaits. awaits.signed };

    ghost all_sent = { λ x y texts answers outstanding awaits.
        S.sent_after x.signer y.signer y.signer texts outstanding awaits.went_out (S.unsent y.signer outstanding) };
}
