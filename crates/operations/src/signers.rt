//! Signers, and what reaches them.
ghost use Rattle.std.specs.Prelude.{IfErr, IfOk};
ghost use Rattle.operations.specs.DatabaseFaults.{IsUnreached};
ghost use Rattle.operations.specs.declared.fault.OperationFault.{OperationFault as SpecFault};

use crate::fault::OperationFault;
use cms::{Algorithm, KeyedHash, Signer, SignerFault};
use sessions::{KeyHolderSigner, Session};
use std::io::Stderr;

/// What reaches one signer, and is used up by that. What an instance tells of a signer that is reached, or left again,
/// is known only of what was reached or left by it.
pub trait Signers: Drop {
    /// The signer.
    type Reached: Signer + Drop;

    // this signer is reached
    ghost reaches: { Self → Self.Reached → Type 0 };

    // none is reached, by the refusal
    ghost refuses: { Self → SpecFault → Type 0 };

    // this signer is left
    ghost leaves: { Self.Reached → Type 0 };

    /// Reaches it. `Unreached` where that can't be done.
    fn reach(self) -> Result<Self::Reached, OperationFault>
        ensures reached { IfOk result (reaches self) }
        ensures refused { IfErr result (refuses self) }
        ensures refusals { IfErr result IsUnreached };

    /// Leaves it: nothing is asked of it any more.
    fn leave(reached: Self::Reached)
        ensures { leaves reached };
}

/// A signer that was reached, whichever it is: it answers as that.
#[derive(Drop)]
pub enum AnySigner<S, K> {
    /// The stand-in.
    Keyed(KeyedHash),
    /// One session.
    Session(S),
    /// Sessions, of which another is opened where one was lost.
    Reconnecting(K),
}

/// The stand-in, or a key holder that this machine reaches.
pub type HostSigner<'a> = AnySigner<
    Session<'a, HostRuntime>,
    KeyHolderSigner<'a, HostRuntime, Stderr>,
>;

impl<S: Signer, K: Signer> Signer for AnySigner<S, K> {
    ghost use Rattle.operations.specs.AnySigner.{algorithm_of, faults_of, SignsAsAny, SendsAsAny, AwaitsAsAny};
    ghost use Rattle.operations.specs.auxiliary.AnySignerLaws.{sends_nothing, sends_after, all_signed, all_sent};

    ghost signs = { SignsAsAny S.signs K.signs };

    ghost sent = { SendsAsAny S.sent K.sent };

    ghost awaits = { AwaitsAsAny S.awaits K.awaits };

    ghost fault_count = { faults_of S.fault_count K.fault_count };

    ghost algorithm_octets = { algorithm_of S.algorithm_octets K.algorithm_octets };

    fn sign(&mut self, text: &[u8]) -> Result<Vec<u8>, SignerFault> {
        match self {
            AnySigner::Keyed(signer) => signer.sign(text),
            AnySigner::Session(signer) => signer.sign(text),
            AnySigner::Reconnecting(signer) => signer.sign(text),
        }
    }

    fn send(&mut self, texts: &[&[u8]]) {
        match self {
            AnySigner::Keyed(signer) => signer.send(texts),
            AnySigner::Session(signer) => signer.send(texts),
            AnySigner::Reconnecting(signer) => signer.send(texts),
        }
    }

    fn receive(&mut self, text: &[u8]) -> Result<Vec<u8>, SignerFault> {
        match self {
            AnySigner::Keyed(signer) => signer.receive(text),
            AnySigner::Session(signer) => signer.receive(text),
            AnySigner::Reconnecting(signer) => signer.receive(text),
        }
    }

    fn algorithm(&self) -> &Algorithm {
        match self {
            AnySigner::Keyed(signer) => signer.algorithm(),
            AnySigner::Session(signer) => signer.algorithm(),
            AnySigner::Reconnecting(signer) => signer.algorithm(),
        }
    }

    fn faults(&self) -> u64 {
        match self {
            AnySigner::Keyed(signer) => signer.faults(),
            AnySigner::Session(signer) => signer.faults(),
            AnySigner::Reconnecting(signer) => signer.faults(),
        }
    }

    ghost unsent = { sends_nothing S.sent K.sent S.unsent K.unsent };

    ghost sent_after = { sends_after S.sent K.sent S.sent_after K.sent_after };

    ghost all_signed = { all_signed S.awaits K.awaits S.signs K.signs S.all_signed K.all_signed };

    ghost all_sent = { all_sent S.awaits K.awaits S.sent K.sent S.all_sent K.all_sent };
}
