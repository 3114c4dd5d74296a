//! Who signs.
ghost use Rattle.std.specs.Prelude.{◌≡◌, ℕ, ◌≤◌, List, [], ◌∷◌, ◌++◌, map, length, Result, IfOk, vec_len, vec_capacity};
ghost use Rattle.std.specs.List.{AllByRecursion};
ghost use Rattle.cms.specs.declared.signer.SignerFault.{SignerFault as SpecFault, TheVariants.Memory};
ghost use Rattle.cms.specs.Signer.{signed_by, count_after, count_after_each, SignsEach, IsSized};

use crate::algorithm::Algorithm;
use std::alloc::{AllocError, AllocFailed};
use thiserror::Error;

/// Why a signer gives no signature. Each refusal has a number.
#[derive(Clone, Copy, Debug, PartialEq, Eq, Error)]
pub enum SignerFault {
    /// The signer failed, and counted it.
    #[error("the signer failed")]
    Failed = 1,
    /// Memory ran out.
    #[error("out of memory")]
    Memory = 2,
}

impl From<AllocError> for SignerFault {
    ghost from_gives = { λ _ e. e ≡ Memory };

    fn from(_e: AllocError) -> SignerFault {
        SignerFault::Memory
    }
}

impl<T: Drop> From<AllocFailed<T>> for SignerFault {
    ghost from_gives = { λ _ e. e ≡ Memory };

    fn from(_e: AllocFailed<T>) -> SignerFault {
        SignerFault::Memory
    }
}

impl SignerFault {
    ghost use Rattle.cms.specs.Signer.{number_of};

    /// The refusal's number, 1 or 2.
    pub fn number(self) -> u8
        ensures { result ≡ number_of self }
    {
        self as u8
    }
}

/// Holds a key, and signs texts by it. A fault leaves it usable: it may be called again.
///
/// Texts are signed one after the other by `sign`; or they are handed to it by `send`, and an answer for each is taken
/// by `receive`, with other work between.
pub trait Signer {
    /// What a call does: the signer before it, the text, what is answered, and the signer after it.
    ghost signs: { Self → List ℕ → Result (List ℕ) SpecFault → Self → Type 0 };

    /// What goes out between two moments, whatever fails: nothing but some of these texts, in their order, each once.
    ghost sent: { Self → List (List ℕ) → Self → Type 0 };

    /// How far it is with texts that were handed to it: the signer before, the texts that were answered, their answers,
    /// those that are outstanding, and the signer now.
    ghost awaits: { Self → List (List ℕ) → List (Result (List ℕ) SpecFault) → List (List ℕ) → Self → Type 0 };

    /// How many calls have failed, modulo 2^64.
    ghost fault_count: { Self → ℕ };

    /// The encoding of the AlgorithmIdentifier of its signatures.
    ghost algorithm_octets: { Self → List ℕ };

    /// Signs a text. The signature has 1 to 4,096 octets. `Failed` is counted; `Memory` isn't.
    fn sign(&mut self, text: &[u8]) -> Result<Vec<u8>, SignerFault>
        ensures signs { signs self.old text.now (signed_by result) self.new }
        ensures some { IfOk result (λ signature. 1 ≤ vec_len signature) }
        ensures few { IfOk result (λ signature. vec_len signature ≤ 4096) }
        ensures sent { sent self.old (text.now ∷ []) self.new }
        ensures counted { fault_count self.new ≡ count_after result (fault_count self.old) }
        ensures same_algorithm { algorithm_octets self.new ≡ algorithm_octets self.old };

    /// Hands texts over, which are outstanding from then on. A signer may have all of them signed before the first
    /// answer is taken, or each when its answer is. What was outstanding before never gets an answer.
    fn send(&mut self, texts: &[&[u8]])
        ensures awaits { awaits self.old [] [] (map (λ text. text.now) texts.now) self.new }
        ensures counted { fault_count self.new ≡ fault_count self.old }
        ensures same_algorithm { algorithm_octets self.new ≡ algorithm_octets self.old };

    /// The answer to the next text that is outstanding, which is handed over once more.
    fn receive(&mut self, text: &[u8]) -> Result<Vec<u8>, SignerFault>
        ensures awaits { (x : Self) (texts : List (List ℕ)) (answers : List (Result (List ℕ) SpecFault))
            (outstanding : List (List ℕ)) → awaits x texts answers (text.now ∷ outstanding) self.old
            → awaits x (texts ++ (text.now ∷ [])) (answers ++ (signed_by result ∷ [])) outstanding self.new }
        ensures some { IfOk result (λ signature. 1 ≤ vec_len signature) }
        ensures few { IfOk result (λ signature. vec_len signature ≤ 4096) }
        ensures counted { fault_count self.new ≡ count_after result (fault_count self.old) }
        ensures same_algorithm { algorithm_octets self.new ≡ algorithm_octets self.old };

    /// Signs each text, one after the other, as `sign` does, whatever became of those before it: an answer for each, in
    /// their order. The caller has taken the room for the answers, so none is asked for here.
    fn sign_each(&mut self, texts: &[&[u8]], answers: &mut Vec<Result<Vec<u8>, SignerFault>>)
        requires empty { answers.old.items ≡ [] }
        requires room { length texts.now ≤ vec_capacity answers.old }
        ensures signs { SignsEach signs self.old (map (λ text. text.now) texts.now) (map signed_by answers.new.items)
            self.new }
        ensures as_many { vec_len answers.new ≡ length texts.now }
        ensures sized { AllByRecursion IsSized answers.new.items }
        ensures sent { sent self.old (map (λ text. text.now) texts.now) self.new }
        ensures counted { fault_count self.new ≡ count_after_each answers.new.items (fault_count self.old) }
        ensures same_algorithm { algorithm_octets self.new ≡ algorithm_octets self.old }
    {
        self.send(texts);
        for text in texts {
            answers.push_reserved(self.receive(text));
        }
    }

    /// The algorithm of its signatures. Takes no memory.
    fn algorithm(&self) -> &Algorithm
        ensures { result.now ≡ algorithm_octets self.now };

    /// How many calls have failed, modulo 2^64. Takes no memory.
    fn faults(&self) -> u64
        ensures { result ≡ fault_count self.now };

    /// Nothing goes out while nothing is done.
    ghost unsent: { (x : Self) (texts : List (List ℕ)) → sent x texts x };

    /// What goes out after something else.
    ghost sent_after: { (x y z : Self) (texts others : List (List ℕ)) → sent x texts y → sent y others z
        → sent x (texts ++ others) z };

    /// Texts that were handed over and have all their answers are signed one after the other.
    ghost all_signed: { (x y : Self) (texts : List (List ℕ)) (answers : List (Result (List ℕ) SpecFault))
        → awaits x texts answers [] y → SignsEach signs x texts answers y };

    /// Nothing else went out since they were handed over.
    ghost all_sent: { (x y : Self) (texts : List (List ℕ)) (answers : List (Result (List ℕ) SpecFault))
        (outstanding : List (List ℕ)) → awaits x texts answers outstanding y → sent x (texts ++ outstanding) y };
}
