//! Texts that are sent to a session ahead of its answers to those before them.
ghost use Rattle.std.specs.Prelude.{◌≡◌, ℕ, ◌<◌, ◌≤◌, List, [], ◌∷◌, map, length, IfOk, IfErr, OnErr, vec_len};
ghost use Rattle.cms.specs.{Ahead.SendsAhead, Ahead.ReceivesAhead, Signer.signed_by, Signer.count_after};
ghost use Rattle.cms.specs.declared.signer.SignerFault.TheVariants.{Failed};

use crate::answer_room::AnswerRoom;
use crate::signer::{Signer, SignerFault};

/// A session that takes texts ahead of its answers to those before them, and is closed by the first that fails.
pub trait Pipeline: Signer {
    /// As if the session were the first, and these texts outstanding, it is the second.
    ghost ahead: { Self → List (List ℕ) → Self → Type 0 };

    /// It is closed.
    ghost closed: { Self → Type 0 };

    /// Sends texts, all at once: room for an answer to each. Memory for all is taken first; where there is none, or a
    /// text is too long to be sent with others, it is `Memory`, and nothing is done.
    fn send_ahead(&mut self, texts: &[&[u8]]) -> Result<Vec<AnswerRoom>, SignerFault>
        requires some { 0 < length texts.now }
        ensures sends { SendsAhead Self.signs ahead closed self.old (map (λ text. text.now) texts.now) result self.new }
        ensures sent { Self.sent self.old (map (λ text. text.now) texts.now) self.new }
        ensures counted { Self.fault_count self.new ≡ count_after result (Self.fault_count self.old) }
        ensures same_algorithm { Self.algorithm_octets self.new ≡ Self.algorithm_octets self.old };

    /// The answer to the next text that is outstanding. Nothing goes out, and no memory is taken.
    fn receive_ahead(&mut self, room: AnswerRoom) -> Result<Vec<u8>, SignerFault>
        ensures receives { (x : Self) (text : List ℕ) (texts : List (List ℕ)) → ahead x (text ∷ texts) self.old
            → ReceivesAhead Self.signs ahead x text texts (signed_by result) self.new }
        ensures some { IfOk result (λ signature. 1 ≤ vec_len signature) }
        ensures few { IfOk result (λ signature. vec_len signature ≤ 4096) }
        ensures failed { IfErr result (λ fault. fault ≡ Failed) }
        ensures closed { OnErr result (closed self.new) }
        ensures sent { Self.sent self.old [] self.new }
        ensures counted { Self.fault_count self.new ≡ count_after result (Self.fault_count self.old) }
        ensures same_algorithm { Self.algorithm_octets self.new ≡ Self.algorithm_octets self.old };

    /// With nothing outstanding it is as it was.
    ghost all_received: { (x y : Self) → ahead x [] y → y ≡ x };

    /// Over a session that is closed nothing goes out.
    ghost silent: { (x y : Self) (texts : List (List ℕ)) → closed x → Self.sent x texts y → Self.sent x [] y };
}
