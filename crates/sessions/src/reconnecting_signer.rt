//! A signer whose session is opened anew where it was lost.
ghost use Rattle.std.specs.Prelude.{◌≡◌, ◌∷◌, [], Option, IfSome};

use cms::{Algorithm, AnswerRoom, Pipeline, Signer, SignerFault};
use std::alloc::Global;
use std::marker::Model;

/// Opens sessions of signers.
pub trait Sessions<S> {
    /// A session that was just opened.
    ghost fresh: { S → Type 0 };

    /// What opening does: what opens them before, the session, if there is one, and what opens them after.
    ghost opens: { Self → Option S → Self → Type 0 };

    /// What telling of a signature does.
    ghost signed: { Self → Self → Type 0 };

    /// What telling of a lost session does.
    ghost loses: { Self → S → Self → Type 0 };

    /// Another session, of signatures of that algorithm; none where none can be opened now.
    fn open(&mut self, algorithm: &Algorithm) -> Option<S>
        ensures fresh { IfSome result fresh }
        ensures opens { opens self.old result self.new };

    /// A session gave a signature.
    fn signed(&mut self)
        ensures { signed self.old self.new };

    /// A session was lost.
    fn lost(&mut self, session: S)
        ensures { loses self.old session self.new };
}

/// Asks one session call after call. A call that fails loses it: that call is `Failed`, and at the next one another
/// session is opened, once. Where none can be, that call is `Failed` too. Each such call is counted.
///
/// Texts that are handed over are sent to the session at once. Where one fails, those behind it are `Failed`, and
/// nothing of them goes to another session. Where memory wants for all of them, each is asked for when its answer is
/// received. Where others are handed over before all answers were received, the session is lost, and they are `Failed`.
#[derive(Drop)]
pub struct ReconnectingSigner<S, O> {
    sessions: O,
    session: Option<S>,
    algorithm: Algorithm,
    faults: u64,
    /// Room for the answers that are to come.
    rooms: Vec<AnswerRoom>,
    /// The texts that are outstanding fail.
    is_lost: bool,
}

impl<S, O> Model for ReconnectingSigner<S, O> {
    ghost use Rattle.std.specs.Prelude.{vec_len};
    ghost use Rattle.sessions.specs.ReconnectingSigner.{ReconnectingState};

    ghost Value = { ReconnectingState S O };

    ghost view = { λ s. record {
      sessions = s.sessions;
      session = s.session;
      algorithm = s.algorithm;
      faults = s.faults;
      ahead = vec_len s.rooms;
      is_lost = s.is_lost;
    } };
}

impl<S: Pipeline + Drop, O: Sessions<S>> ReconnectingSigner<S, O> {
    ghost use Rattle.std.specs.Prelude.{◌≤◌, Some, None, IfNone, IfOk, true, false, vec_len};
    ghost use Rattle.std.specs.Hash.DefaultHasher.{wrapping_add};
    ghost use Rattle.cms.specs.{Signer.signed_by, Signer.count_after, declared.signer.SignerFault.TheVariants.Failed};
    ghost use Rattle.sessions.specs.ReconnectingSigner.{IsTaken, SignsRenewed, SendsRenewed};

    /// A signer of that algorithm with an open session, and what opens others. It keeps the allocator for room. Takes
    /// no memory.
    pub fn new(
        alloc: Global,
        sessions: O,
        session: S,
        algorithm: Algorithm,
    ) -> ReconnectingSigner<S, O>
        ensures { result ≡ record {
          sessions = sessions;
          session = Some session;
          algorithm = algorithm;
          faults = 0;
          ahead = 0;
          is_lost = false;
        } }
    {
        ReconnectingSigner {
            sessions,
            session: Some(session),
            algorithm,
            faults: 0,
            rooms: Vec::new(alloc),
            is_lost: false,
        }
    }

    /// The session that is open, or, where none is, one that was just opened. None is kept.
    fn taken(&mut self) -> Option<S>
        ensures taken { IfSome result (IsTaken O.fresh self.old.session) }
        ensures missing { IfNone result (self.old.session ≡ None) }
        ensures none_kept { self.new ≡ record self.old { sessions = self.new.sessions; session = None } }
        ensures opened { SendsRenewed S.sent O.fresh O.opens O.signed O.loses self.old []
            (record self.new { session = result }) }
    {
        match self.session.take() {
            Some(session) => Some(session),
            None => self.sessions.open(&self.algorithm),
        }
    }

    /// The texts that are outstanding fail, with the session that they were sent to.
    fn lose(&mut self, session: S)
        ensures lost { self.new ≡ record self.old { sessions = self.new.sessions; ahead = 0; is_lost = true } }
        ensures told { O.loses self.old.sessions session self.new.sessions }
    {
        self.rooms.truncate(0);
        self.is_lost = true;
        self.sessions.lost(session);
    }

    /// Counts a failure, after which the texts that are outstanding fail.
    fn fail(&mut self) -> SignerFault
        ensures counted { self.new ≡ record self.old { faults = wrapping_add self.old.faults 1; is_lost = true } }
        ensures failed { result ≡ Failed }
    {
        self.faults = self.faults.wrapping_add(1);
        self.is_lost = true;
        SignerFault::Failed
    }

    /// Asks the session that is open, or one that was just opened, for the signature of a text.
    fn ask(&mut self, text: &[u8]) -> Result<Vec<u8>, SignerFault>
        requires none_ahead { self.old.ahead ≡ 0 }
        requires not_lost { self.old.is_lost ≡ false }
        ensures signs { SignsRenewed S.signs O.fresh self.old text.now (signed_by result) self.new }
        ensures some { IfOk result (λ signature. 1 ≤ vec_len signature) }
        ensures few { IfOk result (λ signature. vec_len signature ≤ 4096) }
        ensures sent { SendsRenewed S.sent O.fresh O.opens O.signed O.loses self.old (text.now ∷ []) self.new }
        ensures none_ahead { self.new.ahead ≡ 0 }
        ensures lost { self.new.is_lost ≡ true → self.new.session ≡ None }
        ensures counted { self.new.faults ≡ count_after result self.old.faults }
        ensures same_algorithm { self.new.algorithm ≡ self.old.algorithm }
    {
        let Some(session) = self.taken() else {
            return Err(self.fail());
        };
        let mut session = session;
        match session.sign(text) {
            Ok(answer) => {
                self.session = Some(session);
                self.sessions.signed();
                Ok(answer)
            }
            Err(SignerFault::Memory) => {
                self.session = Some(session);
                Err(SignerFault::Memory)
            }
            Err(SignerFault::Failed) => {
                self.lose(session);
                Err(self.fail())
            }
        }
    }
}

impl<S: Pipeline + Drop, O: Sessions<S>> Signer for ReconnectingSigner<S, O> {
    ghost use Rattle.sessions.specs.ReconnectingSigner.{SignsRenewed, SendsRenewed, AwaitsRenewed, both};
    ghost use Rattle.sessions.specs.auxiliary.RenewedLaws.{sends_nothing, all_signed};

    ghost signs = { SignsRenewed S.signs O.fresh };

    ghost sent = { SendsRenewed S.sent O.fresh O.opens O.signed O.loses };

    ghost awaits = { AwaitsRenewed S.signs S.ahead O.fresh (SendsRenewed S.sent O.fresh O.opens O.signed O.loses) };

    ghost fault_count = { λ signer. signer.faults };

    ghost algorithm_octets = { λ signer. signer.algorithm };

    fn sign(&mut self, text: &[u8]) -> Result<Vec<u8>, SignerFault> {
        self.send(&[text]);
        self.receive(text)
    }

    fn send(&mut self, texts: &[&[u8]]) {
        if texts.is_empty() {
            return;
        }
        if !self.rooms.is_empty() {
            match self.session.take() {
                Some(session) => self.lose(session),
                None => {
                    self.rooms.truncate(0);
                    self.is_lost = true;
                }
            }
            return;
        }
        let Some(session) = self.taken() else {
            self.is_lost = true;
            return;
        };
        let mut session = session;
        match session.send_ahead(texts) {
            Ok(rooms) => {
                self.session = Some(session);
                self.rooms = rooms;
                self.is_lost = false;
            }
            Err(SignerFault::Memory) => {
                self.session = Some(session);
                self.is_lost = false;
            }
            Err(SignerFault::Failed) => self.lose(session),
        }
    }

    fn receive(&mut self, text: &[u8]) -> Result<Vec<u8>, SignerFault> {
        if self.is_lost {
            return Err(self.fail());
        }
        let Some(room) = self.rooms.pop() else {
            return self.ask(text);
        };
        let Some(session) = self.session.take() else {
            return Err(self.fail());
        };
        let mut session = session;
        match session.receive_ahead(room) {
            Ok(answer) => {
                self.session = Some(session);
                self.sessions.signed();
                Ok(answer)
            }
            Err(_) => {
                self.lose(session);
                Err(self.fail())
            }
        }
    }

    fn algorithm(&self) -> &Algorithm {
        &self.algorithm
    }

    fn faults(&self) -> u64 {
        self.faults
    }

    ghost unsent = { sends_nothing S.sent O.fresh O.opens O.signed O.loses };

    ghost sent_after = { λ x y z texts others first second. both x y z texts others first second };

    ghost all_signed = { all_signed S.signs S.ahead O.fresh
        (SendsRenewed S.sent O.fresh O.opens O.signed O.loses) };

    ghost all_sent = { λ x y texts answers outstanding awaits. awaits.went_out };
}
