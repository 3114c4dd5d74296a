//! A signer at the other end of a connection.
ghost use Rattle.std.specs.Prelude.{◌≡◌, ◌≤◌, [], true, IfOk, vec_len};
ghost use Rattle.std.specs.Hash.DefaultHasher.{wrapping_add};
ghost use Rattle.cms.specs.{Framed.Asks, Framed.over_ends, Signer.signed_by};
ghost use Rattle.cms.specs.declared.signer.SignerFault.TheVariants.{Failed};

use crate::algorithm::Algorithm;
use crate::answer_room::{AnswerRoom, MAX_ANSWER};
use crate::frames::{Stopped, frame_of, frames_of, receive, rooms_of, write_all};
use crate::pipeline::Pipeline;
use crate::signer::{Signer, SignerFault};
use std::alloc::Global;
use std::io::{Read, Write};
use std::marker::Model;

/// Asks a key holder over any reader and writer: writes the text's frame, and reads the answer's. A frame is octets
/// with their number in front, in four octets, most significant first, and is written as a whole.
///
/// Text of 2^32 octets or more, an answer of none or of more than 4,096 octets, an end of the input, a read or a write
/// that fails or takes nothing: each is `Failed`, and closes the session. From then on each call is `Failed` and
/// touches neither end. Want of memory is met first, and leaves the session open.
///
/// By itself it asks for one text at a time, when its answer is received. As a `Pipeline` it sends the frames of many,
/// as few writes as the writer takes.
#[derive(Drop)]
pub struct FramedSigner<R: Read, W: Write> {
    alloc: Global,
    reader: R,
    writer: W,
    algorithm: Algorithm,
    faults: u64,
    is_closed: bool,
}

/// Contracts see both ends, and the octets that they tell.
impl<R: Read, W: Write> Model for FramedSigner<R, W> {
    ghost use Rattle.cms.specs.Framed.{FramedState};

    ghost Value = { FramedState R W };

    ghost view = { λ s. record {
      reader = s.reader;
      writer = s.writer;
      unread = R.remaining s.reader;
      written = W.contents s.writer;
      algorithm = s.algorithm;
      faults = s.faults;
      is_closed = s.is_closed;
    } };
}

/// Asks for the signature of a text over an open session.
fn ask<R: Read, W: Write>(
    alloc: Global,
    reader: &mut R,
    writer: &mut W,
    text: &[u8],
) -> Result<Vec<u8>, SignerFault>
    ensures asks { Asks (over_ends R.remaining W.contents reader.old writer.old []) text.now (signed_by result)
        (over_ends R.remaining W.contents reader.new writer.new []) }
    ensures some { IfOk result (λ answer. 1 ≤ vec_len answer) }
    ensures few { IfOk result (λ answer. vec_len answer ≤ 4096) }
{
    let mut answer = vec![in alloc; 0u8; MAX_ANSWER]?;
    if text.len() >= 1 << 32 {
        return Err(SignerFault::Failed);
    }
    let frame = frame_of(alloc, text)?;
    match write_all(writer, &frame) {
        Ok(()) => {}
        Err(Stopped) => return Err(SignerFault::Failed),
    }
    match receive(reader, &mut answer) {
        Ok(()) => Ok(answer),
        Err(Stopped) => Err(SignerFault::Failed),
    }
}

impl<R: Read, W: Write> FramedSigner<R, W> {
    /// A signer over an open session, of signatures of that algorithm. It keeps the allocator for its answers. Takes no
    /// memory.
    ///
    /// What the writer takes has to reach the key holder without a `flush`.
    pub fn new(alloc: Global, reader: R, writer: W, algorithm: Algorithm) -> FramedSigner<R, W>
        ensures { result ≡ over_ends R.remaining W.contents reader writer algorithm }
    {
        FramedSigner {
            alloc,
            reader,
            writer,
            algorithm,
            faults: 0,
            is_closed: false,
        }
    }

    /// Counts a failure, which closes the session.
    fn fail(&mut self) -> SignerFault
        ensures closed { self.new ≡ record self.old { faults = wrapping_add self.old.faults 1; is_closed = true } }
        ensures failed { result ≡ Failed }
    {
        self.faults = self.faults.wrapping_add(1);
        self.is_closed = true;
        SignerFault::Failed
    }
}

impl<R: Read, W: Write> Signer for FramedSigner<R, W> {
    ghost use Rattle.cms.specs.{Framed.SignsByFrame, Sent.SendsFrames, Signer.AwaitsInTurn};
    ghost use Rattle.cms.specs.auxiliary.SentLaws.{sends_nothing, sends_after, sends_others};

    ghost signs = { SignsByFrame };

    ghost sent = { SendsFrames };

    ghost awaits = { AwaitsInTurn SignsByFrame SendsFrames };

    ghost fault_count = { λ signer. signer.faults };

    ghost algorithm_octets = { λ signer. signer.algorithm };

    #[tactic(auto, using(crate::proofs::Sending::asks_once, crate::proofs::Sending::writes_nothing))]
    fn sign(&mut self, text: &[u8]) -> Result<Vec<u8>, SignerFault> {
        if self.is_closed {
            return Err(self.fail());
        }
        match ask(self.alloc, &mut self.reader, &mut self.writer, text) {
            Ok(answer) => Ok(answer),
            Err(SignerFault::Memory) => Err(SignerFault::Memory),
            Err(SignerFault::Failed) => Err(self.fail()),
        }
    }

    fn send(&mut self, _texts: &[&[u8]]) {}

    fn receive(&mut self, text: &[u8]) -> Result<Vec<u8>, SignerFault> {
        self.sign(text)
    }

    fn algorithm(&self) -> &Algorithm {
        &self.algorithm
    }

    fn faults(&self) -> u64 {
        self.faults
    }

    ghost unsent = { sends_nothing };

    ghost sent_after = { sends_after };

    ghost all_signed = { λ x y texts answers awaits. awaits.signed };

    ghost all_sent = { λ x y texts answers outstanding awaits. sends_others x texts outstanding y awaits.went_out };
}

impl<R: Read, W: Write> Pipeline for FramedSigner<R, W> {
    ghost use Rattle.cms.specs.{Ahead.IsAhead, auxiliary.SentLaws.sends_no_more};

    ghost ahead = { IsAhead };

    ghost closed = { λ session. session.is_closed ≡ true };

    #[tactic(auto, using(crate::proofs::Sending::sending_laws))]
    fn send_ahead(&mut self, texts: &[&[u8]]) -> Result<Vec<AnswerRoom>, SignerFault> {
        if self.is_closed {
            return Err(self.fail());
        }
        let rooms = rooms_of(self.alloc, texts.len())?;
        let frames = frames_of(self.alloc, texts)?;
        match write_all(&mut self.writer, &frames) {
            Ok(()) => Ok(rooms),
            Err(Stopped) => Err(self.fail()),
        }
    }

    fn receive_ahead(&mut self, room: AnswerRoom) -> Result<Vec<u8>, SignerFault> {
        if self.is_closed {
            return Err(self.fail());
        }
        let AnswerRoom { octets } = room;
        let mut answer = octets;
        match receive(&mut self.reader, &mut answer) {
            Ok(()) => Ok(answer),
            Err(Stopped) => Err(self.fail()),
        }
    }

    ghost all_received = { λ x y ahead. ahead };

    ghost silent = { sends_no_more };
}
