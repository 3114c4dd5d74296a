//! A request and its answer.
ghost use Rattle.std.specs.Prelude.{◌≡◌, ◌⊎◌, length, take, List, Option, ℕ, ℤ, true, IfSome, MatchBool, MatchOption};
ghost use Rattle.std.specs.Io.KnownBytes.{Consumes, IsAtEnd};
ghost use Rattle.policy.specs.{Record.PolicyValue, View.policy_view};
ghost use Rattle.desk.specs.Batches.{Question, stamp_for};
ghost use Rattle.desk.specs.{Answers.reply_as, MachineRuns.Told, Together.question_view};
ghost use Rattle.service.specs.Known.{IsDue, IsDueAtEnd, IsDueInPlace};
ghost use Rattle.service.specs.Served.{Sends, Serves, TellsCut, TellsFailure, TellsFailureByRows};
ghost use Rattle.service.specs.Stamps.{AsksStamp, AsksWhere, ReadsWhere};
ghost use Rattle.service.specs.{Answers.answer_to, Received.ReceivedValue, Received.IsAll, Views.IsInPlace};

use crate::answer::Occasion;
use crate::checks::{shows_keys, stamp_asked};
use crate::context::{Context, Surroundings};
use crate::due::Due;
use crate::handlers::handle;
use crate::head::Head;
use crate::request::Request;
use crate::responses::{out_of_memory, refuse, write_reply};
use crate::routes::{Action, Routes};
use crate::served::Served;
use audit::Output;
use book::Book;
use cms::Signer;
use desk::{Asked, Desk, Reply};
use policy::Policy;
use std::alloc::Global;
use std::io::Read;

/// What became of a request, by the octets that came of it.
#[derive(Clone, Copy)]
pub struct Exchanged {
    /// What became of it.
    pub served: Served,
    /// It was whole, and nothing that came or may come follows it.
    pub is_all: bool,
}

/// Gives a request what is due to it.
fn give<W: Output, B: Book + Drop, G: Signer>(
    surroundings: Surroundings,
    due: Due<'_>,
    desk: &mut Desk<'_, B>,
    signer: &mut G,
    writer: &mut W,
) -> Served
    requires { IsDueInPlace due }
    ensures setting { desk.new.setting ≡ desk.old.setting }
    ensures honest { B.honest desk.new.store → B.honest desk.old.store }
    ensures served { (steps : List Told) × ((r : ReceivedValue) → IsDue r due.entry
        → (before after : Option (List ℕ)) → Consumes before after (take r.taken r.octets)
        → (r.is_ended ≡ true → r.taken ≡ length r.octets → IsAtEnd after)
        → Serves B.Standing G.signs G.fault_count W.contents surroundings.reading (record {
          input = before;
          input_after = after;
          writer = writer.old;
          writer_after = writer.new;
          desk = desk.old;
          desk_after = desk.new;
          signer = signer.old;
          signer_after = signer.new;
        }) steps result) }
    ensures cut { IsDueAtEnd due.entry → TellsCut result }
    ensures failed { TellsFailure (W.failures writer.old) (W.failures writer.new) result
        ⊎ ((r : ReceivedValue) → IsDue r due.entry → AsksWhere desk.old.setting.file surroundings.reading
        (TellsFailureByRows B.Standing W.contents W.failures surroundings.reading writer.old writer.new desk.old
        desk.new result) r) }
{
    let at = Occasion {
        reading: surroundings.reading,
    };
    match due {
        Due::Nothing => Served::Closed,
        Due::Refusal(refusal) => refuse(writer, at, refusal),
        Due::Answer(action, head, body) => {
            let context = Context {
                alloc: surroundings.alloc,
                octets: surroundings.octets,
                at,
                head,
                body,
            };
            handle(action, &context, desk, signer, writer)
        }
    }
}

impl Request {
    /// Answers it by the octets that came, of which those behind it aren't looked at. One to which octets are wanting
    /// is refused: by status 400 where the input ended, and else, as there is no memory for them, by 503.
    pub fn serve<W: Output, B: Book + Drop, G: Signer>(
        &self,
        surroundings: Surroundings,
        desk: &mut Desk<'_, B>,
        signer: &mut G,
        writer: &mut W,
    ) -> Exchanged
        ensures setting { desk.new.setting ≡ desk.old.setting }
        ensures honest { B.honest desk.new.store → B.honest desk.old.store }
        ensures served { (steps : List Told) × ((before after : Option (List ℕ))
            → Consumes before after (take self.now.taken self.now.octets)
            → (self.now.is_ended ≡ true → self.now.taken ≡ length self.now.octets → IsAtEnd after)
            → Serves B.Standing G.signs G.fault_count W.contents surroundings.reading (record {
              input = before;
              input_after = after;
              writer = writer.old;
              writer_after = writer.new;
              desk = desk.old;
              desk_after = desk.new;
              signer = signer.old;
              signer_after = signer.new;
            }) steps result.served) }
        ensures all { result.is_all ≡ true → IsAll self.now.octets }
        ensures cut { self.now.is_wanting ≡ true → self.now.is_ended ≡ true → TellsCut result.served }

        ensures failed { TellsFailure (W.failures writer.old) (W.failures writer.new) result.served
            ⊎ AsksWhere desk.old.setting.file surroundings.reading (TellsFailureByRows B.Standing W.contents
            W.failures surroundings.reading writer.old writer.new desk.old desk.new result.served) self.now }
    {
        Exchanged {
            served: give(surroundings, self.due(), desk, signer, writer),
            is_all: self.is_all(),
        }
    }

    /// Its head and its body, where it is whole and asks for a stamp. None where something else is due.
    fn stamp_due(&self) -> Option<(Head<'_>, &[u8])>
        ensures in_place { IfSome result (λ whole. IsInPlace whole.0) }
        ensures due { MatchOption result
            ((file : PolicyValue) (reading : ℤ) (asked : Question) → AsksStamp file reading self.now asked → ⊥)
            (λ whole. IsDue self.now (Due.Answer Action.Stamp whole.0 whole.1)) }
    {
        let Due::Answer(action, head, body) = self.due() else {
            return None;
        };
        if !action.is_stamp() {
            return None;
        }
        Some((head, body))
    }

    /// Whether it asks for a stamp, by whatever policy file. No key is looked for in one.
    pub fn asks_stamp(&self) -> bool
        ensures { MatchBool result
            ((file : PolicyValue) (reading : ℤ) → (asked : Question) × AsksStamp file reading self.now asked)
            ((file : PolicyValue) (reading : ℤ) (asked : Question) → AsksStamp file reading self.now asked → ⊥) }
    {
        let Some((head, _)) = self.stamp_due() else {
            return false;
        };
        if shows_keys(head) {
            return false;
        }
        true
    }

    /// The stamp that it asks for, as `Desk::answer_each` takes it, where that is what is due to it: it is whole, and
    /// no check fails. None where something else is due. The reading is the clock's, in microseconds.
    pub fn stamp<'r>(&'r self, policy: &'r Policy, reading: i64) -> Option<Asked<'r>>
        ensures { MatchOption result
            ((asked : Question) → AsksStamp (policy_view policy.now) reading self.now asked → ⊥)
            (λ asked. AsksStamp (policy_view policy.now) reading self.now (question_view asked)) }
    {
        let Some((head, body)) = self.stamp_due() else {
            return None;
        };
        stamp_asked(policy, Occasion { reading }, head, body).ok()
    }

    /// Writes the reply to the stamp that it asks for, given at that reading.
    pub fn write_stamped<W: Output>(&self, reading: i64, reply: &Reply, writer: &mut W) -> Exchanged
        ensures sent { (asked : Question) → Sends W.contents reading writer.old writer.new
            (answer_to (stamp_for asked) (reply_as reply.now)) result.served }
        ensures failed { TellsFailure (W.failures writer.old) (W.failures writer.new) result.served }
        ensures all { result.is_all ≡ true → IsAll self.now.octets }
    {
        Exchanged {
            served: write_reply(writer, Occasion { reading }, reply),
            is_all: self.is_all(),
        }
    }
}

/// Reads one request, has the desk take the one step that it asks for, and writes one answer (RFC 9112, RFC 3161 3.4).
///
/// It asks the reader for no octet behind the request, and for none once it is refused. `Closed` where the input ends
/// before any octet, and `ReadFailed` where a read fails; nothing is written then, and nothing done. `WriteFailed`
/// where a write fails or takes nothing; what the desk did stands. Want of memory here is answered by status 503. A
/// desk that wants memory, or whose store or signer fails, is told by the reply's rule 12 on `/tsp`, and by 503
/// elsewhere. An auditor's extract is written row by row, and no row is kept: it is `WriteFailed` too where the store
/// or memory fails once the answer is begun.
pub fn serve_over<R: Read, W: Output, B: Book + Drop, G: Signer>(
    surroundings: Surroundings,
    reader: &mut R,
    writer: &mut W,
    desk: &mut Desk<'_, B>,
    signer: &mut G,
) -> Served
    ensures setting { desk.new.setting ≡ desk.old.setting }
    ensures honest { B.honest desk.new.store → B.honest desk.old.store }
    ensures failed { TellsFailure (W.failures writer.old) (W.failures writer.new) result
        ⊎ ReadsWhere desk.old.setting.file surroundings.reading (TellsFailureByRows B.Standing W.contents W.failures
        surroundings.reading writer.old writer.new desk.old desk.new result) (R.remaining reader.old)
        (R.remaining reader.new) }
    ensures served { (steps : List Told) × Serves B.Standing G.signs G.fault_count W.contents surroundings.reading
        (record {
          input = R.remaining reader.old;
          input_after = R.remaining reader.new;
          writer = writer.old;
          writer_after = writer.new;
          desk = desk.old;
          desk_after = desk.new;
          signer = signer.old;
          signer_after = signer.new;
        }) steps result }
{
    let alloc = surroundings.alloc;
    let Ok(routes) = Routes::new(alloc) else {
        let at = Occasion {
            reading: surroundings.reading,
        };
        return out_of_memory(writer, at);
    };
    let mut request = Request::new(alloc);
    'reading: while request.is_open() {
        match request.read(&routes, reader) {
            Ok(()) => {}
            Err(_) => return Served::ReadFailed,
        }
    }
    request.serve(surroundings, desk, signer, writer).served
}

/// Serves one request as `serve_over` does, of a database whose octets aren't known. The reading is the clock's, in
/// microseconds.
pub fn serve_one<R: Read, W: Output, B: Book + Drop, G: Signer>(
    alloc: Global,
    reader: &mut R,
    writer: &mut W,
    desk: &mut Desk<'_, B>,
    reading: i64,
    signer: &mut G,
) -> Served
    ensures setting { desk.new.setting ≡ desk.old.setting }
    ensures honest { B.honest desk.new.store → B.honest desk.old.store }
    ensures failed { TellsFailure (W.failures writer.old) (W.failures writer.new) result
        ⊎ ReadsWhere desk.old.setting.file reading (TellsFailureByRows B.Standing W.contents W.failures reading
        writer.old writer.new desk.old desk.new result) (R.remaining reader.old) (R.remaining reader.new) }
    ensures served { (steps : List Told) × Serves B.Standing G.signs G.fault_count W.contents reading (record {
      input = R.remaining reader.old;
      input_after = R.remaining reader.new;
      writer = writer.old;
      writer_after = writer.new;
      desk = desk.old;
      desk_after = desk.new;
      signer = signer.old;
      signer_after = signer.new;
    }) steps result }
{
    let surroundings = Surroundings {
        alloc,
        reading,
        octets: None,
    };
    serve_over(surroundings, reader, writer, desk, signer)
}
