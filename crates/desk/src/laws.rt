//! What holds of the machine, whatever it is asked and whatever store, signer and memory answer.
ghost use Rattle.std.specs.Prelude.{◌≡◌, ℕ, ◌+◌, ◌<◌, ◌≤◌, ℤ, List, [], map, Option, Some};
ghost use Rattle.der.specs.Node.{encoding};
ghost use Rattle.policy.specs.Record.{AccountValue, PolicyValue};
ghost use Rattle.cms.specs.SignedData.{attribute_text};
ghost use Rattle.tsp.specs.{Rejection.rejection, Rules.IsFirstFailing, declared.rule.Rule.Rule};
ghost use Rattle.decide.specs.Clock.{KeepsAccuracy};
ghost use Rattle.book.specs.History.{History, ReservationValue, greatest_serial, reservation_at};
ghost use Rattle.book.specs.{Readers.Reader, Rights.is_reader, Sound.IsSound, Sound.greatest_number};
ghost use Rattle.desk.specs.Batches.{Question, HaveEffects, all_reserved, batch_of, once_reserved, after_batch};
ghost use Rattle.desk.specs.Batches.{MoveInTurn, IsRunTogether, IsLeftInBatch, IsCutTogether};
ghost use Rattle.desk.specs.Command.{InForce, Setting, PendingValue, Command, Stamp, Succeed, Answer, Stamped};
ghost use Rattle.desk.specs.Laws.{IsCommandOfOther, Concerns, StaysFor, IsGrant, IsRejection, IsReservedText};
ghost use Rattle.desk.specs.Laws.{IsPendingOf, IsOfPlan, IsUnanswered, Continues, AreMet, AreCommandsOf, RunsAlike};
ghost use Rattle.desk.specs.MachineRuns.{IsProper, Told, Journey, HasProperties, Runs, after, cut};
ghost use Rattle.desk.specs.{Agreement.Agree, Command.Rejected, Command.Begun, Command.Done, Content.IsSoundInFull};
ghost use Rattle.desk.specs.{Effects.Effect, Facts.clock_of, Findings.StampPlan, Findings.IsAllowed, Findings.HoldsAt};
ghost use Rattle.desk.specs.{Outcome.Outcome, Promises.KeepsPromises, Readers.rights_along, Serials.given_along};
ghost use Rattle.desk.specs.{Serials.AreInOrder, Sight.ShowsExactly, MachineStep.HasEffect, MachineStep.IsMet};
ghost use Rattle.desk.specs.{Names.IsNameableFor, Succession.IsInForce, Succession.IsNameable, Viewers.viewer_in};

use crate::desk::Desk;
use book::{Book, histories_show_the_same};
use cms::Signer;
use decide::good_clocks_keep_the_accuracy;
use tsp::requests_have_one_reading;

/// A desk's setting is proper.
pub fn desks_are_proper<B: Book + Drop>(desk: &Desk<'_, B>)
    ensures { IsProper desk.now.setting }
{
    let _settings = desk.settings;
}

/// A command leaves a history that is sound in full so, and so does a stop in the midst of it.
pub fn steps_leave_sound_histories()
    ensures whole { (s : Setting) (c : Command) (o : Outcome) (e : Effect) (b : History)
        → IsProper s → IsNameableFor s c b → IsSoundInFull b → IsMet c b → HasEffect s c o b e
        → IsSoundInFull (after e b) }
    ensures stopped { (s : Setting) (c : Command) (o : Outcome) (e : Effect) (b : History) (k : ℕ)
        → IsProper s → IsNameableFor s c b → IsSoundInFull b → IsMet c b → HasEffect s c o b e
        → IsSoundInFull (cut k e b) }
{
    requests_have_one_reading();
}

/// A stamp is granted only where no rule of 1 to 11 fails, under the greatest serial number plus one, which is above
/// each that was reserved, with the token over the one TSTInfo of its plan and the signer's answer; and it is rejected
/// by the first rule that fails, or by rule 12 where store, signer or memory didn't answer or no serial number is
/// left. Where the calls that it makes of them are answered and a serial number is left, it is granted where no
/// rule fails, and else rejected by the first that does. What `begin`, `finish` and a new deposit grant is of its plan
/// too, with its certificate and algorithm, and they are rejected by the first rule that fails (`plan`).
pub fn grants_are_of_their_plan()
    ensures granted { (s : Setting) (account : Option AccountValue) (reading : ℤ) (octets : List ℕ) (o : Outcome)
        (b : History) (e : Effect) (serial : ℕ) (reply : List ℕ)
        → HasEffect s (Stamp account reading octets) o b e → e.says ≡ Stamped serial reply
        → IsGrant s account reading octets o b serial reply }
    ensures rejected { (s : Setting) (account : Option AccountValue) (reading : ℤ) (octets : List ℕ) (o : Outcome)
        (b : History) (e : Effect) (rule : Rule)
        → HasEffect s (Stamp account reading octets) o b e → e.says ≡ Rejected rule
        → IsRejection s account reading octets o b rule }
    ensures grants { (s : Setting) (account : Option AccountValue) (reading : ℤ) (octets : List ℕ) (o : Outcome)
        (b : History) (e : Effect) (plan : StampPlan)
        → IsAllowed s.file account reading octets b plan → greatest_serial b < greatest_number → (IsUnanswered o → ⊥)
        → HasEffect s (Stamp account reading octets) o b e
        → (reply : List ℕ) × (e.says ≡ Stamped (greatest_serial b + 1) reply) }
    ensures rejects { (s : Setting) (account : Option AccountValue) (reading : ℤ) (octets : List ℕ) (o : Outcome)
        (b : History) (e : Effect) (rule : Rule) → IsFirstFailing (HoldsAt s.file account reading octets b) rule
        → (IsUnanswered o → ⊥) → HasEffect s (Stamp account reading octets) o b e → e.says ≡ Rejected rule }
    ensures plan { (s : Setting) (c : Command) (o : Outcome) (b : History) (e : Effect) → IsSound b
        → HasEffect s c o b e → IsOfPlan s c o b e e.says }
    ensures above { (b : History) (n : ℕ) (r : ReservationValue) → reservation_at n b ≡ Some r
        → n ≤ greatest_serial b }
{
    requests_have_one_reading();
}

/// What is given out by a plan, of a stamp, a beginning or a new deposit (`IsGrant`, `IsBegunOf`, `IsDeposited`), keeps
/// the promise of the moment: each moment that is at most the clock's deviation away from now, as the history has the
/// calibration, is at most the policy file's accuracy away from the genTime that its TSTInfo states.
pub fn plans_keep_their_moment()
    ensures { (file : PolicyValue) (account : Option AccountValue) (reading : ℤ) (octets : List ℕ) (b : History)
        (plan : StampPlan) → IsAllowed file account reading octets b plan
        → KeepsAccuracy file.counter (clock_of reading b) plan.gen_time }
{
    good_clocks_keep_the_accuracy();
}

/// After a succession that is done, and so after an opening, the identity that was installed last is the one that was
/// brought (`brought`); where it was so before, nothing is installed again (`again`).
pub fn successions_bring_their_identity()
    ensures brought { (s : Setting) (next : InForce) (o : Outcome) (b : History) (e : Effect)
        → HasEffect s (Succeed next) o b e → e.says ≡ Done → IsInForce next (after e b) }
    ensures again { (s : Setting) (next : InForce) (o : Outcome) (b : History) (e : Effect) → IsInForce next b
        → HasEffect s (Succeed next) o b e → e.adds ≡ [] }
{}

/// Under one outcome a command has one effect on a history, and so one answer.
pub fn commands_have_one_effect()
    ensures { (s : Setting) (c : Command) (o : Outcome) (b : History) (e other : Effect) → HasEffect s c o b e
        → HasEffect s c o b other → e ≡ other }
{
    requests_have_one_reading();
}

/// A deposit is shown or listed to exactly its owner and its current readers: what is shown is of a deposit that the
/// account may see, and what it may see is shown where the calls are answered; a list has all that it may see, each
/// once, by rising number, and nothing else.
pub fn deposits_are_shown_exactly()
    ensures { (s : Setting) (c : Command) (o : Outcome) (b : History) (e : Effect) → IsSound b
        → HasEffect s c o b e → ShowsExactly s.file c o b e.says }
{}

/// What is promised of each command: what the laws here say of its effect.
pub fn steps_keep_their_promises()
    ensures { (s : Setting) (c : Command) (o : Outcome) (b : History) (e : Effect) → IsSound b
        → HasEffect s c o b e → KeepsPromises s c o b e }
{
    requests_have_one_reading();
}

/// What a signer is asked to sign, and what waits for its signature, is the text of the reservation that the same
/// command adds before all else, under a serial number above all that were reserved before. So the serial numbers of
/// the texts that were given out rise, where a text is given out only once its reservation is committed.
pub fn texts_are_reserved()
    ensures asked { (s : Setting) (c : Command) (o : Outcome) (b : History) (e : Effect) (text : List ℕ)
        → HasEffect s c o b e → e.asks ≡ Some text → IsReservedText s e b text }
    ensures begun { (s : Setting) (c : Command) (o : Outcome) (b : History) (e : Effect) (p : PendingValue)
        → HasEffect s c o b e → e.says ≡ Begun p
        → IsPendingOf s e b p }
{}

/// A rejection's octets tell its rule, and so its failure bit.
pub fn rejections_tell_their_rule()
    ensures { (one other : Rule) → encoding (rejection one) ≡ encoding (rejection other) → one ≡ other }
{}

/// In each journey through openings, commands, successions, migrations and stops, serial numbers rise and genTimes
/// never fall, what was acknowledged stands, and no deposit is without a sealed stamp of its hash. The serial numbers
/// of the texts that it gave out to be signed rise, stops included, and none is above the greatest that the history
/// has. Who reads a deposit after it is told by the rights that it acknowledged and that its stops left. So it is where
/// a run goes on from it, to the run's end or to a stop in it.
pub fn journeys_keep_their_promises()
    ensures journey { (b : History) (x : Option Setting) (w : List Told) → Journey b x w → HasProperties b w }
    ensures open_by { (b : History) (s : Setting) (w : List Told) → Journey b (Some s) w
        → IsProper s × IsNameable s b }
    ensures given { (b : History) (x : Option Setting) (w : List Told) (j : Journey b x w)
        → AreInOrder (given_along j) b }
    ensures readers { (b : History) (x : Option Setting) (w : List Told) (j : Journey b x w) (number : ℕ)
        (reader : Reader) → is_reader number reader b ≡ is_reader number reader (rights_along j) }
    ensures continued { (s : Setting) (cs : List Command) (os : List Outcome) (b : History) (w : List Told)
        (b' : History) (x' : Option Setting) (w' : List Told)
        → AreMet s cs os b → Journey b (Some s) w → Continues s cs os b w b' x' w' → HasProperties b' w' }
{
    requests_have_one_reading();
}

/// The answers to an account's commands depend on what agreement for it names alone: from each sound history that
/// agrees they are the same under the same outcomes, and the histories that follow agree again.
pub fn accounts_are_isolated<S: Signer>()
    ensures { (account : List ℕ) (s : Setting) (cs : List Command) (os : List Outcome) (b c : History) (x : S)
        (answers : List Answer) (b' : History) (x' : S)
        → IsProper s → AreCommandsOf account cs → IsSound b → IsSound c
        → Agree (viewer_in s.file account) b c → Runs S.signs s cs os b x answers b' x'
        → RunsAlike S.signs account s cs os c x answers b' x' }
{
    requests_have_one_reading();
}

/// Another account's command changes, of what agreement for this one names, at most the greatest serial number, the
/// last genTime and the one deposit to which it gives or takes a right.
pub fn accounts_disturb_little()
    ensures { (account : List ℕ) (s : Setting) (c : Command) (o : Outcome) (b : History) (e : Effect) → IsSound b
        → IsCommandOfOther account c → HasEffect s c o b e
        → StaysFor (viewer_in s.file account) (λ number. Concerns number c) b (after e b) }
{}

/// Stamps that are answered together are a run over these stamps, one after the other, up to histories that show the
/// same (`run`): each is judged by the history with the reservations of those before it, and no fact depends on a
/// token. After the first commit, and after both, the history is sound (`sound`); what is signed are the texts of what
/// is reserved, in their order (`texts`), and so under rising serial numbers.
pub fn batches_are_runs<S: Signer>()
    ensures run { (s : Setting) (asked : List Question) (os : List Outcome) (es : List Effect) (b : History) (x y : S)
        → IsSound b → HaveEffects s asked os b es → MoveInTurn S.signs es os x y
        → IsRunTogether S.signs s asked os b x (batch_of es).says (after_batch (batch_of es) b) y }
    ensures sound { (s : Setting) (asked : List Question) (os : List Outcome) (es : List Effect) (b : History)
        → IsSound b → HaveEffects s asked os b es
        → IsSound (once_reserved (batch_of es) b) × IsSound (after_batch (batch_of es) b) }
    ensures texts { (s : Setting) (asked : List Question) (os : List Outcome) (es : List Effect) (b : History)
        → HaveEffects s asked os b es
        → (batch_of es).asks ≡ map (λ r. attribute_text s.in_force.identity r.tst) (all_reserved es) }
{
    histories_show_the_same();
}

/// A stop while stamps are answered together leaves what a stop in a run over these stamps leaves, up to histories
/// that show the same: a stamp that was reserved and not sealed is one whose signature never came.
pub fn batches_stop_as_runs()
    ensures { (s : Setting) (asked : List Question) (os : List Outcome) (es : List Effect) (b left : History)
        (w : List Told) → IsSound b → (asked ≡ [] → ⊥) → HaveEffects s asked os b es
        → IsLeftInBatch (batch_of es) b left → IsCutTogether s asked b w left }
{
    histories_show_the_same();
}
