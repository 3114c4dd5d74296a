//! What holds of a book that is closed for tokens, and of the history that goes on from it.
ghost use Rattle.std.specs.Prelude.{◌≡◌, ℕ, ◌<◌, ◌≤◌, ◌++◌, ℤ, true, List, Option, Some};
ghost use Rattle.std.specs.List.{Contains};
ghost use Rattle.policy.specs.Record.{CounterValue};
ghost use Rattle.decide.specs.Clock.{IsGood};
ghost use Rattle.book.specs.Continuation.{Floor, IsAboveIfAny, continued, is_closed, last_reservation};
ghost use Rattle.book.specs.History.{Entry, History, ReservationValue, reservations};
ghost use Rattle.book.specs.Sound.{Along, IsSound};
ghost use Rattle.desk.specs.Closed.{GivesNothingOut, StaysClosed};
ghost use Rattle.desk.specs.Continuation.{IsRestated, IsStated, IsStatedIfAny};
ghost use Rattle.desk.specs.{Command.Setting, Command.Command, Content.IsSoundInFull, Effects.Effect, Facts.clock_of};
ghost use Rattle.desk.specs.{MachineRuns.IsRising, MachineStep.HasEffect, Outcome.Outcome};

use tsp::{requests_have_one_reading, tst_infos_have_one_reading};

/// While a hold of all moments stands, rule 10 fails at every reading (`clock`). So no command reserves a serial
/// number, has a text signed, or is answered with one that waits for its signature; a stamp is granted only where it
/// was begun before, and finished then (`nothing`).
pub fn closed_books_give_nothing_out()
    ensures clock { (counter : CounterValue) (reading : ℤ) (b : History) → is_closed b ≡ true
        → IsGood counter (clock_of reading b) → ⊥ }
    ensures nothing { (s : Setting) (c : Command) (o : Outcome) (b : History) (e : Effect) → is_closed b ≡ true
        → HasEffect s c o b e → GivesNothingOut c e }
{}

/// What is closed stays so after each command and each stop in one. No text leaves it from then on, and its greatest
/// serial number and last genTime stay: those from which the new book goes on.
pub fn closed_books_stay_closed()
    ensures { (s : Setting) (c : Command) (o : Outcome) (b : History) (e : Effect) (k : ℕ) → is_closed b ≡ true
        → HasEffect s c o b e → StaysClosed k e b }
{}

/// Over both books serial numbers rise and genTimes never fall: what is reserved in the new one, behind the entries
/// with which it begins, comes after each stamp of the old one.
pub fn continuations_rise()
    ensures { (floor : Option Floor) (b : History) (added : List Entry) → Along IsRising b → IsSound b
        → IsAboveIfAny floor b → IsSound (added ++ continued floor b) → Along IsRising (added ++ continued floor b)
        → (before later : ReservationValue) → Contains (reservations b) before → Contains (reservations added) later
        → (before.serial < later.serial) × (before.gen_time ≤ later.gen_time) }
{}

/// Of a history that is sound in full a void stamp states what it has to, where its TSTInfo is the last stamp's under
/// another serial number and genTime, and names nobody.
pub fn void_stamps_are_stated()
    ensures { (floor : Floor) (b : History) (last : ReservationValue) → IsSoundInFull b
        → last_reservation b ≡ Some last → IsRestated floor last → IsStated floor b }
{
    requests_have_one_reading();
    tst_infos_have_one_reading();
}

/// A history that is sound in full goes on so in a new book (`whole`), where genTimes never fall either (`rising`). A
/// void stamp in place of the last one has that one's request, and a TSTInfo that says the floor's serial number and
/// genTime.
pub fn continuations_are_sound_in_full()
    ensures whole { (floor : Option Floor) (b : History) → IsSoundInFull b → IsAboveIfAny floor b
        → IsStatedIfAny floor b → IsSoundInFull (continued floor b) }
    ensures rising { (floor : Option Floor) (b : History) → IsSoundInFull b → IsStatedIfAny floor b
        → Along IsRising (continued floor b) }
{}
