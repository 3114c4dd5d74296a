//! What holds of the stamps that the machine gives.
ghost use Rattle.std.specs.Prelude.{List, Option};
ghost use Rattle.policy.specs.{Record.PolicyValue, Sound.IsSound};
ghost use Rattle.book.specs.History.{History};
ghost use Rattle.desk.specs.{Command.Setting, MachineRuns.Journey, MachineRuns.Told};
ghost use Rattle.judgement.specs.Journeys.{AreGivenByRules, KeepsTo, begun_with};

use book::identities_tell_who_signed;
use desk::journeys_keep_their_promises;
use tsp::requests_have_one_reading;

/// Each stamp of each journey of the machine that keeps to one policy file, with its readings in order, is given by the
/// rules of that file, but for the one with which a continued history begins: it is taken as it stands. So a stamp that
/// isn't is no stamp of such a journey.
pub fn journeys_are_given_by_rules()
    ensures { (file : PolicyValue) (b : History) (x : Option Setting) (w : List Told) (j : Journey b x w)
        → IsSound file → KeepsTo file j → AreGivenByRules file (begun_with j) b }
{
    journeys_keep_their_promises();
    identities_tell_who_signed();
    requests_have_one_reading();
}
