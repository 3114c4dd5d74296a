//! What holds of requests, whatever they are.
ghost use Rattle.std.specs.Prelude.{ℤ, List, ℕ, Option, Ok};
ghost use Rattle.policy.specs.Record.{PolicyValue};
ghost use Rattle.book.specs.History.{History};
ghost use Rattle.desk.specs.{Command.Command, MachineStep.IsMet};
ghost use Rattle.service.specs.Requests.{IsRequest, Step};

/// A command that a request asks for has what its caller has to see to, whatever the history: a calibration's
/// uncertainty is at most 10^12 microseconds, and a hold ends after its first moment.
pub fn requests_ask_for_what_is_met()
    ensures { (file : PolicyValue) (reading : ℤ) (before left : Option (List ℕ)) (c : Command)
        → IsRequest file reading before left (Ok (Step c)) → (b : History) → IsMet c b }
{}
