//! What refusals of the operations over the database are to the program.
ghost use Rattle.std.specs.Prelude.{◌≡◌, Err, MatchResult, Ok};
ghost use Rattle.counter.specs.Fault.{fault_of_audit, fault_of_continuation, fault_of_operation};

use console::{Fault, InputFault};
use operations::{AuditFault, ContinuationFault, OperationFault};

/// Whether all stamps agree, as an audit answers, or the fault that its refusal is.
pub fn agreement_of(done: Result<bool, AuditFault>) -> Result<bool, Fault>
    ensures { MatchResult done (λ agree. result ≡ Ok agree) (λ refused. result ≡ Err (fault_of_audit refused)) }
{
    match done {
        Ok(agree) => Ok(agree),
        Err(AuditFault::Store(fault)) => Err(Fault::Store(fault)),
        Err(AuditFault::Extract(fault)) => Err(Fault::Audit(fault)),
    }
}

/// The fault that it is where a history doesn't go on.
pub fn fault_of_continuation(refused: ContinuationFault) -> Fault
    ensures { result ≡ fault_of_continuation refused }
{
    match refused {
        ContinuationFault::Unopened(fault) => Fault::Store(fault),
        ContinuationFault::Unclosed(fault) => Fault::Store(fault),
        ContinuationFault::NotAfter => Fault::Input(InputFault::NotAfter),
        ContinuationFault::Unfinished(fault) => Fault::Store(fault),
    }
}

/// The answer of an operation, or the fault that its refusal is.
pub fn answer_of<T>(done: Result<T, OperationFault>) -> Result<T, Fault>
    ensures { MatchResult done (λ answer. result ≡ Ok answer)
        (λ refused. result ≡ Err (fault_of_operation refused)) }
{
    done.map_err(fault_of)
}

/// The fault that the refusal of an operation is.
pub fn fault_of(refused: OperationFault) -> Fault
    ensures { result ≡ fault_of_operation refused }
{
    match refused {
        OperationFault::Store(fault) => Fault::Store(fault),
        OperationFault::Desk(fault) => Fault::Desk(fault),
        OperationFault::Unreached => Fault::Input(InputFault::Signer),
        OperationFault::Unheard => Fault::Input(InputFault::Address),
        OperationFault::Clock => Fault::Input(InputFault::Failed),
    }
}
