//! Why nothing comes of a stamp.
ghost use Rattle.std.specs.Prelude.{◌≡◌};
ghost use Rattle.desk.specs.Effects.{fault_by, fault_of as fault_for, rule_by as rule_for};
ghost use Rattle.desk.specs.Calls.{store_cause, why_of};

use crate::fault::Fault;
use book::StoreFault;
use cms::SignerFault;
use tsp::Rule;

/// Why nothing comes of a stamp: a rule, or the call that was refused.
#[derive(Clone, Copy)]
pub(crate) enum StampRefusal {
    /// The first rule of 1 to 11 that fails.
    Fails(Rule),
    /// The facts of the clock.
    Looking(StoreFault),
    /// The account's day.
    Counting(StoreFault),
    /// No serial number is left.
    Exhausted,
    /// The memory for what is signed.
    OutOfMemory,
    /// The reservation.
    Adding(StoreFault),
    /// The signature.
    Signing(SignerFault),
    /// The memory for token and reply.
    OutOfReplyMemory,
    /// The token.
    Sealing(StoreFault),
}

/// Want of memory as it is, and any other refusal of the store as the store's.
pub(crate) fn fault_of(fault: StoreFault) -> Fault
    ensures { result ≡ fault_for (store_cause fault) }
{
    match fault {
        StoreFault::Memory => Fault::Memory,
        _ => Fault::Store,
    }
}

/// The rule by which a stamp is rejected that is refused so: rule 12 where it is no rule.
pub(crate) fn rule_by(refusal: StampRefusal) -> Rule
    ensures { result ≡ rule_for (why_of refusal) }
{
    match refusal {
        StampRefusal::Fails(rule) => rule,
        _ => Rule::System,
    }
}

impl From<StampRefusal> for Fault {
    ghost from_gives = { λ refusal fault. fault ≡ fault_by (why_of refusal) };

    fn from(refusal: StampRefusal) -> Fault {
        match refusal {
            StampRefusal::Fails(rule) => Fault::Rejected(rule),
            StampRefusal::Looking(fault)
            | StampRefusal::Counting(fault)
            | StampRefusal::Adding(fault)
            | StampRefusal::Sealing(fault) => fault_of(fault),
            StampRefusal::Exhausted => Fault::Store,
            StampRefusal::OutOfMemory | StampRefusal::OutOfReplyMemory => Fault::Memory,
            StampRefusal::Signing(SignerFault::Failed) => Fault::Signer,
            StampRefusal::Signing(SignerFault::Memory) => Fault::Memory,
        }
    }
}
