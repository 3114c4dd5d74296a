//! What stands in the way of a call on deposits and rights.
ghost use Rattle.std.specs.Prelude.{◌≡◌};
ghost use Rattle.desk.specs.auxiliary.Obstacles.{fault_with};

use crate::fault::Fault;
use crate::refusal::fault_of;
use book::StoreFault;

/// What stands in the way: what the account may not, or the call that was refused.
#[derive(Clone, Copy)]
pub(crate) enum Obstacle {
    /// What the account may not.
    Denied(Fault),
    /// Whether the account sees the deposit.
    Searching(StoreFault),
    /// What is shown.
    Looking(StoreFault),
    /// The memory for what is shown.
    OutOfMemory,
    /// The right.
    Adding(StoreFault),
}

impl From<Obstacle> for Fault {
    ghost from_gives = { λ obstacle fault. fault ≡ fault_with obstacle };

    fn from(obstacle: Obstacle) -> Fault {
        match obstacle {
            Obstacle::Denied(fault) => fault,
            Obstacle::Searching(fault) | Obstacle::Looking(fault) | Obstacle::Adding(fault) => {
                fault_of(fault)
            }
            Obstacle::OutOfMemory => Fault::Memory,
        }
    }
}
