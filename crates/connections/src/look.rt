//! Looks at the machine's clocks.
ghost use Rattle.std.specs.{Prelude.◌≡◌, Prelude.true, Prelude.false, Prelude.Some, Prelude.IfOk, Duration.as_nanos};
ghost use Rattle.connections.specs.{Clock.GoAlike, Clock.GoesOn, Clock.with_look, Look.look_of, Look.looks_of};

use crate::clock::ClockFailed;
use std::time::{Clock, Duration, Instant, SystemTime};

/// By how many milliseconds the wall clock may part from the monotonic one.
const PARTING_MILLISECONDS: u64 = 10;

/// A look at the machine's clocks.
#[derive(Clone, Copy)]
pub(crate) struct Look {
    /// The monotonic clock before the wall clock.
    before: Instant,
    wall: SystemTime,
    /// The monotonic clock after it.
    after: Instant,
}

/// The first look and the last one.
#[derive(Clone, Copy)]
pub(crate) struct Looks {
    first: Look,
    last: Look,
}

impl Look {
    /// Looks at a machine's clocks. It fails where one of them can't be read.
    pub(crate) fn new<M: Clock>(machine: &M) -> Result<Look, ClockFailed> {
        Ok(Look {
            before: Instant::now(machine).or(Err(ClockFailed))?,
            wall: SystemTime::now(machine).or(Err(ClockFailed))?,
            after: Instant::now(machine).or(Err(ClockFailed))?,
        })
    }

    /// The time since 1970.
    pub(crate) fn since_1970(&self) -> Result<Duration, ClockFailed>
        ensures { IfOk result (λ since. as_nanos since ≡ (look_of self.now).wall) }
    {
        self.wall
            .duration_since(SystemTime::UNIX_EPOCH)
            .or(Err(ClockFailed))
    }

    /// Whether the clocks went on alike until another look.
    fn is_alike(&self, next: Look) -> bool
        ensures { result ≡ true → GoAlike (look_of self.now) (look_of next) }
    {
        match next.wall.duration_since(self.wall) {
            Ok(passed) => {
                let parting = Duration::from_millis(PARTING_MILLISECONDS);
                let least = next.before.duration_since(self.after);
                let most = next.after.duration_since(self.before);
                least.saturating_sub(passed) <= parting && passed.saturating_sub(most) <= parting
            }
            Err(_) => false,
        }
    }
}

impl Looks {
    /// Those with one more, which has to go on from them.
    pub(crate) fn after(looks: Option<Looks>, next: Look) -> Result<Looks, ClockFailed>
        ensures goes { IfOk result (λ all. GoesOn (looks_of looks) (look_of next)) }
        ensures all { IfOk result (λ all. looks_of (Some all) ≡ Some (with_look (looks_of looks) (look_of next))) }
    {
        match looks {
            Some(looks) if looks.last.wall <= next.wall && looks.first.is_alike(next) => {
                Ok(Looks {
                    first: looks.first,
                    last: next,
                })
            }
            Some(_) => Err(ClockFailed),
            None => Ok(Looks {
                first: next,
                last: next,
            }),
        }
    }
}
