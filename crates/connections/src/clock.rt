//! Where readings come from.
ghost use Rattle.std.specs.Prelude.{◌≡◌, ◌/◌, ◌^◌, ◌<◌, ℤ, pos, None, Result, IfOk, IsOk, ◌↔◌};
ghost use Rattle.std.specs.Duration.{as_nanos};
ghost use Rattle.connections.specs.declared.clock.ClockFailed.{ClockFailed as SpecFailed};

use crate::look::{Look, Looks};
use std::marker::Model;
use std::time::{Duration, SystemTime};
use thiserror::Error;

/// A clock has no reading that can be used.
#[derive(Clone, Copy, Debug, PartialEq, Eq, Error)]
#[error("the clock failed")]
pub struct ClockFailed;

/// A clock. One that fails may be asked again.
pub trait Clock {
    /// What asking does: the clock before it, the reading, and the clock after it.
    ghost reads: { Self → Result ℤ SpecFailed → Self → Type 0 };

    /// The moment, in microseconds since 1970-01-01T00:00:00Z.
    fn reading(&mut self) -> Result<i64, ClockFailed>
        ensures { reads self.old result self.new };
}

/// The machine's clock, as long as it isn't set.
#[derive(Drop)]
pub struct SystemClock<'a, R> {
    machine: &'a R,
    /// The first look at the machine's clocks and the last one.
    looks: Option<Looks>,
}

impl<'a, R> Model for SystemClock<'a, R> {
    ghost use Rattle.std.specs.Prelude.{Option};
    ghost use Rattle.connections.specs.{Clock.Looks as SpecLooks, Look.looks_of};

    ghost Value = { Option SpecLooks };

    ghost view = { λ clock. looks_of clock.looks };
}

impl<'a, R> SystemClock<'a, R> {
    /// The clock of a machine, at which nobody has looked yet.
    pub fn new(machine: &'a R) -> SystemClock<'a, R>
        ensures { result ≡ None }
    {
        SystemClock {
            machine,
            looks: None,
        }
    }
}

/// A duration in whole microseconds, where they are fewer than 2^63.
fn whole_micros(duration: Duration) -> Result<i64, ClockFailed>
    ensures within { IsOk result ↔ (as_nanos duration / 1000 < 2 ^ 63) }
    ensures value { IfOk result (λ micros. micros ≡ pos (as_nanos duration / 1000)) }
{
    i64::try_from(duration.as_micros()).or(Err(ClockFailed))
}

/// Fails where the machine's clocks can't be read; where its wall clock stands before 1970 or beyond 2^63 - 1
/// microseconds after it; and from then on where it was set, or the machine slept: its wall clock stands before the
/// last reading, or has gone on by 10 milliseconds more or less than its monotonic clock since the first one. A clock
/// that is slowed down or sped up, as NTP does, takes both along.
impl<R: std::time::Clock> Clock for SystemClock<'_, R> {
    ghost use Rattle.connections.specs.Clock.{AsksClock};

    ghost reads = { AsksClock };

    fn reading(&mut self) -> Result<i64, ClockFailed> {
        let look = Look::new(self.machine)?;
        let looks = Looks::after(self.looks, look)?;
        let since = look.since_1970()?;
        let micros = whole_micros(since)?;
        self.looks = Some(looks);
        Ok(micros)
    }
}
