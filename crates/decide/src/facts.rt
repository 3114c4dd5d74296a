//! What is found out before a request is decided on.
ghost use Rattle.std.specs.Prelude.{◌↔◌, ◌≤ℤ◌, ◌<ℤ◌, IsTrue};

use gentime::GenTime;

/// What the clock was found to be at one of its readings.
#[derive(Clone, Copy)]
pub struct Calibration {
    /// The clock's reading then, in microseconds.
    pub reading: i64,
    /// What has to be added to a reading for the moment, in microseconds since 1970-01-01T00:00:00Z; negative where the
    /// clock is ahead.
    pub offset: i64,
    /// How far the true moment may have been away from that one, in microseconds.
    pub uncertainty: u64,
}

/// Moments at which no token is given, as around a leap second.
#[derive(Clone, Copy)]
pub struct Hold {
    /// The first of them, in microseconds since 1970-01-01T00:00:00Z.
    pub from: i64,
    /// The first moment after them.
    pub to: i64,
}

impl Hold {
    /// Whether a moment is held, in microseconds since 1970-01-01T00:00:00Z: from `from` on, and before `to`.
    pub fn contains(&self, now: i128) -> bool
        ensures { IsTrue result ↔ ((self.now.from ≤ℤ now) × (now <ℤ self.now.to)) }
    {
        i128::from(self.from) <= now && now < i128::from(self.to)
    }
}

/// What tells whether the clock is good, and a token's genTime.
#[derive(Clone, Copy)]
pub struct ClockFacts {
    /// The clock's reading, in microseconds.
    pub reading: i64,
    /// The latest calibration, if any.
    pub calibration: Option<Calibration>,
    /// Whether the moment that the reading stands for is held.
    pub held: bool,
    /// The last genTime that was reserved, if any.
    pub last_gen_time: Option<GenTime>,
}

/// What a request is decided on, besides the policy file and the account.
#[derive(Clone, Copy)]
pub struct Facts {
    /// The facts of the clock.
    pub clock: ClockFacts,
    /// How many reservations the account has on the genTime's day.
    pub count: u64,
}
