//! The clock (RFC 3628 7.3.1).
ghost use Rattle.std.specs.Prelude.{◌≡◌, ◌↔◌, ℕ, ℤ, pos, ◌<ℤ◌, ◌≤ℤ◌, ◌≤◌, ◌<◌, ◌+◌, ◌-◌, ◌*◌, ◌^◌, IsTrue, MatchOption};
ghost use Rattle.gentime.specs.GenTime.{last_moment};
ghost use Rattle.policy.specs.View.{counter_view};
ghost use Rattle.decide.specs.Clock.{now_at, elapsed, deviation, divided_up, step, Follows, IsGood, IsGoodAt};
ghost use Rattle.decide.specs.Clock.{IsState, KeepsAccuracy};

use crate::facts::{Calibration, ClockFacts};
use gentime::GenTime;
use policy::Counter;

/// Whether a token may be given.
#[derive(Clone, Copy)]
pub enum ClockState {
    /// It may, with this genTime.
    Good(GenTime),
    /// It may not.
    Bad,
}

/// The moment that a reading stands for after a calibration, in microseconds since 1970-01-01T00:00:00Z.
pub fn now_of(reading: i64, calibration: &Calibration) -> i128
    ensures { result ≡ now_at reading calibration.now }
{
    i128::from(reading) + i128::from(calibration.offset)
}

/// How many microseconds ago the calibration was; none before it.
fn elapsed_since(reading: i64, calibration: &Calibration) -> Option<u64>
    ensures { MatchOption result (reading <ℤ calibration.now.reading)
        (λ since. (calibration.now.reading ≤ℤ reading) × (since ≡ elapsed reading calibration.now)) }
{
    u64::try_from(i128::from(reading) - i128::from(calibration.reading)).ok()
}

/// How far the true moment may be away from that which a reading stands for, in microseconds: the calibration's
/// uncertainty, and what the clock may have drifted since. Before the calibration it has drifted nothing.
pub fn deviation_of(counter: &Counter, reading: i64, calibration: &Calibration) -> u128
    ensures value { result ≡ deviation (counter_view counter.now) reading calibration.now }
    ensures bound { result < 2 ^ 100 }
{
    let elapsed = elapsed_since(reading, calibration).unwrap_or(0);
    deviation_after(calibration.uncertainty, elapsed, counter.drift_ppb)
}

fn deviation_after(uncertainty: u64, elapsed: u64, drift_ppb: u32) -> u128
    ensures value { result ≡ uncertainty + divided_up (elapsed * drift_ppb) 1_000_000_000 }
    ensures bound { result < 2 ^ 100 }
{
    let drift = u128::from(elapsed) * u128::from(drift_ppb);
    u128::from(uncertainty) + (drift + 999_999_999) / 1_000_000_000
}

/// Whether the true moment is within the accuracy of the genTime.
fn is_accurate(counter: &Counter, calibration: &Calibration, elapsed: u64) -> bool
    ensures { IsTrue result ↔ (calibration.now.uncertainty + divided_up (elapsed * counter.now.drift_ppb) 1_000_000_000
        + (step (counter_view counter.now) - 1) ≤ counter.now.accuracy_us) }
{
    let deviation = deviation_after(calibration.uncertainty, elapsed, counter.drift_ppb);
    let rounding = GenTime::step(counter.fraction_digits) - 1;
    deviation + u128::from(rounding) <= u128::from(counter.accuracy_us)
}

/// The moment that a reading stands for, where a genTime can state it.
fn moment_of(reading: i64, calibration: &Calibration) -> Option<GenTime>
    ensures { MatchOption result ((now : ℕ) → now_at reading calibration.now ≡ pos now → now ≤ last_moment → ⊥)
        (λ moment. (now_at reading calibration.now ≡ pos moment) × (moment ≤ last_moment)) }
{
    let micros = i64::try_from(now_of(reading, calibration)).ok()?;
    GenTime::from_micros(micros).ok()
}

/// Whether a genTime may come after the last one.
fn follows(ordering: bool, last: Option<GenTime>, moment: GenTime) -> bool
    ensures { IsTrue result ↔ Follows ordering last moment }
{
    match last {
        None => true,
        Some(last) if ordering => last.micros() < moment.micros(),
        Some(last) => last.micros() <= moment.micros(),
    }
}

/// Whether a token may be given, and with which genTime (RFC 3628 7.3.1, RFC 3161 2.4.2): there is a calibration, not
/// after the reading and at most the greatest age old; the deviation and the rounding are together within the accuracy;
/// now is from 1970 to 9999 and isn't held; and the genTime isn't before the last one, and after it where tokens are
/// ordered.
pub fn clock_state(counter: &Counter, facts: &ClockFacts) -> ClockState
    ensures state { IsState (counter_view counter.now) facts.now result }
    ensures interval { (moment : ℕ) → result ≡ ClockState.Good moment
        → KeepsAccuracy (counter_view counter.now) facts.now moment }
{
    match good_gen_time(counter, facts) {
        Some(moment) => ClockState::Good(moment),
        None => ClockState::Bad,
    }
}

/// The genTime, where a token may be given.
fn good_gen_time(counter: &Counter, facts: &ClockFacts) -> Option<GenTime>
    ensures { MatchOption result (IsGood (counter_view counter.now) facts.now → ⊥)
        (λ moment. IsGoodAt (counter_view counter.now) facts.now moment) }
{
    let calibration = facts.calibration?;
    let elapsed = elapsed_since(facts.reading, &calibration)?;
    if elapsed > counter.max_age_us || !is_accurate(counter, &calibration, elapsed) || facts.held {
        return None;
    }
    let now = moment_of(facts.reading, &calibration)?;
    let moment = now.rounded_down(counter.fraction_digits);
    if follows(counter.ordering, facts.last_gen_time, moment) {
        Some(moment)
    } else {
        None
    }
}
