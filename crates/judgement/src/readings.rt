//! The readings that a clock may have had.
ghost use Rattle.std.specs.Prelude.{◌≡◌, ◌↔◌, ℕ, pos, ◌+◌, ◌^◌, ◌<◌, ◌≤◌, ◌+ℤ◌, ◌≤ℤ◌, ◌<ℤ◌, ◌&&◌, int_le, int_lt, true};
ghost use Rattle.std.specs.Prelude.{false, length, map, option_map, IfSome, IsTrue, MatchOption};
ghost use Rattle.std.specs.List.{find};
ghost use Rattle.policy.specs.View.{counter_view};
ghost use Rattle.book.specs.{History.first_of, Sound.greatest_number, Values.calibration_view, Values.hold_view};
ghost use Rattle.judgement.specs.auxiliary.Search.{IsFirstFree, IsFirstReading, IsGoodClock, IsGoodClockUnder, IsLeast};
ghost use Rattle.judgement.specs.{Readings.calibration_of, Readings.is_held_by, View.evidence_view};

use crate::evidence::{Before, Evidence};
use book::{Calibration, Hold};
use decide::{ClockFacts, ClockState, clock_state};
use gentime::GenTime;
use policy::Counter;

/// A hold that has a moment.
fn hold_at(holds: &[Hold], now: u64) -> Option<&Hold>
    ensures { option_map (λ h. h.now) result ≡ find (λ h. int_le h.from (pos now) && int_lt (pos now) h.to) holds.now }
{
    holds.iter().find(|hold| has(hold, now))
}

/// Whether a hold has a moment.
fn has(hold: &Hold, now: u64) -> bool
    ensures { result ≡ (int_le hold.now.from (pos now) && int_lt (pos now) hold.now.to) }
{
    i128::from(hold.from) <= i128::from(now) && i128::from(now) < i128::from(hold.to)
}

/// The moment after a hold that has one.
fn end_of(hold: &Hold, now: u64) -> u64
    requires { pos now <ℤ hold.now.to }
    ensures end { pos result ≡ hold.now.to }
    ensures after { now < result }
    ensures bound { result < 2 ^ 63 }
{
    match u64::try_from(hold.to) {
        Ok(end) => end,
        Err(_) => unreachable!(),
    }
}

/// The first moment from this one on that no hold has.
fn first_free(holds: &[Hold], from: u64) -> u64
    ensures free { is_held_by (map hold_view holds.now) (pos result) ≡ false }
    ensures onwards { from ≤ result }
    ensures first { (now : ℕ) → from ≤ now → now < result → is_held_by (map hold_view holds.now) (pos now) ≡ true }
{
    let mut now = from;
    while let Some(hold) = hold_at(holds, now) {
        now = end_of(hold, now);
    }
    now
}

/// The first moment that isn't before the calibration's own, nor before the genTime.
fn least_moment(calibration: &Calibration, gen_time: u64) -> u64
    ensures { IsLeast (calibration_view calibration.now) gen_time result }
{
    let since = i128::from(calibration.reading) + i128::from(calibration.offset);
    match u64::try_from(since) {
        Ok(since) if since > gen_time => since,
        _ => gen_time,
    }
}

/// The first of them that isn't held.
fn first_moment(calibration: &Calibration, gen_time: u64, holds: &[Hold]) -> u64
    ensures { IsFirstFree (map hold_view holds.now) gen_time (calibration_view calibration.now) result }
{
    first_free(holds, least_moment(calibration, gen_time))
}

/// The reading that stands for a moment which isn't before the calibration's.
fn reading_of(calibration: &Calibration, now: u64) -> Option<i64>
    requires { (calibration.now.reading +ℤ calibration.now.offset) ≤ℤ pos now }
    ensures { MatchOption result ((pos greatest_number +ℤ calibration.now.offset) <ℤ pos now)
        (λ reading. (reading +ℤ calibration.now.offset) ≡ pos now) }
{
    i64::try_from(i128::from(now) - i128::from(calibration.offset)).ok()
}

/// Whether a reading isn't after that of the next calibration, if there is one.
fn is_before(reading: i64, next: Option<&Calibration>) -> bool
    ensures { IsTrue result ↔ IfSome (option_map (λ c. calibration_view c.now) next.entry) (λ c. reading ≤ℤ c.reading) }
{
    match next {
        None => true,
        Some(next) => reading <= next.reading,
    }
}

/// The first reading under a calibration, and not after the next one's, whose moment has the genTime and isn't held.
fn first_reading(
    counter: &Counter,
    gen_time: u64,
    calibration: &Calibration,
    next: Option<&Calibration>,
    holds: &[Hold],
) -> Option<i64>
    ensures { IsFirstReading (counter_view counter.now) (map hold_view holds.now) gen_time
        (calibration_view calibration.now) (option_map (λ c. calibration_view c.now) next.entry) result }
{
    let step = GenTime::step(counter.fraction_digits);
    if gen_time % step != 0 {
        return None;
    }
    let now = first_moment(calibration, gen_time, holds);
    let after = now - gen_time;
    if after >= step {
        return None;
    }
    let Some(reading) = reading_of(calibration, now) else {
        return None;
    };
    let precedes = is_before(reading, next);
    if precedes { Some(reading) } else { None }
}

/// The facts of the clock by which a stamp of a genTime may have been given under a calibration, if there are any:
/// those at the first reading, since the younger a calibration is the better.
fn good_clock_under(
    evidence: &Evidence<'_>,
    before: &Before,
    gen_time: u64,
    calibration: &Calibration,
    next: Option<&Calibration>,
) -> Option<ClockFacts>
    ensures { IsGoodClockUnder (evidence_view evidence.now) before.now.last_gen_time gen_time
        (calibration_view calibration.now) (option_map (λ c. calibration_view c.now) next.entry) result }
{
    let counter = &evidence.policy.counter;
    let reading = first_reading(counter, gen_time, calibration, next, evidence.holds)?;
    let clock = ClockFacts {
        reading,
        calibration: Some(calibration_as(calibration)),
        held: false,
        last_gen_time: before.last_gen_time,
    };
    match clock_state(counter, &clock) {
        ClockState::Good(_gen_time) => Some(clock),
        ClockState::Bad => None,
    }
}

/// The same calibration, as it is judged.
fn calibration_as(calibration: &Calibration) -> decide::Calibration
    ensures { result ≡ calibration_of (calibration_view calibration.now) }
{
    decide::Calibration {
        reading: calibration.reading,
        offset: calibration.offset,
        uncertainty: calibration.uncertainty,
    }
}

/// The calibration that followed.
fn next_of(later: &[Calibration]) -> Option<&Calibration>
    ensures { option_map (λ c. calibration_view c.now) result ≡ first_of (map calibration_view later.now) }
{
    later.first()
}

/// The facts of the clock by which a stamp of a genTime may have been given, under one of these calibrations, each of
/// which is followed by the next one; if there are any.
fn good_clock_in(
    evidence: &Evidence<'_>,
    before: &Before,
    gen_time: u64,
    calibrations: &[Calibration],
) -> Option<ClockFacts>
    ensures { IsGoodClock (evidence_view evidence.now) before.now.last_gen_time gen_time
        (map calibration_view calibrations.now) result }
{
    let mut left = calibrations;
    while let Some((calibration, later)) = left.split_first() {
        let found = good_clock_under(evidence, before, gen_time, calibration, next_of(later));
        if found.is_some() {
            return found;
        }
        left = later;
    }
    None
}

/// The facts of the clock by which a stamp of a genTime may have been given, if there are any. Where the calibrations
/// rise it is found without a look at each.
pub(crate) fn good_clock(
    evidence: &Evidence<'_>,
    before: &Before,
    gen_time: u64,
) -> Option<ClockFacts>
    ensures { IsGoodClock (evidence_view evidence.now) before.now.last_gen_time gen_time
        (evidence_view evidence.now).calibrations result }
{
    let calibrations = evidence.calibrations;
    let (_, near) = calibrations.split_at(near(calibrations, gen_time));
    match good_clock_in(evidence, before, gen_time, near) {
        Some(clock) => Some(clock),
        None => good_clock_in(evidence, before, gen_time, calibrations),
    }
}

/// Where the search begins: at the last calibration whose moment isn't after the genTime, where their moments rise.
fn near(calibrations: &[Calibration], gen_time: u64) -> usize
    ensures { result ≤ length calibrations.now }
{
    let mut start = 0;
    let mut end = calibrations.len();
    while start < end {
        let middle = start + (end - start) / 2;
        let calibration = &calibrations[middle];
        let moment = i128::from(calibration.reading) + i128::from(calibration.offset);
        if moment <= i128::from(gen_time) {
            start = middle + 1;
        } else {
            end = middle;
        }
    }
    start.saturating_sub(1)
}
