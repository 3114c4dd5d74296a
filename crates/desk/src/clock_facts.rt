//! What the store says of the clock.
ghost use Rattle.std.specs.Prelude.{◌≡◌, ℕ, ◌≤◌, [], pos, Option, Some, None, option_map, IfOk, IfErr};
ghost use Rattle.std.specs.Prelude.{MatchOption};
ghost use Rattle.gentime.specs.GenTime.{last_moment};
ghost use Rattle.book.specs.{History.History, History.greatest_serial, Sound.IsSound, Stands.Stands, Stands.OnlyLooks};
ghost use Rattle.book.specs.{Fault.CountsFaults, Fault.IsOfStorage, Values.calibration_option};
ghost use Rattle.desk.specs.Calls.{looked_at, calibrations_as, moment_or_last};
ghost use Rattle.desk.specs.{Facts.now_with, Facts.is_held_at, WaitingStamps.with_waiting};

use crate::desk::Desk;
use crate::waiting_stamp::WaitingStamp;
use book::{Book, StoreFault};
use decide::{Calibration, ClockFacts, now_of};
use gentime::{GenTime, LAST_MOMENT};

/// What a look at the store finds.
#[derive(Clone, Copy)]
pub struct Looked {
    /// The facts of the clock.
    pub clock: ClockFacts,
    /// The greatest serial number, 0 where none is reserved.
    pub serial: u64,
}

/// The same calibration, as it is judged.
fn calibration_as(latest: Option<book::Calibration>) -> Option<Calibration>
    ensures { result ≡ calibrations_as (calibration_option latest) }
{
    match latest {
        None => None,
        Some(latest) => Some(Calibration {
            reading: latest.reading,
            offset: latest.offset,
            uncertainty: latest.uncertainty,
        }),
    }
}

/// A moment that a genTime can state, and where it is later the last one. No sound history has a later one.
fn moment_of(micros: u64) -> GenTime
    ensures { result ≡ moment_or_last micros }
{
    let within = match i64::try_from(micros) {
        Ok(micros) if micros < LAST_MOMENT => micros,
        _ => LAST_MOMENT,
    };
    match GenTime::from_micros(within) {
        Ok(moment) => moment,
        Err(_) => unreachable!(),
    }
}

/// The last genTime, as it is judged.
fn last_moment_of(gen_time: Option<u64>) -> Option<GenTime>
    ensures { result ≡ option_map moment_or_last gen_time }
{
    match gen_time {
        None => None,
        Some(micros) => Some(moment_of(micros)),
    }
}

/// The moment, where a genTime can state it.
fn statable(now: i128) -> Option<i64>
    ensures { MatchOption result ((n : ℕ) → now ≡ pos n → n ≤ last_moment → ⊥)
        (λ moment. (n : ℕ) × (now ≡ pos n) × (moment ≡ pos n) × (n ≤ last_moment)) }
{
    let moment = i64::try_from(now).ok()?;
    if moment < 0 || moment > LAST_MOMENT {
        return None;
    }
    Some(moment)
}

/// Whether the moment that the reading stands for is held.
fn is_held<B: Book + Drop>(
    store: &mut B,
    reading: i64,
    calibration: Option<Calibration>,
) -> Result<bool, StoreFault>
    ensures looks { OnlyLooks B.Standing store.old store.new }
    ensures value { B.honest store.new → (b : History) → Stands B.Standing b store.old
        → IfOk result (λ held. held ≡ is_held_at (now_with reading calibration) b) }
    ensures refusals { IfErr result IsOfStorage }
    ensures faults { CountsFaults result (B.fault_count store.old) (B.fault_count store.new) }
{
    let Some(calibration) = calibration else {
        return Ok(false);
    };
    match statable(now_of(reading, &calibration)) {
        None => Ok(false),
        Some(now) => Ok(store.held_at(now)?),
    }
}

/// What the store says of the clock at a reading, and its greatest serial number.
pub(crate) fn look<B: Book + Drop>(store: &mut B, reading: i64) -> Result<Looked, StoreFault>
    ensures looks { OnlyLooks B.Standing store.old store.new }
    ensures value { B.honest store.new → (b : History) → Stands B.Standing b store.old
        → IfOk result (λ looked. looked ≡ looked_at reading b) }
    ensures refusals { IfErr result IsOfStorage }
    ensures faults { CountsFaults result (B.fault_count store.old) (B.fault_count store.new) }
{
    let last = store.last()?;
    let calibration = calibration_as(store.calibration()?);
    let held = is_held(store, reading, calibration)?;
    Ok(Looked {
        clock: ClockFacts {
            reading,
            calibration,
            held,
            last_gen_time: last_moment_of(last.gen_time),
        },
        serial: last.serial,
    })
}

/// What a look finds once all that waits is reserved: the last of it is the last one then.
pub(crate) fn look_among<B: Book + Drop>(
    store: &mut B,
    waits: &[WaitingStamp<'_, '_>],
    reading: i64,
) -> Result<Looked, StoreFault>
    ensures looks { OnlyLooks B.Standing store.old store.new }
    ensures value { B.honest store.new → (b : History) → Stands B.Standing b store.old
        → IsSound (with_waiting waits.now b)
        → IfOk result (λ looked. looked ≡ looked_at reading (with_waiting waits.now b)) }
    ensures rises { IsSound (with_waiting waits.now [])
        → IfOk result (λ looked. greatest_serial (with_waiting waits.now []) ≤ looked.serial) }
    ensures refusals { IfErr result IsOfStorage }
    ensures faults { CountsFaults result (B.fault_count store.old) (B.fault_count store.new) }
{
    let looked = look(store, reading)?;
    match waits.last() {
        None => Ok(looked),
        Some(last) => Ok(Looked {
            clock: ClockFacts {
                reading,
                calibration: looked.clock.calibration,
                held: looked.clock.held,
                last_gen_time: Some(moment_of(last.gen_time)),
            },
            serial: last.unsigned.serial,
        }),
    }
}

impl<'p, B: Book + Drop> Desk<'p, B> {
    /// What the store says of the clock at a reading, in microseconds, and its greatest serial number: by that stamps
    /// are judged. Nothing changes. Refused with `Memory` or `Database`, where it is met.
    pub fn look(&mut self, reading: i64) -> Result<Looked, StoreFault>
        ensures setting { self.new.setting ≡ self.old.setting }
        ensures looks { OnlyLooks B.Standing self.old.store self.new.store }
        ensures value { B.honest self.new.store → (b : History) → Stands B.Standing b self.old.store
            → IfOk result (λ looked. looked ≡ looked_at reading b) }
        ensures refusals { IfErr result IsOfStorage }
        ensures faults { CountsFaults result (B.fault_count self.old.store) (B.fault_count self.new.store) }
    {
        look(&mut self.store, reading)
    }
}
