//! The clock's state, and holds.
use crate::transcript::{Printer, Words};
use crate::vectors::files::Files;
use decide::{Calibration, ClockFacts, ClockState, Hold, clock_state, now_of};
use gentime::GenTime;

/// The calibration of the next three words: reading, offset and uncertainty; none without them.
fn calibration_of(words: &mut Words<'_>) -> Option<Calibration> {
    if words.rest.is_empty() {
        return None;
    }
    Some(Calibration {
        reading: words.signed(),
        offset: words.signed(),
        uncertainty: words.number(),
    })
}

/// The clock's facts of the next words: the reading, the last genTime or `none`, `held` or `free`, and a calibration.
pub fn facts_of(words: &mut Words<'_>) -> ClockFacts {
    let reading = words.signed();
    let last_gen_time = GenTime::from_micros(words.signed()).ok();
    let held = words.next() == "held";
    ClockFacts {
        reading,
        calibration: calibration_of(words),
        held,
        last_gen_time,
    }
}

/// Tells the clock's state by the policy file that was read last; or behind `holds` whether a hold, by its ends, holds
/// the moment of a reading after a calibration.
pub fn call(printer: Printer<'_>, files: &Files, words: Words<'_>) {
    let mut words = words;
    if words.next() == "holds" {
        let hold = Hold {
            from: words.signed(),
            to: words.signed(),
        };
        let reading = words.signed();
        if let Some(calibration) = calibration_of(&mut words) {
            printer.tell(&hold.contains(now_of(reading, &calibration)));
        }
    } else if let Some(policy) = &files.policy {
        match clock_state(&policy.counter, &facts_of(&mut words)) {
            ClockState::Good(gen_time) => printer.tell(&gen_time.micros()),
            ClockState::Bad => printer.line("  Bad"),
        }
    }
}
