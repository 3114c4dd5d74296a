//! The counter's state, for an operator or an auditor.
ghost use Rattle.std.specs.Prelude.{◌≡◌, ◌++◌, ◌≤◌, ℕ, pos, codes, IfOk, IfSome, MatchOption, OnSome, option_map};
ghost use Rattle.std.specs.{Prelude.string_bytes, Fmt.decimal, Fmt.signed_decimal};
ghost use Rattle.gentime.specs.GenTime.{text_of};
ghost use Rattle.policy.specs.View.{counter_view};
ghost use Rattle.book.specs.Stands.{OnlyLooks};
ghost use Rattle.service.specs.Status.{drifting, greatest_age, age, age_left, or_none, yes_or_no, named};
ghost use Rattle.service.specs.Status.{calibration_lines, giving_lines, clock_lines, fault_lines, size_line, Gives};
ghost use Rattle.service.specs.Handlers.{AnswersReport};
ghost use Rattle.service.specs.{Status.IsStatusText, Requests.Status, Served.TellsFailure, Views.seen_at};

use crate::answer::Media;
use crate::context::Context;
use crate::responses::{out_of_memory, succeed};
use crate::served::Served;
use audit::Output;
use book::Book;
use decide::{Calibration, ClockFacts, ClockState, clock_state};
use desk::{Desk, Looked};
use gentime::GenTime;
use policy::Counter;
use std::alloc::{AllocError, Global};

/// How often store and signer failed since the start.
#[derive(Clone, Copy)]
struct Faults {
    store: u64,
    signer: u64,
}

/// How long ago the calibration was, in microseconds; negative where its reading is still to come.
fn age(reading: i64, calibration: &Calibration) -> i128
    ensures { result ≡ age reading calibration.now }
{
    i128::from(reading) - i128::from(calibration.reading)
}

/// How old a calibration may become until the drift has used up what is left of the accuracy.
fn drifting(counter: &Counter, left: u64) -> u64
    requires { left ≤ 1_000_000 }
    ensures { result ≡ drifting (counter_view counter.now) left }
{
    if counter.drift_ppb == 0 {
        return counter.max_age_us;
    }
    let drifted = left * 1_000_000_000 / u64::from(counter.drift_ppb);
    drifted.min(counter.max_age_us)
}

/// How old a calibration may become until no token is given under it any more.
#[tactic(auto, unfolding(crate::specs::Status::greatest_age))]
fn greatest_age(counter: &Counter, calibration: &Calibration) -> u64
    ensures { result ≡ greatest_age (counter_view counter.now) calibration.now }
{
    let rounding = GenTime::step(counter.fraction_digits) - 1;
    let accuracy = u64::from(counter.accuracy_us);
    match calibration.uncertainty.checked_add(rounding) {
        Some(taken) if taken <= accuracy => drifting(counter, accuracy - taken),
        _ => 0,
    }
}

/// How many microseconds ago the calibration was; none where its reading is still to come.
fn since(reading: i64, calibration: &Calibration) -> Option<u64>
    ensures { MatchOption result ((n : ℕ) → age reading calibration.now ≡ pos n → ⊥)
        (λ since. age reading calibration.now ≡ pos since) }
{
    u64::try_from(i128::from(reading) - i128::from(calibration.reading)).ok()
}

/// How long it lasts yet: no longer where its reading is still to come.
fn age_left(counter: &Counter, reading: i64, calibration: &Calibration) -> u64
    ensures { result ≡ age_left (counter_view counter.now) reading calibration.now }
{
    match since(reading, calibration) {
        Some(since) => greatest_age(counter, calibration).saturating_sub(since),
        None => 0,
    }
}

/// How long ago the latest calibration was, if there is one.
fn latest_age(clock: &ClockFacts) -> Option<i128>
    ensures { result ≡ option_map (age clock.now.reading) clock.now.calibration }
{
    Some(age(clock.reading, &clock.calibration?))
}

/// How long it lasts yet.
fn latest_left(counter: &Counter, clock: &ClockFacts) -> Option<u64>
    ensures { result ≡ option_map (age_left (counter_view counter.now) clock.now.reading) clock.now.calibration }
{
    Some(age_left(counter, clock.reading, &clock.calibration?))
}

/// Whether the clock lets a token be given.
fn gives(counter: &Counter, clock: &ClockFacts) -> bool
    ensures { Gives (counter_view counter.now) clock.now result }
{
    match clock_state(counter, clock) {
        ClockState::Good(_) => true,
        ClockState::Bad => false,
    }
}

/// A number, or that there is none.
fn number_text(alloc: Global, number: Option<u64>) -> Result<String, AllocError>
    ensures { IfOk result (λ text. string_bytes text ≡ or_none decimal number) }
{
    match number {
        Some(number) => format!(in alloc; "{number}"),
        None => String::from_str(alloc, "none"),
    }
}

/// How long ago something was, or that it never was.
fn age_text(alloc: Global, age: Option<i128>) -> Result<String, AllocError>
    ensures { IfOk result (λ text. string_bytes text ≡ or_none signed_decimal age) }
{
    match age {
        Some(age) => format!(in alloc; "{age}"),
        None => String::from_str(alloc, "none"),
    }
}

/// A genTime with its fraction digits, or that there is none. None where memory runs out.
fn moment_text(alloc: Global, moment: Option<GenTime>) -> Option<Vec<u8>>
    ensures { IfSome result (λ text. text.items ≡ or_none (text_of 6) moment) }
{
    match moment {
        Some(moment) => moment.write(alloc, 6).ok(),
        None => b"none".to_vec(alloc).ok(),
    }
}

/// Whether it is so.
pub(crate) fn yes_or_no(answer: bool) -> &'static str
    ensures { result.now ≡ yes_or_no answer }
{
    if answer { "yes" } else { "no" }
}

/// Appends a line with a name and a value. None where memory runs out.
pub(crate) fn append_named(lines: &mut Vec<u8>, name: &str, value: &[u8]) -> Option<()>
    ensures { OnSome result (lines.new.items ≡ lines.old.items ++ named name.now value.now) }
{
    lines.extend_from_slice(name.as_bytes()).ok()?;
    lines.push(b' ').ok()?;
    lines.extend_from_slice(value).ok()?;
    lines.push(b'\n').ok()
}

/// Appends a line with a number, or with the word that there is none.
pub(crate) fn append_number(
    alloc: Global,
    lines: &mut Vec<u8>,
    name: &str,
    number: Option<u64>,
) -> Option<()>
    ensures { OnSome result (lines.new.items ≡ lines.old.items ++ named name.now (or_none decimal number)) }
{
    let text = number_text(alloc, number).ok()?;
    append_named(lines, name, text.as_bytes())
}

/// Appends the line on the last genTime.
fn append_moment(alloc: Global, lines: &mut Vec<u8>, moment: Option<GenTime>) -> Option<()>
    ensures { OnSome result (lines.new.items
        ≡ lines.old.items ++ named (codes "last-gen-time") (or_none (text_of 6) moment)) }
{
    let text = moment_text(alloc, moment)?;
    append_named(lines, "last-gen-time", &text)
}

/// Appends the lines on the latest calibration: how long ago it was, and how long it lasts yet.
fn append_calibration(
    alloc: Global,
    lines: &mut Vec<u8>,
    age: Option<i128>,
    left: Option<u64>,
) -> Option<()>
    ensures { OnSome result (lines.new.items ≡ lines.old.items ++ calibration_lines age left) }
{
    let text = age_text(alloc, age).ok()?;
    append_named(lines, "calibration-age-us", text.as_bytes())?;
    append_number(alloc, lines, "calibration-left-us", left)
}

/// Appends the lines on whether now is held, and on whether the clock lets a token be given.
fn append_giving(lines: &mut Vec<u8>, held: bool, gives: bool) -> Option<()>
    ensures { OnSome result (lines.new.items ≡ lines.old.items ++ giving_lines held gives) }
{
    append_named(lines, "held", yes_or_no(held).as_bytes())?;
    append_named(lines, "tokens", yes_or_no(gives).as_bytes())
}

/// Appends the lines on the clock.
fn append_clock(
    alloc: Global,
    lines: &mut Vec<u8>,
    counter: &Counter,
    clock: &ClockFacts,
    gives: bool,
) -> Option<()>
    ensures { OnSome result (lines.new.items
        ≡ lines.old.items ++ clock_lines (counter_view counter.now) clock.now gives) }
{
    let age = latest_age(clock);
    let left = latest_left(counter, clock);
    append_moment(alloc, lines, clock.last_gen_time)?;
    append_calibration(alloc, lines, age, left)?;
    append_giving(lines, clock.held, gives)
}

/// Appends the lines on faults of store and signer.
fn append_faults(alloc: Global, lines: &mut Vec<u8>, faults: Faults) -> Option<()>
    ensures { OnSome result (lines.new.items ≡ lines.old.items ++ fault_lines faults.store faults.signer) }
{
    append_number(alloc, lines, "store-faults", Some(faults.store))?;
    append_number(alloc, lines, "signer-faults", Some(faults.signer))
}

/// Appends the line on the database's octets.
fn append_size(alloc: Global, lines: &mut Vec<u8>, octets: Option<u64>) -> Option<()>
    ensures { OnSome result (lines.new.items ≡ lines.old.items ++ size_line octets) }
{
    append_number(alloc, lines, "database-octets", octets)
}

/// The state that was looked at, with the database's octets, if they are known. None where memory runs out.
fn status_text(
    alloc: Global,
    counter: &Counter,
    looked: Looked,
    faults: Faults,
    octets: Option<u64>,
) -> Option<Vec<u8>>
    ensures { IfSome result (λ text. IsStatusText (counter_view counter.now) looked faults.store faults.signer octets
        text.items) }
{
    let gives = gives(counter, &looked.clock);
    let mut lines = Vec::new(alloc);
    append_number(alloc, &mut lines, "serial", Some(looked.serial))?;
    append_clock(alloc, &mut lines, counter, &looked.clock, gives)?;
    append_faults(alloc, &mut lines, faults)?;
    append_size(alloc, &mut lines, octets)?;
    Some(lines)
}

/// How often the desk's store failed.
fn store_faults<B: Book + Drop>(desk: &mut Desk<'_, B>) -> u64
    ensures same { desk.new ≡ desk.old }
    ensures value { result ≡ B.fault_count desk.old.store }
{
    desk.store().faults()
}

/// Tells an operator or an auditor of the counter's state, where the signer has so many faults.
pub(crate) fn serve_status<W: Output, B: Book + Drop>(
    context: &Context<'_>,
    writer: &mut W,
    desk: &mut Desk<'_, B>,
    signer_faults: u64,
) -> Served
    ensures setting { desk.new.setting ≡ desk.old.setting }
    ensures looks { OnlyLooks B.Standing desk.old.store desk.new.store }
    ensures served { AnswersReport B.Standing W.contents (seen_at context.now signer_faults) writer.old writer.new
        desk.old desk.new Status result }
    ensures failed { TellsFailure (W.failures writer.old) (W.failures writer.new) result }
{
    let Ok(looked) = desk.look(context.at.reading) else {
        return out_of_memory(writer, context.at);
    };
    let faults = Faults {
        store: store_faults(desk),
        signer: signer_faults,
    };
    let counter = &desk.policy().counter;
    match status_text(context.alloc, counter, looked, faults, context.octets) {
        Some(text) => succeed(writer, context.at, Media::Text, &text),
        None => out_of_memory(writer, context.at),
    }
}
