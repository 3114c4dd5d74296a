//! The forms of operators (URL Standard 5.1).
ghost use Rattle.std.specs.Prelude.{◌≡◌, ◌≤◌, length, option_map, IfOk};
ghost use Rattle.form_urlencoded.specs.Form.{raw_pairs};
ghost use Rattle.book.specs.{Sound.greatest_number, Values.calibration_view, Values.hold_view};
ghost use Rattle.service.specs.Forms.{field_of, field_stated, fields_counted, calibration_stated, hold_stated};
ghost use Rattle.service.specs.{Numbers.micros_in, Numbers.signed_in, Views.result_by};

use crate::numbers::{micros_in, signed_in};
use crate::refusal::Refusal;
use book::{Calibration, Hold};
use form_urlencoded::raw_pairs;

/// The greatest uncertainty of a calibration, in microseconds.
const MOST_UNCERTAINTY: u64 = 1_000_000_000_000;

/// The value of a field.
#[tactic(auto, using(crate::proofs::Operators::found_first, crate::proofs::Operators::found_later))]
fn field_of<'b>(form: &'b [u8], name: &str) -> Option<&'b [u8]>
    ensures { option_map (λ value. value.now) result ≡ field_of name.now (raw_pairs form.now) }
{
    for (found, value) in raw_pairs(form) {
        if found == name.as_bytes() {
            return Some(value);
        }
    }
    None
}

/// How many fields stand.
fn count_of(form: &[u8]) -> usize
    ensures { result ≡ length (raw_pairs form.now) }
{
    let mut count = 0;
    for _ in raw_pairs(form) {
        count += 1;
    }
    count
}

/// So many fields stand.
fn check_count(form: &[u8], count: usize) -> Result<(), Refusal>
    ensures { result ≡ fields_counted count form.now }
{
    if count_of(form) == count {
        Ok(())
    } else {
        Err(Refusal::BadField)
    }
}

/// The number of microseconds that a field states.
fn micros(form: &[u8], name: &str) -> Result<u64, Refusal>
    ensures value { result ≡ field_stated micros_in name.now form.now }
    ensures few { IfOk result (λ n. n ≤ greatest_number) }
{
    let value = field_of(form, name).ok_or(Refusal::BadField)?;
    micros_in(value).ok_or(Refusal::BadField)
}

/// The number of microseconds that a field states, or minus such a number.
fn signed(form: &[u8], name: &str) -> Result<i64, Refusal>
    ensures { result ≡ field_stated signed_in name.now form.now }
{
    let value = field_of(form, name).ok_or(Refusal::BadField)?;
    signed_in(value).ok_or(Refusal::BadField)
}

/// The calibration that a form states.
#[tactic(auto, unfolding(crate::specs::Forms::calibration_stated))]
pub(crate) fn calibration_stated(form: &[u8]) -> Result<Calibration, Refusal>
    ensures { result_by calibration_view result ≡ calibration_stated form.now }
{
    check_count(form, 3)?;
    let reading = micros(form, "reading")?;
    let offset = signed(form, "offset")?;
    let uncertainty = micros(form, "uncertainty")?;
    if uncertainty > MOST_UNCERTAINTY {
        return Err(Refusal::BadField);
    }
    Ok(Calibration {
        reading: reading as i64,
        offset,
        uncertainty,
    })
}

/// The hold that a form states.
#[tactic(auto, unfolding(crate::specs::Forms::hold_stated))]
pub(crate) fn hold_stated(form: &[u8]) -> Result<Hold, Refusal>
    ensures { result_by hold_view result ≡ hold_stated form.now }
{
    check_count(form, 2)?;
    let from = micros(form, "from")?;
    let to = micros(form, "to")?;
    if from >= to {
        return Err(Refusal::BadField);
    }
    Ok(Hold {
        from: from as i64,
        to: to as i64,
    })
}
