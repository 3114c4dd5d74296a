//! The parts of a GeneralizedTime (X.690 11.7), and their octets.

ghost use Rattle.std.specs.Prelude.{◌≡◌, ◌+◌, ◌%◌, ◌<◌, ◌≤◌, ◌++◌, IfOk, OnOk, pos};
ghost use Rattle.gentime.specs.Calendar.{civil_date};
ghost use Rattle.gentime.specs.GenTime as spec;

use jiff_core::civil::Date;
use std::alloc::{AllocError, Global};

/// The parts of a time. The fraction has the octets of its digits, from the tenths on.
#[derive(Clone, Copy)]
pub(crate) struct Components<'a> {
    pub(crate) year: u16,
    pub(crate) month: u8,
    pub(crate) day: u8,
    pub(crate) hour: u8,
    pub(crate) minute: u8,
    pub(crate) second: u8,
    pub(crate) fraction: &'a [u8],
}

impl<'a> Components<'a> {
    ghost use Rattle.gentime.specs.auxiliary.Components.{plain};

    /// The parts of a moment, given in microseconds since 1970, with the digits of its fraction.
    pub(crate) fn of(moment: u64, fraction: &'a [u8]) -> Components<'a>
        requires moment { moment ≤ spec.last_moment }
        requires fraction { fraction.now ≡ spec.fraction_of (moment % 1_000_000) }
        ensures parts { plain result ≡ spec.time_of moment }
        ensures year { result.year < 10_000 }
    {
        let date = civil_date((moment / 86_400_000_000) as u32);
        let seconds = (moment % 86_400_000_000 / 1_000_000) as u32;
        Components {
            year: date.year as u16,
            month: date.month,
            day: date.day,
            hour: (seconds / 3_600) as u8,
            minute: (seconds / 60 % 60) as u8,
            second: (seconds % 60) as u8,
            fraction,
        }
    }

    /// `YYYYMMDDhhmmss`, the fraction after a point where it has digits, and `Z`.
    #[tactic(auto, unfolding(crate::specs::GenTime::spelling))]
    pub(crate) fn spell(&self, alloc: Global) -> Result<Vec<u8>, AllocError>
        requires { self.now.year < 10_000 }
        ensures { IfOk result (λ text. text.items ≡ spec.spelling (plain self.now)) }
    {
        let mut text = Vec::with_capacity(alloc, 16 + self.fraction.len())?;
        let pairs = [
            (self.year / 100) as u8,
            (self.year % 100) as u8,
            self.month,
            self.day,
            self.hour,
            self.minute,
            self.second,
        ];
        for pair in pairs {
            text.extend_from_slice(&two_digits(pair))?;
        }
        push_fraction(&mut text, self.fraction)?;
        text.push(b'Z')?;
        Ok(text)
    }
}

/// The date with that day number, where 1970-01-01 is 0.
fn civil_date(day: u32) -> Date
    requires { day ≤ 2_932_896 }
    ensures year { result.year ≡ pos (civil_date day).year }
    ensures month { result.month ≡ (civil_date day).month }
    ensures day { result.day ≡ (civil_date day).day }
    ensures bound { (civil_date day).year < 10_000 }
{
    Date::from_unix_epoch_day(day as i64).unwrap()
}

/// Appends the digits of a fraction after a point, and nothing where there are none.
fn push_fraction(text: &mut Vec<u8>, fraction: &[u8]) -> Result<(), AllocError>
    ensures { OnOk result (text.new.items ≡ text.old.items ++ spec.point_and fraction.now) }
{
    if fraction.is_empty() {
        return Ok(());
    }
    text.push(b'.')?;
    text.extend_from_slice(fraction)
}

/// The two decimal digits of a number below 100.
fn two_digits(n: u8) -> [u8; 2]
    ensures { result ≡ spec.two_digits n }
{
    [b'0' + n / 10, b'0' + n % 10]
}

/// The six digits of a fraction in microseconds.
pub(crate) fn six_digits(micros: u32) -> [u8; 6]
    requires { micros < 1_000_000 }
    ensures { result ≡ spec.six_digits micros }
{
    let [a, b] = two_digits((micros / 10_000) as u8);
    let [c, d] = two_digits((micros / 100 % 100) as u8);
    let [e, f] = two_digits((micros % 100) as u8);
    [a, b, c, d, e, f]
}

/// The digits without the zeros at their end.
pub(crate) fn without_trailing_zeros(digits: &[u8]) -> &[u8]
    ensures { result.now ≡ spec.without_trailing_zeros digits.now }
{
    let mut end = digits.len();
    while end > 0 && digits[end - 1] == b'0' {
        end -= 1;
    }
    &digits[..end]
}
