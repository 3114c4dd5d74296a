//! The parts that octets state (X.690 11.7), whether or not the calendar has them.

ghost use Rattle.std.specs.Prelude.{◌≡◌, ◌↔◌, ◌<◌, ◌≤◌, ◌≤ℤ◌, pos, IsSome, List, ℕ, [], ◌∷◌, ◌++◌, length, option_map};
ghost use Rattle.std.specs.{Prelude.IfSome, Prelude.IsTrue, Prelude.Some, Char.IsAsciiDigit, List.All};
ghost use Rattle.gentime.specs.auxiliary.{Fraction.micros_of, Pairs.pair_at, Pairs.pairs_at};
ghost use Rattle.jiff_core.specs.Date.{epoch_day};
ghost use Rattle.gentime.specs.GenTime.{point_and, GeneralizedTime, IsFraction, HasParts, HasForm, IsTime, IsCounted};
ghost use Rattle.gentime.specs.GenTime.{last_moment, time_of};

use crate::components::Components;
use jiff_core::civil::Date;

impl<'a> Components<'a> {
    ghost use Rattle.gentime.specs.auxiliary.Components.{plain, IsDateOf};

    /// The parts that the octets state, where they are a GeneralizedTime in DER.
    pub(crate) fn read(octets: &'a [u8]) -> Option<Components<'a>>
        ensures stated { IfSome result (λ parts. HasForm octets.now (plain parts)) }
        ensures only { (time : GeneralizedTime) → HasForm octets.now time → option_map plain result ≡ Some time }
    {
        let ([century, year, month, day, hour, minute, second], rest) = pairs(octets)?;
        let fraction = fraction(rest)?;
        Some(Components {
            year: u16::from(century) * 100 + u16::from(year),
            month,
            day,
            hour,
            minute,
            second,
            fraction,
        })
    }

    /// The date, where the calendar has it and the day has the time.
    pub(crate) fn date(&self) -> Option<Date>
        requires { HasParts (plain self.now) }
        ensures date { IfSome result (IsDateOf (plain self.now)) }
        ensures exists { IsSome result ↔ IsTime (plain self.now) }
    {
        if self.hour > 23 || self.minute > 59 || self.second > 59 {
            return None;
        }
        Date::new(self.year as i16, self.month as i8, self.day as i8).ok()
    }

    /// The microseconds since 1970, where the time is 1970 or later and states whole microseconds. The date is the
    /// time's.
    pub(crate) fn micros(&self, date: Date) -> Option<u64>
        requires formed { HasParts (plain self.now) }
        requires time { IsTime (plain self.now) }
        requires date { IsDateOf (plain self.now) date }
        ensures moment { IfSome result (λ moment. (moment ≤ last_moment) × (time_of moment ≡ plain self.now)) }
        ensures counted { IsSome result ↔ IsCounted (plain self.now) }
    {
        if self.year < 1970 || self.fraction.len() > 6 {
            return None;
        }
        let day = u64::from(days_since_1970(date));
        let seconds = u64::from(self.hour) * 3_600
            + u64::from(self.minute) * 60
            + u64::from(self.second);
        Some((day * 86_400 + seconds) * 1_000_000 + u64::from(micros_of(self.fraction)))
    }
}

/// The day number of a date from 1970 on.
fn days_since_1970(date: Date) -> u32
    requires { pos 1970 ≤ℤ date.year }
    ensures day { epoch_day date ≡ pos result }
    ensures bound { result ≤ 2_932_896 }
{
    date.to_unix_epoch_day().unsigned_abs()
}

/// The microseconds of a fraction of a second.
fn micros_of(digits: &[u8]) -> u32
    requires { All IsAsciiDigit digits.now }
    ensures value { result ≡ micros_of digits.now }
    ensures bound { result < 1_000_000 }
{
    let mut micros = 0;
    let mut unit = 100_000;
    for digit in digits {
        micros += u32::from(*digit - b'0') * unit;
        unit /= 10;
    }
    micros
}

/// The number of the first two digits, and the octets behind them.
#[tactic(auto, unfolding(crate::specs::auxiliary::Pairs::pair_at))]
fn pair(octets: &[u8]) -> Option<(u8, &[u8])>
    ensures { option_map (λ p. (p.0, p.1.now)) result ≡ pair_at octets.now }
{
    let [tens, ones, rest @ ..] = octets else {
        return None;
    };
    if !tens.is_ascii_digit() || !ones.is_ascii_digit() {
        return None;
    }
    Some(((*tens - b'0') * 10 + (*ones - b'0'), rest))
}

/// The seven numbers of two digits at the front, and the octets behind them.
#[tactic(auto, unfolding(crate::specs::auxiliary::Pairs::pairs_at))]
fn pairs(octets: &[u8]) -> Option<([u8; 7], &[u8])>
    ensures { option_map (λ p. (p.0, p.1.now)) result ≡ pairs_at 7 octets.now }
{
    let (century, rest) = pair(octets)?;
    let (year, rest) = pair(rest)?;
    let (month, rest) = pair(rest)?;
    let (day, rest) = pair(rest)?;
    let (hour, rest) = pair(rest)?;
    let (minute, rest) = pair(rest)?;
    let (second, rest) = pair(rest)?;
    Some(([century, year, month, day, hour, minute, second], rest))
}

/// The digits of the fraction, where the octets are a fraction in DER and `Z`.
fn fraction(octets: &[u8]) -> Option<&[u8]>
    ensures stated { IfSome result (λ digits. IsFraction digits.now × (octets.now
        ≡ point_and digits.now ++ 0x5A ∷ [])) }
    ensures only { (digits : List ℕ) → IsFraction digits → octets.now ≡ point_and digits ++ 0x5A ∷ []
        → option_map (λ x. x.now) result ≡ Some digits }
{
    let (last, front) = octets.split_last()?;
    if *last != b'Z' {
        return None;
    }
    match front {
        [] => Some(front),
        [b'.', digits @ ..] if is_fraction(digits) => Some(digits),
        _ => None,
    }
}

/// Whether these are digits, of which the last is no zero.
fn is_fraction(octets: &[u8]) -> bool
    ensures { IsTrue result ↔ (IsFraction octets.now × (0 < length octets.now)) }
{
    let Some((last, _)) = octets.split_last() else {
        return false;
    };
    *last != b'0' && are_digits(octets)
}

fn are_digits(octets: &[u8]) -> bool
    ensures { IsTrue result ↔ All IsAsciiDigit octets.now }
{
    octets.iter().all(|octet| octet.is_ascii_digit())
}
