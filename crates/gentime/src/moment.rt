//! A moment, as a clock counts it.

ghost use Rattle.std.specs.Prelude.{◌≡◌, ◌↔◌, ◌≤◌, ◌-◌, ◌^◌, ℕ, length, pos, ◌≤ℤ◌, IsOk, IfOk, IfErr, IsErrOf, Ok};
ghost use Rattle.gentime.specs.GenTime.{last_moment, round_down, day_of, text_of, GeneralizedTime, HasForm, IsTime};
ghost use Rattle.gentime.specs.GenTime.{IsCounted};

use crate::components::{Components, six_digits, without_trailing_zeros};
use crate::fault::GenTimeFault;
use std::alloc::Global;
use std::marker::Model;

/// The last moment that a genTime can state, 9999-12-31T23:59:59.999999Z, in microseconds since 1970-01-01T00:00:00Z.
pub const LAST_MOMENT: i64 = 253_402_300_799_999_999;

/// A moment from 1970-01-01T00:00:00Z to 9999-12-31T23:59:59.999999Z: whole microseconds since the first, without leap
/// seconds.
#[derive(Clone, Copy, PartialEq, Eq, PartialOrd, Ord)]
pub struct GenTime {
    micros: u64,
}

impl Model for GenTime {
    ghost use Rattle.std.specs.Prelude.{ℕ, ◌≤◌};
    ghost use Rattle.gentime.specs.GenTime.{last_moment};

    ghost Value = { ℕ };

    ghost view = { λ moment. moment.micros };

    ghost invariant = { λ moment. moment.micros ≤ last_moment };

    ghost inverse = { λ micros. record { micros = micros } };
}

/// The moment whose genTime with six digits the octets are (RFC 3161 2.4.2, X.690 11.7). Of the refusals that hold it
/// answers the first of these: `Form` where the octets haven't the form of a GeneralizedTime in DER, whether or not
/// there is such a time; `Date` where the calendar has no such date or the day no such time (hour 24 and second 60
/// too); and `Range` where it is before 1970 or has more than six digits of a fraction.
pub fn read(octets: &[u8]) -> Result<GenTime, GenTimeFault>
    ensures text { IfOk result (λ moment. octets.now ≡ text_of 6 moment) }
    ensures moment { (moment : ℕ) → moment ≤ last_moment → octets.now ≡ text_of 6 moment → result ≡ Ok moment }

    // The first refusal that holds.
    ensures form { IsErrOf result GenTimeFault.Form ↔ ((time : GeneralizedTime) → ¬ HasForm octets.now time) }
    ensures date { IsErrOf result GenTimeFault.Date
        ↔ ((time : GeneralizedTime) × HasForm octets.now time × ¬ IsTime time) }
    ensures range { IsErrOf result GenTimeFault.Range
        ↔ ((time : GeneralizedTime) × HasForm octets.now time × IsTime time × ¬ IsCounted time) }
    ensures memory { ¬ IsErrOf result GenTimeFault.Memory }
{
    let time = Components::read(octets).ok_or(GenTimeFault::Form)?;
    let date = time.date().ok_or(GenTimeFault::Date)?;
    let micros = time.micros(date).ok_or(GenTimeFault::Range)?;
    Ok(GenTime { micros })
}

impl GenTime {
    /// The moment that many microseconds after 1970-01-01T00:00:00Z. `Range` where that is before 1970 or after 9999.
    pub fn from_micros(micros: i64) -> Result<GenTime, GenTimeFault>
        ensures succeeds { IsOk result ↔ ((pos 0 ≤ℤ micros) × (micros ≤ℤ pos last_moment)) }
        ensures value { IfOk result (λ moment. pos moment ≡ micros) }
        ensures range { IfErr result (λ fault. fault ≡ GenTimeFault.Range) }
    {
        if micros < 0 || micros > LAST_MOMENT {
            return Err(GenTimeFault::Range);
        }
        Ok(GenTime {
            micros: micros as u64,
        })
    }

    /// The microseconds since 1970-01-01T00:00:00Z.
    pub fn micros(self) -> i64
        ensures value { result ≡ pos self }
        ensures bound { self ≤ last_moment }
    {
        self.micros as i64
    }

    /// The moment's day number: whole days since 1970-01-01, each of 86,400,000,000 microseconds.
    pub fn day(self) -> u64
        ensures value { result ≡ day_of self }
        ensures bound { result ≤ 2_932_896 }
    {
        self.micros / 86_400_000_000
    }

    /// The octets of the moment's genTime with at most that many digits of a fraction, 0 to 6: the moment is rounded
    /// down to them, and zeros at the end of the fraction are left away (RFC 3161 2.4.2, X.690 11.7). `Memory` where an
    /// allocation is refused.
    #[tactic(auto, unfolding(crate::specs::GenTime::text_of))]
    pub fn write(self, alloc: Global, digits: u8) -> Result<Vec<u8>, GenTimeFault>
        requires { digits ≤ 6 }
        ensures text { IfOk result (λ text. text.items ≡ text_of digits self) }
        ensures length { IfOk result (λ text. (15 ≤ length text.items) × (length text.items ≤ 22)) }
        ensures memory { IfErr result (λ fault. fault ≡ GenTimeFault.Memory) }
    {
        let rounded = self.rounded_down(digits).micros;
        let digits = six_digits((rounded % 1_000_000) as u32);
        let parts = Components::of(rounded, without_trailing_zeros(&digits));
        Ok(parts.spell(alloc)?)
    }

    /// How many microseconds the last of so many fraction digits of a second counts; one for more than six digits.
    pub fn step(digits: u8) -> u64
        ensures value { result ≡ 10 ^ (6 - digits) }
        ensures bounds { (1 ≤ result) × (result ≤ 1_000_000) }
    {
        match digits {
            0 => 1_000_000,
            1 => 100_000,
            2 => 10_000,
            3 => 1_000,
            4 => 100,
            5 => 10,
            _ => 1,
        }
    }

    /// The moment, rounded down to that many digits of the fraction of its second; more than six count as six.
    pub fn rounded_down(self, digits: u8) -> GenTime
        ensures { result ≡ round_down digits self }
    {
        let step = GenTime::step(digits);
        GenTime {
            micros: self.micros / step * step,
        }
    }
}
