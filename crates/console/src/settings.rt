ghost use Rattle.std.specs.Prelude.{◌≡◌, ◌⊎◌, ◌↔◌, ◌^◌, ◌<◌, ◌≤◌, None, Err, IfOk, IfErr};
ghost use Rattle.der.specs.{OidText.oid_of_text, declared.fault.DerFault.TheVariants.BadValue};
ghost use Rattle.gentime.specs.GenTime.{last_moment, round_down};

use crate::fault::{Fault, InputFault};
use command_line::TstWords;
use der::{DerFault, Oid};
use gentime::GenTime;
use std::alloc::Global;

/// What a TSTInfo says besides what its request says.
#[derive(Drop)]
pub struct Settings {
    /// The policy of a request that states none.
    pub policy: Oid,
    /// The moment, which is rounded down to the fraction digits.
    pub moment: GenTime,
    /// How many fraction digits of a second the genTime has at most, 0 to 6.
    pub digits: u8,
    /// The serial number, 1 to 2^63 - 1.
    pub serial: u64,
    /// The accuracy, 1 to 1,000,000 microseconds.
    pub accuracy: u32,
    /// Whether the TSTInfo states that tokens are ordered.
    pub ordering: bool,
    ghost fraction: { digits ≤ 6 },
    ghost first_serial: { 1 ≤ serial },
    ghost last_serial: { serial < 2 ^ 63 },
    ghost some_accuracy: { 1 ≤ accuracy },
    ghost most_accuracy: { accuracy ≤ 1000000 },
}

impl Settings {
    ghost use Rattle.console.specs.Settings.{settings_value, States};

    /// The settings that the words state. A policy that is no object identifier's text is refused as `der` 8, whatever
    /// memory there is, and want of memory over another is `input` 7.
    pub fn of_words(alloc: Global, words: &TstWords<'_>) -> Result<Settings, Fault>
        ensures found { IfOk result (λ settings. States words.now (settings_value settings)) }
        ensures refused { (result ≡ Err (Fault.Der BadValue)) ↔ (oid_of_text words.now.policy.now ≡ None) }
        ensures faults { IfErr result (λ fault.
            (fault ≡ Fault.Der BadValue) ⊎ (fault ≡ Fault.Input InputFault.Memory)) }
    {
        let policy = match Oid::parse_text(alloc, words.policy) {
            Ok(policy) => policy,
            Err(DerFault::Memory) => return Err(Fault::Input(InputFault::Memory)),
            Err(fault) => return Err(Fault::Der(fault)),
        };
        let moment = GenTime::from_micros(words.moment as i64).unwrap();
        Ok(Settings {
            policy,
            moment,
            digits: words.digits,
            serial: words.serial,
            accuracy: words.accuracy,
            ordering: words.ordering,
        })
    }

    /// The moment, rounded down to the fraction digits.
    pub fn gen_time(&self) -> GenTime
        ensures rounded { result ≡ round_down self.now.digits self.now.moment }
        ensures bound { result ≤ last_moment }
    {
        self.moment.rounded_down(self.digits)
    }
}
