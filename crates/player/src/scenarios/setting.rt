//! With what a scenario's desk is opened.
use crate::transcript::{Names, Words, chosen_of};
use cms::{Algorithm, Identity, KeyedHash};
use counter_fakes::FailingSigner;
use policy::{Account, EXAMPLE, Policy};
use std::alloc::Global;

/// The signer of a scenario.
pub type Holder = FailingSigner<KeyedHash>;

/// The record of a policy file, that of another, the identities and the algorithm.
#[derive(Drop)]
pub struct Setting {
    pub policy: Policy,
    pub other: Policy,
    pub identity: Identity,
    /// Another identity, for successions.
    pub next: Identity,
    pub algorithm: Algorithm,
}

/// The rest of a scenario's line that begins with that word.
fn rest_of<'t>(scenario: &'t str, word: &str) -> Option<&'t str> {
    for line in scenario.lines() {
        let mut words = Words { rest: line };
        if words.next() == word {
            return Some(words.rest);
        }
    }
    None
}

fn text_of<'n>(names: &'n Names, name: &str) -> Option<&'n str> {
    str::from_utf8(names.octets(name)).ok()
}

/// The example of a policy file with its first `old` replaced.
fn changed(alloc: Global, old: &str, new: &str) -> Option<Policy> {
    let (front, back) = EXAMPLE.split_once(old)?;
    let text = format!(in alloc; "{front}{new}{back}").ok()?;
    Policy::from_text(alloc, &text).ok()
}

/// The example, in which a line may say by two names what is replaced and by what, or another file by its name.
fn policy_by(alloc: Global, names: &Names, line: Option<&str>) -> Option<Policy> {
    let Some(rest) = line else {
        return Policy::from_text(alloc, EXAMPLE).ok();
    };
    let mut words = Words { rest };
    let first = text_of(names, words.next())?;
    match words.next() {
        "" => Policy::from_text(alloc, first).ok(),
        second => changed(alloc, first, text_of(names, second)?),
    }
}

/// The identity of a certificate and a chain that a line may name; without it, of the certificate of all scenarios.
fn identity_by(alloc: Global, names: &Names, line: Option<&str>) -> Option<Identity> {
    let mut words = Words {
        rest: line.unwrap_or("CERTIFICATE"),
    };
    let certificate = names.octets(words.next());
    match words.next() {
        "" => Identity::from_certificate(alloc, certificate).ok(),
        chain => Identity::from_parts(alloc, certificate, names.octets(chain)).ok(),
    }
}

/// The setting of a scenario.
pub fn setting_of(alloc: Global, names: &Names, scenario: &str) -> Option<Setting> {
    let policy = policy_by(alloc, names, rest_of(scenario, "policy"))?;
    let other = policy_by(alloc, names, rest_of(scenario, "other"))?;
    let identity = identity_by(alloc, names, rest_of(scenario, "identity"))?;
    let next = identity_by(alloc, names, rest_of(scenario, "next"))?;
    let algorithm = Algorithm::from_bytes(alloc, names.octets("ALGORITHM")).ok()?;
    Some(Setting {
        policy,
        other,
        identity,
        next,
        algorithm,
    })
}

/// A signer with a key that fails at the calls that the line `signer NUMBER..` chooses.
pub fn signer_of(alloc: Global, scenario: &str) -> Option<Holder> {
    let signer = KeyedHash::new(alloc, b"k").ok()?;
    let chosen = chosen_of(alloc, rest_of(scenario, "signer").unwrap_or(""), ' ').ok()?;
    Some(FailingSigner::new(signer, chosen))
}

impl Setting {
    /// The account of a name; one with `other/` in front is the other file's.
    pub fn account(&self, name: &str) -> Option<&Account> {
        match name.strip_prefix("other/") {
            Some(name) => self.other.account_named(name),
            None => self.policy.account_named(name),
        }
    }
}
