//! By what requests are answered.
use cms::{Algorithm, Identity};
use desk::{Desk, Settings};
use policy::{EXAMPLE, Policy};
use std::alloc::Global;
use store::Book;

/// A certificate of 102 octets, by hand; its keys are none.
pub const CERTIFICATE: &[u8] =
    b"\x30\x64\x30\x57\x02\x01\x07\x30\x05\x06\x03\x88\x37\x09\x30\x0e\x31\x0c\x30\x0a\x06\x03\x55\x04\x03\x0c\x03\
    \x54\x53\x41\x30\x1e\x17\x0d\x37\x30\x30\x31\x30\x31\x30\x30\x30\x30\x30\x30\x5a\x17\x0d\x34\x39\x31\x32\x33\
    \x31\x32\x33\x35\x39\x35\x39\x5a\x30\x0e\x31\x0c\x30\x0a\x06\x03\x55\x04\x03\x0c\x03\x54\x53\x41\x30\x0b\x30\
    \x05\x06\x03\x88\x37\x09\x03\x02\x00\x01\x30\x05\x06\x03\x88\x37\x09\x03\x02\x00\x01";

/// The same certificate under the serial number 6.
const SECOND_CERTIFICATE: &[u8] =
    b"\x30\x64\x30\x57\x02\x01\x06\x30\x05\x06\x03\x88\x37\x09\x30\x0e\x31\x0c\x30\x0a\x06\x03\x55\x04\x03\x0c\x03\
    \x54\x53\x41\x30\x1e\x17\x0d\x37\x30\x30\x31\x30\x31\x30\x30\x30\x30\x30\x30\x5a\x17\x0d\x34\x39\x31\x32\x33\
    \x31\x32\x33\x35\x39\x35\x39\x5a\x30\x0e\x31\x0c\x30\x0a\x06\x03\x55\x04\x03\x0c\x03\x54\x53\x41\x30\x0b\x30\
    \x05\x06\x03\x88\x37\x09\x03\x02\x00\x01\x30\x05\x06\x03\x88\x37\x09\x03\x02\x00\x01";

/// The AlgorithmIdentifier of the stand-in signer, 2.999.9.
const ALGORITHM: &[u8] = b"\x30\x05\x06\x03\x88\x37\x09";

/// A time-stamp request for the SHA-256 digest of `abc` (RFC 3161 2.4.1).
pub const REQUEST: &[u8] =
    b"\x30\x36\x02\x01\x01\x30\x31\x30\x0d\x06\x09\x60\x86\x48\x01\x65\x03\x04\x02\x01\x05\x00\x04\x20\
    \xba\x78\x16\xbf\x8f\x01\xcf\xea\x41\x41\x40\xde\x5d\xae\x22\x23\
    \xb0\x03\x61\xa3\x96\x17\x7a\x9c\xb4\x10\xff\x61\xf2\x00\x15\xad";

/// The rejection by rule 12 (docs/formats.md).
pub const RULE_12: &[u8] =
    b"\x30\x17\x30\x15\x02\x01\x02\x30\x09\x0c\x07rule 12\x03\x05\x06\x00\x00\x00\x40";

/// What a policy file says of groups.
const GROUPS: &str = "[[group]]\nname = \"staff\"\nmembers = [\"bob\", \"carol\"]\n";

/// A policy file's record, a certificate, one that may succeed it, and the signer's algorithm.
#[derive(Drop)]
pub struct Setting {
    pub policy: Policy,
    pub identity: Identity,
    pub successor: Identity,
    pub algorithm: Algorithm,
}

impl Setting {
    /// That of a policy file, a certificate and an AlgorithmIdentifier.
    pub fn new(
        alloc: Global,
        rules: &str,
        certificate: &[u8],
        algorithm: &[u8],
    ) -> anyhow::Result<Setting> {
        Ok(Setting {
            policy: Policy::from_text(alloc, rules)?,
            identity: Identity::from_certificate(alloc, certificate)?,
            successor: Identity::from_certificate(alloc, SECOND_CERTIFICATE)?,
            algorithm: Algorithm::from_bytes(alloc, algorithm)?,
        })
    }

    /// The certificate in force, before the succession or after it.
    pub fn identity_after(&self, is_succeeded: bool) -> &Identity {
        if is_succeeded {
            &self.successor
        } else {
            &self.identity
        }
    }

    /// By what a desk answers, before the succession or after it.
    pub fn settings_after(&self, is_succeeded: bool) -> Settings<'_> {
        Settings {
            policy: &self.policy,
            identity: self.identity_after(is_succeeded),
            algorithm: &self.algorithm,
        }
    }
}

/// The example of a policy file, with quotas that aren't used up, an auditor who is an operator too, and a group.
pub fn example_setting(alloc: Global) -> anyhow::Result<Setting> {
    let rules = EXAMPLE.replace(alloc, "daily_quota = 1000\n", "daily_quota = 1000000\n")?;
    let mut rules = rules.replace(
        alloc,
        "auditor = true\n",
        "auditor = true\noperator = true\n",
    )?;
    rules.push_str(GROUPS)?;
    Setting::new(alloc, &rules, CERTIFICATE, ALGORITHM)
}

/// A desk over a book, before a succession.
pub fn open_desk<B: Book + Drop>(
    alloc: Global,
    setting: &Setting,
    book: B,
) -> anyhow::Result<Desk<'_, B>> {
    match Desk::open(alloc, setting.settings_after(false), book) {
        Ok(desk) => Ok(desk),
        Err((fault, _book)) => Err(fault.into()),
    }
}
