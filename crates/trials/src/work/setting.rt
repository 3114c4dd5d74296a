//! By what the request is answered.
use crate::setting::Setting;
use std::alloc::Global;

/// A time-stamp request for a SHA-256 digest of 32 octets 11 (RFC 3161 2.4.1), with certReq TRUE.
pub const REQUEST: [u8; 59] = [
    0x30, 0x39, 0x02, 0x01, 0x01, 0x30, 0x31, 0x30, 0x0d, 0x06, 0x09, 0x60, 0x86, 0x48, 0x01, 0x65,
    0x03, 0x04, 0x02, 0x01, 0x05, 0x00, 0x04, 0x20, 0x11, 0x11, 0x11, 0x11, 0x11, 0x11, 0x11, 0x11,
    0x11, 0x11, 0x11, 0x11, 0x11, 0x11, 0x11, 0x11, 0x11, 0x11, 0x11, 0x11, 0x11, 0x11, 0x11, 0x11,
    0x11, 0x11, 0x11, 0x11, 0x11, 0x11, 0x11, 0x11, 0x01, 0x01, 0xff,
];

/// The AlgorithmIdentifier of ECDSA with SHA-256, 1.2.840.10045.4.3.2 (RFC 5758 3.2).
const ALGORITHM: &[u8] = b"\x30\x0a\x06\x08\x2a\x86\x48\xce\x3d\x04\x03\x02";

/// A policy file of one account, whose quota isn't used up here.
const RULES: &str = "\
[counter]
accuracy_us = 1000000
fraction_digits = 0
drift_ppb = 0
max_age_us = 86400000000
anonymous = \"guest\"
[[algorithm]]
name = \"sha256\"
oid = \"2.16.840.1.101.3.4.2.1\"
length = 32
[[policy]]
name = \"open\"
oid = \"2.999.1\"
algorithms = [\"sha256\"]
[[account]]
name = \"guest\"
policies = [\"open\"]
daily_quota = 1000000000
";

/// The setting with a certificate.
pub fn setting_of(alloc: Global, certificate: &[u8]) -> anyhow::Result<Setting> {
    Setting::new(alloc, RULES, certificate, ALGORITHM)
}
