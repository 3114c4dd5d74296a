/// An example of a policy file: two algorithms, an extension, two policies and five accounts. Tests of this crate and
/// of those above start from it. `docs/example-policy.toml` has the same, with comments.
pub const EXAMPLE: &str = r#"[counter]
accuracy_us = 1000000
fraction_digits = 0
drift_ppb = 0
max_age_us = 86400000000
anonymous = "guest"
[[algorithm]]
name = "sha256"
oid = "2.16.840.1.101.3.4.2.1"
length = 32
[[algorithm]]
name = "sha512"
oid = "2.16.840.1.101.3.4.2.3"
length = 64
[[extension]]
name = "batch"
oid = "2.999.7"
max_length = 4
[[policy]]
name = "open"
oid = "2.999.1"
algorithms = ["sha256", "sha512"]
extensions = ["batch"]
[[policy]]
name = "strict"
oid = "2.999.2"
algorithms = ["sha512"]
certificate = false
[[account]]
name = "guest"
policies = ["open"]
daily_quota = 1000
[[account]]
name = "alice"
key_sha256 = "2cf24dba5fb0a30e26e83b2ac5b9e29e1b161e5c1fa7425e73043362938b9824"
policies = ["open", "strict"]
daily_quota = 1000
[[account]]
name = "bob"
key_sha256 = "9f86d081884c7d659a2feaa0c55ad015a3bf4f1b2b0b822cd15d6c15b0f00a08"
policies = ["open"]
daily_quota = 1000
[[account]]
name = "carol"
key_sha256 = "2c26b46b68ffc68ff99b453c1d30413413422d706483bfa0f98a5e886266e7ae"
policies = ["open"]
daily_quota = 2
[[account]]
name = "audra"
key_sha256 = "ca978112ca1bbdcafac231b39a23dc4da786eff8147c4e72b9807785afee48bb"
auditor = true
policies = ["open"]
daily_quota = 1000
"#;
