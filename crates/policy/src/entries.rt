ghost use Rattle.std.specs.Prelude.{◌≤◌};

use der::Oid;

/// How the counter keeps time (the table `counter`).
#[derive(Drop)]
pub struct Counter {
    /// How far the true moment may be away from a token's genTime, 1 to 1,000,000 microseconds (RFC 3161 2.4.2,
    /// accuracy).
    pub accuracy_us: u32,
    /// How many fraction digits a genTime has at most, 0 to 6.
    pub fraction_digits: u8,
    /// Whether tokens are ordered by their genTime alone (RFC 3161 2.4.2, ordering).
    pub ordering: bool,
    /// How fast the clock may drift, 0 to 1,000,000 parts in 10^9.
    pub drift_ppb: u32,
    /// How old the latest calibration may be, 1 to 31,536,000,000,000 microseconds.
    pub max_age_us: u64,
    /// The name of the account of those that show no key, if any.
    pub anonymous: Option<String>,
    /// Whether tokens name the authority: the subject of its certificate (RFC 3161 2.4.2, tsa).
    pub tsa_name: bool,
    ghost accuracy_some: { 1 ≤ accuracy_us },
    ghost accuracy: { accuracy_us ≤ 1_000_000 },
    ghost digits: { fraction_digits ≤ 6 },
}

/// A hash algorithm that requests may name (the array `algorithm`).
#[derive(Drop)]
pub struct Algorithm {
    /// The name by which policies list it.
    pub name: String,
    /// The object identifier that requests name.
    pub oid: Oid,
    /// How many octets its hashes have, 16 to 64.
    pub length: u8,
}

/// An extension that requests may bring (the array `extension`).
#[derive(Drop)]
pub struct Extension {
    /// The name by which policies list it.
    pub name: String,
    /// The object identifier that requests name.
    pub oid: Oid,
    /// How many octets its value has at most, 0 to 4,096.
    pub max_length: u16,
}

/// A TSA policy, under which tokens are given (RFC 3161 2.4.1, TSAPolicyId; the array `policy`).
#[derive(Drop)]
pub struct TsaPolicy {
    /// The name by which accounts list it.
    pub name: String,
    /// The object identifier that requests and tokens name.
    pub oid: Oid,
    /// The names of the algorithms that it allows, at least one.
    pub algorithms: Vec<String>,
    /// The names of the extensions that it knows.
    pub extensions: Vec<String>,
    /// Whether it gives the certificate out where a request asks for it (RFC 3161 2.4.1, certReq).
    pub certificate: bool,
}

/// Somebody for whom tokens are given (the array `account`).
#[derive(Drop)]
pub struct Account {
    /// The name, which no other account has.
    pub name: String,
    /// The SHA-256 of its key; none where it has no key.
    pub key_sha256: Option<[u8; 32]>,
    /// Whether it may act.
    pub active: bool,
    /// Whether it may see every stamp.
    pub auditor: bool,
    /// Whether it may add calibrations of the clock, and holds.
    pub operator: bool,
    /// The names of its policies, at least one. The first is its default.
    pub policies: Vec<String>,
    /// How many reservations it may have on one UTC day of genTime, void ones too, 0 to 1,000,000,000.
    pub daily_quota: u32,
}

/// Accounts with whom a deposit can be shared under one name (the array `group`).
#[derive(Drop)]
pub struct Group {
    /// The name, which no other group has.
    pub name: String,
    /// The names of the accounts that are its members, at least one.
    pub members: Vec<String>,
}
