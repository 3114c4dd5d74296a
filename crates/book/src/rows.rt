/// A stamp: a reservation, and its token once it is sealed.
#[derive(Drop)]
pub struct Stamp {
    pub serial: u64,
    pub account: String,
    /// The UTC day of its genTime, counted from 1970-01-01.
    pub day: u64,
    /// In microseconds since 1970-01-01T00:00:00Z.
    pub gen_time: u64,
    /// The contents octets of the policy's object identifier (X.690 8.19).
    pub policy: Vec<u8>,
    /// The contents octets of the hash algorithm's object identifier.
    pub algorithm: Vec<u8>,
    pub digest: Vec<u8>,
    /// The request, a whole DER text.
    pub request: Vec<u8>,
    /// The TSTInfo, a whole DER text.
    pub tst: Vec<u8>,
    /// The token, once it is sealed.
    pub token: Option<Vec<u8>>,
}

/// A deposit. Its number is the serial number of its stamp.
#[derive(Debug, Drop)]
pub struct Deposit {
    pub serial: u64,
    pub owner: String,
    pub reference: String,
    pub bytes: Vec<u8>,
}

/// An identity that was installed: who signs from then on.
#[derive(Drop)]
pub struct IdentityRow {
    /// 1, 2, 3 and so on in the order in which they were installed.
    pub number: u64,
    /// The greatest serial number that was reserved before, 0 where none was.
    pub after_serial: u64,
    /// The signer's certificate, a whole DER text (RFC 5280 4.1).
    pub certificate: Vec<u8>,
    /// The further certificates of its chain, one after the other.
    pub chain: Vec<u8>,
}
