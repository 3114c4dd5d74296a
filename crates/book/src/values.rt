use crate::rows::{Deposit, Stamp};

/// What is reserved for a stamp before it is signed (RFC 3161 2.4.2).
#[derive(Clone, Copy)]
pub struct Reservation<'a> {
    /// The serial number: above each that was reserved, at most 2^63 - 1.
    pub serial: u64,
    /// The name of the account that asked.
    pub account: &'a str,
    /// The genTime, in microseconds since 1970-01-01T00:00:00Z.
    pub gen_time: u64,
    /// The contents octets of the policy's object identifier (X.690 8.19).
    pub policy: &'a [u8],
    /// The contents octets of the hash algorithm's object identifier.
    pub algorithm: &'a [u8],
    /// The hash that is stamped.
    pub digest: &'a [u8],
    /// The request, a whole DER text.
    pub request: &'a [u8],
    /// The TSTInfo, a whole DER text.
    pub tst: &'a [u8],
}

/// What the clock was found to be at one of its readings.
#[derive(Clone, Copy, Debug)]
pub struct Calibration {
    /// The clock's reading then, in microseconds.
    pub reading: i64,
    /// What has to be added to a reading for the moment, in microseconds since 1970-01-01T00:00:00Z; negative where the
    /// clock is ahead.
    pub offset: i64,
    /// How far the true moment may have been away from that one, in microseconds, at most 10^12.
    pub uncertainty: u64,
}

/// Moments at which no token is given, as around a leap second.
#[derive(Clone, Copy)]
pub struct Hold {
    /// The first of them, in microseconds since 1970-01-01T00:00:00Z.
    pub from: i64,
    /// The first moment after them.
    pub to: i64,
}

/// What was reserved last.
#[derive(Clone, Copy, Debug)]
pub struct Last {
    /// The greatest serial number, 0 where none is reserved.
    pub serial: u64,
    /// The last genTime, in microseconds since 1970-01-01T00:00:00Z.
    pub gen_time: Option<u64>,
}

/// A deposit with its stamp, which has its token.
#[derive(Drop)]
pub struct StampedDeposit {
    /// The deposit.
    pub deposit: Deposit,
    /// The stamp with its number.
    pub stamp: Stamp,
}

/// What a list shows of a deposit.
#[derive(Debug, Drop)]
pub struct Listed {
    /// Its number, which is the serial number of its stamp.
    pub number: u64,
    /// The name of the account that owns it.
    pub owner: String,
    /// The owner's reference.
    pub reference: String,
    /// The genTime of its stamp, in microseconds since 1970-01-01T00:00:00Z.
    pub gen_time: u64,
}
