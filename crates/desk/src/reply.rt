use crate::pending::Pending;
use tsp::Rejection;

/// What `begin` answers to a request.
pub enum Begun<'p> {
    /// A rule of 1 to 11 fails, and nothing is reserved.
    Rejected(Rejection),
    /// The serial number is reserved.
    Pending(Pending<'p>),
}

/// The reply to a request (RFC 3161 2.4.2).
#[derive(Debug, Drop)]
pub enum Reply {
    /// A token was given.
    Granted {
        /// The token's serial number.
        serial: u64,
        /// The octets of the TimeStampResp.
        bytes: Vec<u8>,
    },
    /// The first rule that fails, or rule 12.
    Rejected(Rejection),
}

/// What `deposit` answers.
#[derive(Clone, Copy, Debug, PartialEq, Eq)]
pub struct Deposited {
    /// The deposit's number, which is the serial number of its stamp.
    pub number: u64,
    /// Whether it is new: not where the owner had deposited the same octets under the reference before.
    pub is_new: bool,
}
