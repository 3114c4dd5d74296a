use crate::values::{Calibration, Hold, Reservation};

/// Whom a right names.
#[derive(Clone, Copy)]
pub enum Reader<'a> {
    /// An account, by its name.
    Account(&'a str),
    /// Each member of a group, by its name.
    Group(&'a str),
}

/// An entry of the history, to be added.
#[derive(Clone, Copy)]
pub enum Entry<'a> {
    /// A stamp is reserved, which counts on its UTC day from then on.
    Reserved(Reservation<'a>),
    /// The token of a serial number.
    Sealed {
        serial: u64,
        token: &'a [u8],
    },
    /// A deposit and its token, which seals its serial number: that is the deposit's number from then on.
    Deposited {
        serial: u64,
        token: &'a [u8],
        owner: &'a str,
        reference: &'a str,
        bytes: &'a [u8],
    },
    /// What the clock was found to be.
    Calibrated(Calibration),
    /// Moments at which no token is given.
    Held(Hold),
    /// The reader may read the deposit with that number.
    Granted {
        number: u64,
        reader: Reader<'a>,
    },
    /// It may not any more.
    Revoked {
        number: u64,
        reader: Reader<'a>,
    },
    /// The identity that is in force from then on: the signer's certificate, and the further certificates of its chain.
    Installed {
        certificate: &'a [u8],
        chain: &'a [u8],
    },
}
