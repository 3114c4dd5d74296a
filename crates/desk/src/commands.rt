use crate::fault::Fault;
use crate::reply::{Deposited, Reply};
use book::{Calibration, Hold, Listed, Reader};
use cms::{Algorithm, Identity};
use policy::Account;

/// What a desk may be asked, with the arguments of its call.
#[derive(Clone, Copy)]
pub enum Command<'a, 'p> {
    /// `answer`.
    Stamp {
        /// Who asks, if anybody is known to.
        account: Option<&'a Account>,
        /// The clock's, in microseconds.
        reading: i64,
        /// The octets of the TimeStampReq.
        query: &'a [u8],
    },
    /// `deposit`.
    Deposit {
        /// Who deposits.
        account: &'a Account,
        /// The clock's, in microseconds.
        reading: i64,
        /// Under what the owner finds it again.
        reference: &'a str,
        /// The deposit's octets.
        bytes: &'a [u8],
    },
    /// `show`.
    Show {
        /// Who asks.
        account: &'a Account,
        /// The deposit's number.
        number: u64,
    },
    /// `token_of`.
    Token {
        /// Who asks.
        account: &'a Account,
        /// The deposit's number.
        number: u64,
    },
    /// `list`.
    List {
        /// Who asks.
        account: &'a Account,
    },
    /// `grant`, or `grant_group`.
    Grant {
        /// Who asks.
        account: &'a Account,
        /// The deposit's number.
        number: u64,
        /// The account, or the group whose members are to see it.
        reader: Reader<'a>,
    },
    /// `revoke`, or `revoke_group`.
    Revoke {
        /// Who asks.
        account: &'a Account,
        /// The deposit's number.
        number: u64,
        /// The account, or the group whose members aren't to see it.
        reader: Reader<'a>,
    },
    /// Adds a calibration of the clock, with an uncertainty of at most 10^12 microseconds. One whose reading is before
    /// that of the latest is refused with `Store`.
    Calibrate(Calibration),
    /// Adds a hold, from a moment to a later one.
    Hold(Hold),
    /// `succeed`.
    Succeed {
        /// Who signs from then on.
        identity: &'p Identity,
        /// Under which algorithm.
        algorithm: &'p Algorithm,
    },
}

/// What a desk answers to a command.
#[derive(Debug, Drop)]
pub enum Answer {
    /// To `Stamp`: the reply.
    Stamped(Reply),
    /// To `Deposit`: its number, and whether it is new.
    Kept(Deposited),
    /// To `Show` the deposit's octets, to `Token` the granted reply with its token.
    Shown(Vec<u8>),
    /// To `List`: the deposits that the account sees, by number.
    Listed(Vec<Listed>),
    /// To `Grant`, `Revoke` and `Succeed`: it is done.
    Done,
    /// To `Calibrate` and `Hold`: it is added, and this is its number; calibrations count 1, 2, 3 and so on, and so do
    /// holds.
    Numbered(u64),
    /// To any but `Stamp`: why it is refused.
    Refused(Fault),
}
