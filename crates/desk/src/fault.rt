use thiserror::Error;
use tsp::Rule;

/// Why a command is refused. Each refusal has a number.
#[derive(Clone, Copy, Debug, PartialEq, Eq, Error)]
pub enum Fault {
    /// No deposit with that number is visible to the account.
    #[error("no such deposit")]
    NotHere,
    /// The deposit belongs to another account.
    #[error("the deposit is another account's")]
    NotOwner,
    /// The owner has used the reference for other octets.
    #[error("the reference is used for other octets")]
    Conflict,
    /// The policy file has no account of that name.
    #[error("no account has that name")]
    UnknownReader,
    /// An owner needs no right to a deposit of its own.
    #[error("an owner needs no right")]
    SelfGrant,
    /// A deposit has at most 1,048,576 octets.
    #[error("there are too many octets")]
    TooLarge,
    /// A deposit may not be stamped: the first rule that fails, 3 to 11.
    #[error("a rule refuses the stamp")]
    Rejected(Rule),
    /// Memory ran out.
    #[error("out of memory")]
    Memory,
    /// The store failed and counted it, or no serial number is left, or the calibration is before the last one.
    #[error("the store failed")]
    Store,
    /// The signer failed, and counted it.
    #[error("the signer failed")]
    Signer,
    /// The policy file has no group of that name.
    #[error("no group has that name")]
    UnknownGroup,
}

impl Fault {
    ghost use Rattle.std.specs.Prelude.{◌≡◌};
    ghost use Rattle.desk.specs.Fault.{number_of};

    /// The refusal's number, 1 to 11.
    pub fn number(self) -> u8
        ensures { result ≡ number_of self }
    {
        match self {
            Fault::NotHere => 1,
            Fault::NotOwner => 2,
            Fault::Conflict => 3,
            Fault::UnknownReader => 4,
            Fault::SelfGrant => 5,
            Fault::TooLarge => 6,
            Fault::Rejected(_) => 7,
            Fault::Memory => 8,
            Fault::Store => 9,
            Fault::Signer => 10,
            Fault::UnknownGroup => 11,
        }
    }
}
