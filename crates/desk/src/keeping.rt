//! In what a token is kept.
ghost use Rattle.std.specs.Prelude.{◌≡◌};
ghost use Rattle.book.specs.Entries.{entry_view};
ghost use Rattle.desk.specs.auxiliary.Kept.{keeping_view};

use crate::new_deposit::Submission;
use book::Entry;

/// In what a token is kept under its serial number.
#[derive(Clone, Copy)]
pub(crate) enum Keeping<'a> {
    /// In its seal.
    Seal,
    /// In one entry with what was submitted to be deposited.
    Deposit(Submission<'a>),
}

/// The entry in which a token is kept.
pub(crate) fn entry_with<'a>(keeping: Keeping<'a>, serial: u64, token: &'a [u8]) -> Entry<'a>
    ensures { entry_view result ≡ (keeping_view keeping.entry).adds serial token.now }
{
    match keeping {
        Keeping::Seal => Entry::Sealed { serial, token },
        Keeping::Deposit(submission) => Entry::Deposited {
            serial,
            token,
            owner: submission.account.name.as_str(),
            reference: submission.reference,
            bytes: submission.bytes,
        },
    }
}
