//! The commands that a desk may be asked.
use crate::scenarios::entries::{calibration, hold, reader};
use crate::scenarios::setting::Setting;
use crate::transcript::{Names, Words};
use desk::Command;
use policy::Account;

/// The command of an account.
fn of_account<'p>(
    names: &'p Names,
    account: &'p Account,
    word: &str,
    words: &mut Words<'p>,
) -> Option<Command<'p, 'p>> {
    Some(match word {
        "deposit" => Command::Deposit {
            account,
            reading: words.signed(),
            reference: words.next(),
            bytes: names.octets(words.next()),
        },
        "show" => Command::Show {
            account,
            number: words.number(),
        },
        "token" => Command::Token {
            account,
            number: words.number(),
        },
        "list" => Command::List { account },
        "grant" | "grant-group" => Command::Grant {
            account,
            number: words.number(),
            reader: reader(word, words),
        },
        "revoke" | "revoke-group" => Command::Revoke {
            account,
            number: words.number(),
            reader: reader(word, words),
        },
        _ => return None,
    })
}

/// The command that the words spell; none where they spell none, or name an account that no file has.
pub fn command_of<'p>(
    names: &'p Names,
    setting: &'p Setting,
    word: &str,
    words: &mut Words<'p>,
) -> Option<Command<'p, 'p>> {
    Some(match word {
        "stamp" => Command::Stamp {
            account: setting.account(words.next()),
            reading: words.signed(),
            query: names.octets(words.next()),
        },
        "calibrate" => Command::Calibrate(calibration(words)),
        "hold" => Command::Hold(hold(words)),
        "succeed" => Command::Succeed {
            identity: &setting.next,
            algorithm: &setting.algorithm,
        },
        _ => return of_account(names, setting.account(words.next())?, word, words),
    })
}
