//! Who signs, by what `clap` finds in the words.
ghost use Rattle.std.specs.Prelude.{◌≡◌, false, IfOk, IfSome, IsNone};
ghost use Rattle.clap.specs.Words.{found_of, kind_of, rows_of};
ghost use Rattle.command_line.specs.Words.{IsOwnKind, StatesSigner, has_one_signer};

use crate::command::{command, subcommand};
use crate::parse::text;
use crate::table::{SubcommandRow, first_rows, last_rows};
use crate::words::SignerWords;
use clap::error::ErrorKind;
use clap::{ArgMatches, Command, Error};
use std::alloc::{AllocError, Global};

/// Who signs: a key tells it alone, or an address and an algorithm together. `None` where the options tell no signer,
/// or mix two up.
pub fn signer_words<'a>(matches: &ArgMatches<'a>) -> Option<SignerWords<'a>>
    ensures found { IfSome result (StatesSigner (rows_of (found_of matches.now))) }
    ensures none { IsNone result → has_one_signer (rows_of (found_of matches.now)) ≡ false }
{
    let key = text(matches, "signing-key");
    let address = text(matches, "signer");
    let algorithm = text(matches, "signer-algorithm");
    match (key, address, algorithm) {
        (Some(path), None, None) => Some(SignerWords::Key(path)),
        (None, Some(address), Some(algorithm)) => Some(SignerWords::Session { address, algorithm }),
        _ => None,
    }
}

/// The error of words with which `clap` finds no fault, and which ask for nothing.
pub fn error_of(alloc: Global, matches: &ArgMatches<'_>) -> Result<Error, AllocError>
    ensures { IfOk result (λ error. IsOwnKind (kind_of error)) }
{
    let (kind, message) = mistake(matches);
    let mut command = asked_command(alloc, matches)?;
    command.error(kind, message)
}

/// The command whose usage is told: the subcommand that is named, or the whole where none is.
fn asked_command<'a>(alloc: Global, matches: &ArgMatches<'_>) -> Result<Command<'a>, AllocError> {
    match asked_row(matches) {
        Some(row) => subcommand(alloc, row)?.bin_name(row.full_name),
        None => command(alloc),
    }
}

/// The row of the subcommand that is named.
fn asked_row(matches: &ArgMatches<'_>) -> Option<&'static SubcommandRow> {
    let Some((name, _)) = matches.subcommand() else {
        return None;
    };
    match row_named(first_rows(), name) {
        Some(row) => Some(row),
        None => row_named(last_rows(), name),
    }
}

fn row_named(rows: &'static [SubcommandRow], name: &str) -> Option<&'static SubcommandRow> {
    rows.iter().find(|row| row.name == name)
}

/// Why words with which `clap` finds no fault ask for nothing: they lack a signer, or a value.
fn mistake(matches: &ArgMatches<'_>) -> (ErrorKind, &'static str)
    ensures { IsOwnKind result.0 }
{
    match matches.subcommand() {
        Some(("answer" | "exchange" | "serve", words)) => signer_mistake(words),
        Some(("continue", words)) => floor_mistake(words),
        _ => (ErrorKind::MissingRequiredArgument, NO_VALUE),
    }
}

/// Why the options tell no signer, as `clap` says it of options that are missing, or that another excludes.
fn signer_mistake(matches: &ArgMatches<'_>) -> (ErrorKind, &'static str)
    ensures { IsOwnKind result.0 }
{
    let key = matches.get_str("signing-key").is_some();
    let address = matches.get_str("signer").is_some();
    let algorithm = matches.get_str("signer-algorithm").is_some();
    match (key, address, algorithm) {
        (true, true, true) => (ErrorKind::ArgumentConflict, KEY_AND_SESSION),
        (true, true, false) => (ErrorKind::ArgumentConflict, KEY_AND_ADDRESS),
        (true, false, true) => (ErrorKind::ArgumentConflict, KEY_AND_ALGORITHM),
        (false, true, false) => (ErrorKind::MissingRequiredArgument, NO_ALGORITHM),
        (false, false, true) => (ErrorKind::MissingRequiredArgument, NO_ADDRESS),
        (false, false, false) => (ErrorKind::MissingRequiredArgument, NO_SIGNER),
        _ => (ErrorKind::MissingRequiredArgument, NO_VALUE),
    }
}

/// Which of the options is missing that state together what later stamps come after.
fn floor_mistake(matches: &ArgMatches<'_>) -> (ErrorKind, &'static str)
    ensures { IsOwnKind result.0 }
{
    let above = matches.get_str("above").is_some();
    let moment = matches.get_str("moment").is_some();
    match (above, moment) {
        (true, false) => (ErrorKind::MissingRequiredArgument, NO_MOMENT),
        (false, true) => (ErrorKind::MissingRequiredArgument, NO_SERIAL),
        _ => (ErrorKind::MissingRequiredArgument, NO_VALUE),
    }
}

const KEY_AND_SESSION: &str = "the argument '--signing-key <signing-key>' cannot be used with:\n  \
    --signer <signer>\n  --signer-algorithm <signer-algorithm>";

const KEY_AND_ADDRESS: &str =
    "the argument '--signing-key <signing-key>' cannot be used with '--signer <signer>'";

const KEY_AND_ALGORITHM: &str = "the argument '--signing-key <signing-key>' cannot be used with \
    '--signer-algorithm <signer-algorithm>'";

const NO_ALGORITHM: &str =
    "the following required arguments were not provided:\n  --signer-algorithm <signer-algorithm>";

const NO_ADDRESS: &str = "the following required arguments were not provided:\n  --signer <signer>";

const NO_SIGNER: &str = "the following required arguments were not provided:\n  \
    <--signing-key <signing-key>|--signer <signer> --signer-algorithm <signer-algorithm>>";

const NO_MOMENT: &str = "the following required arguments were not provided:\n  --moment <moment>";

const NO_SERIAL: &str = "the following required arguments were not provided:\n  --above <above>";

const NO_VALUE: &str = "a value is missing";
