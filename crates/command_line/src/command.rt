//! The command line, for `clap`.
ghost use Rattle.std.specs.Prelude.{◌≡◌, map, IfOk};
ghost use Rattle.clap.specs.Words.{app_of, with_rule, with_subcommand};
ghost use Rattle.command_line.specs.Options.{bare_command, counter_command, with_subcommands};
ghost use Rattle.command_line.specs.auxiliary.Table.{app_in, rule_in};

use crate::options::OptionRow;
use crate::table::{SubcommandRow, first_rows, last_rows};
use crate::version::VERSION;
use clap::Command;
use std::alloc::{AllocError, Global};

/// The subcommand of a row. An error where memory runs out.
pub fn subcommand<'a>(alloc: Global, row: &SubcommandRow) -> Result<Command<'a>, AllocError>
    ensures { IfOk result (λ command. app_of command ≡ app_in row.now) }
{
    let mut command = Command::new(alloc, row.name).about(row.about);
    for option in row.options {
        command = with_option(alloc, command, option)?;
    }
    Ok(command)
}

/// A command with one option more.
fn with_option<'a>(
    alloc: Global,
    command: Command<'a>,
    option: &OptionRow,
) -> Result<Command<'a>, AllocError>
    ensures { IfOk result (λ more. app_of more ≡ with_rule (app_of command.entry) (rule_in option.now)) }
{
    command.arg(option.arg(alloc))
}

fn bare_command<'a>(alloc: Global) -> Command<'a>
    ensures { app_of result ≡ bare_command }
{
    Command::new(alloc, "counter")
        .about("The counter of a time-stamping authority (RFC 3161)")
        .version(VERSION)
        .subcommand_required(true)
}

/// The command line of the whole program. An error where memory runs out.
pub fn command<'a>(alloc: Global) -> Result<Command<'a>, AllocError>
    ensures { IfOk result (λ command. app_of command ≡ counter_command) }
{
    let command = with_subcommands(alloc, bare_command(alloc), first_rows())?;
    with_subcommands(alloc, command, last_rows())
}

/// A command with the subcommands of these rows.
fn with_subcommands<'a>(
    alloc: Global,
    bare: Command<'a>,
    rows: &[SubcommandRow],
) -> Result<Command<'a>, AllocError>
    ensures { IfOk result (λ more. app_of more ≡ with_subcommands (map app_in rows.now) (app_of bare.entry)) }
{
    let mut command = bare;
    for row in rows {
        command = with_subcommand(alloc, command, row)?;
    }
    Ok(command)
}

/// A command with the subcommand of one row more.
fn with_subcommand<'a>(
    alloc: Global,
    command: Command<'a>,
    row: &SubcommandRow,
) -> Result<Command<'a>, AllocError>
    ensures { IfOk result (λ more. app_of more ≡ with_subcommand (app_of command.entry) (app_in row.now).top) }
{
    let subcommand = subcommand(alloc, row)?;
    command.subcommand(subcommand)
}
