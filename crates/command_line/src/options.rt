//! An option of the command line, for `clap`.
ghost use Rattle.std.specs.Prelude.{◌≡◌, false, pos};
ghost use Rattle.clap.specs.Words.{rule_of};
ghost use Rattle.command_line.specs.{Options.number_between, auxiliary.Table.narrowed, auxiliary.Table.rule_in};

use clap::builder::ValueParser;
use clap::{Arg, ArgAction, value_parser};
use std::alloc::Global;

/// The numbers that an option takes, both ends included.
#[derive(Clone, Copy)]
pub struct Numbers {
    /// The least of them.
    pub least: u64,
    /// The greatest of them.
    pub most: u64,
}

impl Numbers {
    /// What reads one of them.
    fn parser<'a>(self) -> ValueParser<'a>
        ensures { result ≡ number_between (narrowed self.least) (narrowed self.most) }
    {
        value_parser!(i64).range(narrowed(self.least)..=narrowed(self.most))
    }
}

/// The number, or the greatest of 63 bits where it is beyond that.
fn narrowed(number: u64) -> i64
    ensures { result ≡ pos (narrowed number) }
{
    i64::try_from(number).unwrap_or(i64::MAX)
}

/// What stands after an option's name.
#[derive(Clone, Copy)]
pub enum Value {
    /// A text.
    Text,
    /// One of these numbers, in decimal digits.
    Number(Numbers),
    /// Nothing: the option is there or not.
    Nothing,
}

/// An option of a subcommand.
#[derive(Clone, Copy)]
pub struct OptionRow {
    /// Its name, before which two hyphens stand.
    pub name: &'static str,
    /// What stands after the name.
    pub value: Value,
    /// Whether it has to be there.
    pub required: bool,
    /// What it is for, in the text of help.
    pub help: &'static str,
}

impl OptionRow {
    /// The option, for `clap`.
    pub fn arg<'a>(&self, alloc: Global) -> Arg<'a>
        ensures rule { rule_of result ≡ rule_in self.now }
        ensures local { result.global ≡ false }
    {
        let arg = Arg::new(alloc, self.name)
            .long(self.name)
            .required(self.required)
            .help(self.help);
        match self.value {
            Value::Text => arg
                .action(ArgAction::Set)
                .value_parser(ValueParser::string()),
            Value::Number(numbers) => arg.action(ArgAction::Set).value_parser(numbers.parser()),
            Value::Nothing => arg.action(ArgAction::SetTrue),
        }
    }
}
