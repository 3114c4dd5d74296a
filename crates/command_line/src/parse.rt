//! What the words ask for, by what `clap` finds in them.
ghost use Rattle.std.specs.Prelude.{◌≡◌, ◌≤◌, ◌⊎◌, ℕ, List, None, Some, IfOk, IfErr, IfSome, IsNone, codes, false};
ghost use Rattle.std.specs.Prelude.{is_some, option_map, true};
ghost use Rattle.clap.specs.Words.{Row, Text, FailsBy, HasKind, fault_of, first_of, found_of, kind_of, rows_of};
ghost use Rattle.clap.specs.Words.{subcommand_of, subcommand_rows_of};
ghost use Rattle.clap.specs.declared.error.kind.ErrorKind.TheVariants.{OutOfMemory};
ghost use Rattle.command_line.specs.Words.{AskNothing, Asks, IsAsked, IsOwnKind, IsRefusal, IsShown, IsUnasked};
ghost use Rattle.command_line.specs.Words.{MixSigners, StatesDesk, StatesFlag, StatesFloor, StatesNumber};
ghost use Rattle.command_line.specs.{Options.counter_command, Words.needs_signer, Words.texts_of};

use crate::command::command;
use crate::options::Numbers;
use crate::refusal::WordsRefusal;
use crate::signer::{error_of, signer_words};
use crate::table::{
    ACCURACIES, CONNECTIONS, DIGITS, MOMENTS, SERIALS, UNCERTAINTIES, WHOLE_NUMBERS,
};
use crate::words::{
    AnswerWords, AuditWords, CalibrateWords, CheckWords, ContinueWords, DeskWords, ExchangeWords,
    ExplainWords, FloorWords, HoldWords, InitWords, MigrateWords, ServeWords, TstWords, Word,
};
use clap::error::ErrorKind;
use clap::{ArgMatches, Error};
use std::alloc::{AllocError, Global};

impl<'a> Word<'a> {
    /// Reads the words, of which the first is the program's name. They are a `Mistake` where they aren't understood,
    /// and `Help` where they ask for help; `Memory` where memory runs out.
    pub fn parse(alloc: Global, words: &'a [String]) -> Result<Word<'a>, WordsRefusal>
        ensures asked { IfOk result (Asks (texts_of words.now)) }
        ensures refused { IfErr result (IsRefusal (texts_of words.now)) }
    {
        match matched(alloc, words) {
            Ok(word) => Ok(word),
            Err(error) => match refusal_of(alloc, words, &error) {
                Ok(refusal) => Err(refusal),
                Err(_) => Err(WordsRefusal::Memory),
            },
        }
    }
}

/// The word, or `clap`'s error.
fn matched<'a>(alloc: Global, words: &'a [String]) -> Result<Word<'a>, Error>
    ensures asked { IfOk result (Asks (texts_of words.now)) }

    // Words are refused as `clap` says, for want of memory, for their signer, or where they ask for nothing.
    ensures refused { IfErr result (λ error.
        HasKind (fault_of counter_command (texts_of words.now)) error
        ⊎ (IsOwnKind (kind_of error)
        × (MixSigners (texts_of words.now) ⊎ AskNothing (texts_of words.now)))) }
{
    let matches = matches_of(alloc, words)?;
    asked_in(alloc, &matches)
}

/// What `clap` finds in the words, or its error.
fn matches_of<'a>(alloc: Global, words: &'a [String]) -> Result<ArgMatches<'a>, Error>
    ensures kinds { FailsBy (fault_of counter_command (texts_of words.now)) result }
    ensures found { IfOk result (λ matches.
        subcommand_rows_of matches ≡ subcommand_of counter_command (texts_of words.now)) }
{
    let mut command = command(alloc)?;
    command.try_get_matches_from_mut(words)
}

/// The word that is asked for in what was found, or the error where none is.
fn asked_in<'a>(alloc: Global, matches: &ArgMatches<'a>) -> Result<Word<'a>, Error>
    ensures found { IfOk result (λ word. (name : Text) × ((rows : List Row)
        × (subcommand_rows_of matches.now ≡ Some (name, rows)) × IsAsked name rows word)) }
    ensures none { IfErr result (λ error. (kind_of error ≡ OutOfMemory)
        ⊎ (IsOwnKind (kind_of error) × ((name : Text) → (rows : List Row) → (word : Word)
        → subcommand_rows_of matches.now ≡ Some (name, rows) → IsAsked name rows word → ⊥))) }
{
    match word_of(matches) {
        Some(word) => Ok(word),
        None => Err(error_of(alloc, matches)?),
    }
}

/// What `clap` shows on standard output is help or the version, and anything else is a mistake. With `--long` the
/// version comes with the logic.
fn refusal_of(alloc: Global, words: &[String], error: &Error) -> Result<WordsRefusal, AllocError>
    ensures { IfOk result (IsShown (kind_of error.now)) }
{
    if error.kind() == ErrorKind::OutOfMemory {
        return Ok(WordsRefusal::Memory);
    }
    let text = format!(in alloc; "{error}")?;
    if error.use_stderr() {
        Ok(WordsRefusal::Mistake(text))
    } else if error.kind() == ErrorKind::DisplayVersion && !is_long(words) {
        let (version, _) = text.split_once('\n').unwrap_or((text.as_str(), ""));
        let line = format!(in alloc; "{version}\n")?;
        Ok(WordsRefusal::Help(line))
    } else {
        Ok(WordsRefusal::Help(text))
    }
}

fn is_long(words: &[String]) -> bool {
    words.iter().any(|word| word.as_str() == "--long")
}

fn word_of<'a>(matches: &ArgMatches<'a>) -> Option<Word<'a>>
    ensures found { IfSome result (λ word. (name : Text) × ((rows : List Row)
        × (subcommand_rows_of matches.now ≡ Some (name, rows)) × IsAsked name rows word)) }
    ensures none { IsNone result → (name : Text) → (rows : List Row) → (word : Word)
        → subcommand_rows_of matches.now ≡ Some (name, rows) → IsAsked name rows word → ⊥ }
{
    let Some((name, words)) = matches.subcommand() else {
        return None;
    };
    word_named(name, words)
}

/// The word of this name, by what was found for its options.
fn word_named<'a>(name: &str, words: &ArgMatches<'a>) -> Option<Word<'a>>
    ensures found { IfSome result (IsAsked name.now (rows_of (found_of words.now))) }
    ensures none { IsNone result → IsUnasked name.now (rows_of (found_of words.now)) }
{
    match name {
        "tst" => tst_word(words),
        "check" => check_word(words),
        "init" => init_word(words),
        "migrate" => migrate_word(words),
        "continue" => continue_word(words),
        "calibrate" => calibrate_word(words),
        "hold" => hold_word(words),
        "answer" => answer_word(words),
        "exchange" => exchange_word(words),
        "serve" => serve_word(words),
        "audit" => audit_word(words),
        "explain" => explain_word(words),
        _ => None,
    }
}

/// The value of the option of this name.
pub(crate) fn text<'a>(matches: &ArgMatches<'a>, name: &str) -> Option<&'a str>
    ensures { first_of name.now (rows_of (found_of matches.now)) ≡ option_map (λ s. s.now) result }
{
    matches.get_str(name)
}

/// Whether the flag of this name is there.
fn flag(matches: &ArgMatches<'_>, name: &str) -> bool
    ensures { StatesFlag (rows_of (found_of matches.now)) name.now result }
{
    matches.get_flag(name)
}

fn check_word<'a>(matches: &ArgMatches<'a>) -> Option<Word<'a>>
    ensures found { IfSome result (IsAsked (codes "check") (rows_of (found_of matches.now))) }
    ensures none { IsNone result → IsUnasked (codes "check") (rows_of (found_of matches.now)) }
{
    let rules = text(matches, "rules")?;
    Some(Word::Check(CheckWords { rules }))
}

fn init_word<'a>(matches: &ArgMatches<'a>) -> Option<Word<'a>>
    ensures found { IfSome result (IsAsked (codes "init") (rows_of (found_of matches.now))) }
    ensures none { IsNone result → IsUnasked (codes "init") (rows_of (found_of matches.now)) }
{
    let db = text(matches, "db")?;
    Some(Word::Init(InitWords { db }))
}

fn migrate_word<'a>(matches: &ArgMatches<'a>) -> Option<Word<'a>>
    ensures found { IfSome result (IsAsked (codes "migrate") (rows_of (found_of matches.now))) }
    ensures none { IsNone result → IsUnasked (codes "migrate") (rows_of (found_of matches.now)) }
{
    let db = text(matches, "db")?;
    Some(Word::Migrate(MigrateWords { db }))
}

fn continue_word<'a>(matches: &ArgMatches<'a>) -> Option<Word<'a>>
    ensures found { IfSome result (IsAsked (codes "continue") (rows_of (found_of matches.now))) }
    ensures none { IsNone result → IsUnasked (codes "continue") (rows_of (found_of matches.now)) }
{
    let from = text(matches, "from")?;
    let db = text(matches, "db")?;
    if states_no_floor(matches) {
        return Some(Word::Continue(ContinueWords {
            from,
            db,
            floor: None,
        }));
    }
    let above = number(matches, "above", SERIALS)?;
    let moment = number(matches, "moment", MOMENTS)?;
    Some(Word::Continue(ContinueWords {
        from,
        db,
        floor: Some(FloorWords { above, moment }),
    }))
}

/// Whether neither of the options stands there that state what later stamps come after.
fn states_no_floor(matches: &ArgMatches<'_>) -> bool
    ensures stated { result ≡ true → StatesFloor (rows_of (found_of matches.now)) None }
    ensures other { result ≡ false → StatesFloor (rows_of (found_of matches.now)) None → ⊥ }
{
    text(matches, "above").is_none() && text(matches, "moment").is_none()
}

fn calibrate_word<'a>(matches: &ArgMatches<'a>) -> Option<Word<'a>>
    ensures found { IfSome result (IsAsked (codes "calibrate") (rows_of (found_of matches.now))) }
    ensures none { IsNone result → IsUnasked (codes "calibrate") (rows_of (found_of matches.now)) }
{
    let db = text(matches, "db")?;
    let reading = number(matches, "reading", WHOLE_NUMBERS)?;
    let offset = number(matches, "offset", WHOLE_NUMBERS)?;
    let uncertainty = number(matches, "uncertainty", UNCERTAINTIES)?;
    Some(Word::Calibrate(CalibrateWords {
        db,
        reading,
        offset,
        behind: flag(matches, "behind"),
        uncertainty,
    }))
}

fn hold_word<'a>(matches: &ArgMatches<'a>) -> Option<Word<'a>>
    ensures found { IfSome result (IsAsked (codes "hold") (rows_of (found_of matches.now))) }
    ensures none { IsNone result → IsUnasked (codes "hold") (rows_of (found_of matches.now)) }
{
    let db = text(matches, "db")?;
    let from = number(matches, "from", WHOLE_NUMBERS)?;
    let to = number(matches, "to", WHOLE_NUMBERS)?;
    Some(Word::Hold(HoldWords { db, from, to }))
}

fn tst_word<'a>(matches: &ArgMatches<'a>) -> Option<Word<'a>>
    ensures found { IfSome result (IsAsked (codes "tst") (rows_of (found_of matches.now))) }
    ensures none { IsNone result → IsUnasked (codes "tst") (rows_of (found_of matches.now)) }
{
    let policy = text(matches, "policy")?;
    let moment = number(matches, "moment", MOMENTS)?;
    let digits = number(matches, "digits", DIGITS)?;
    let serial = number(matches, "serial", SERIALS)?;
    let accuracy = number(matches, "accuracy", ACCURACIES)?;
    Some(Word::Tst(TstWords {
        policy,
        moment,
        digits: digits as u8,
        serial,
        accuracy: accuracy as u32,
        ordering: flag(matches, "ordering"),
    }))
}

fn desk_words<'a>(matches: &ArgMatches<'a>) -> Option<DeskWords<'a>>
    ensures found { IfSome result (StatesDesk (rows_of (found_of matches.now))) }
    ensures none { IsNone result → (words : DeskWords) → StatesDesk (rows_of (found_of matches.now)) words → ⊥ }
{
    let db = text(matches, "db")?;
    let rules = text(matches, "rules")?;
    let certificate = text(matches, "certificate")?;
    let signer = signer_words(matches)?;
    Some(DeskWords {
        db,
        rules,
        certificate,
        chain: text(matches, "chain"),
        signer,
    })
}

fn answer_word<'a>(matches: &ArgMatches<'a>) -> Option<Word<'a>>
    ensures found { IfSome result (IsAsked (codes "answer") (rows_of (found_of matches.now))) }
    ensures none { IsNone result → IsUnasked (codes "answer") (rows_of (found_of matches.now)) }
{
    let desk = desk_words(matches)?;
    let reading = number(matches, "reading", WHOLE_NUMBERS)?;
    Some(Word::Answer(AnswerWords {
        desk,
        reading,
        key: text(matches, "key"),
    }))
}

fn exchange_word<'a>(matches: &ArgMatches<'a>) -> Option<Word<'a>>
    ensures found { IfSome result (IsAsked (codes "exchange") (rows_of (found_of matches.now))) }
    ensures none { IsNone result → IsUnasked (codes "exchange") (rows_of (found_of matches.now)) }
{
    let desk = desk_words(matches)?;
    let reading = number(matches, "reading", WHOLE_NUMBERS)?;
    Some(Word::Exchange(ExchangeWords { desk, reading }))
}

fn serve_word<'a>(matches: &ArgMatches<'a>) -> Option<Word<'a>>
    ensures found { IfSome result (IsAsked (codes "serve") (rows_of (found_of matches.now))) }
    ensures none { IsNone result → IsUnasked (codes "serve") (rows_of (found_of matches.now)) }
{
    let desk = desk_words(matches)?;
    let listen = text(matches, "listen")?;
    let connections = number(matches, "connections", CONNECTIONS)?;
    Some(Word::Serve(ServeWords {
        desk,
        listen,
        connections: connections as u32,
        tell: flag(matches, "tell"),
    }))
}

fn audit_word<'a>(matches: &ArgMatches<'a>) -> Option<Word<'a>>
    ensures found { IfSome result (IsAsked (codes "audit") (rows_of (found_of matches.now))) }
    ensures none { IsNone result → IsUnasked (codes "audit") (rows_of (found_of matches.now)) }
{
    let db = text(matches, "db")?;
    let rules = text(matches, "rules")?;
    let account = text(matches, "account")?;
    let from = number(matches, "from", WHOLE_NUMBERS)?;
    let to = number(matches, "to", WHOLE_NUMBERS)?;
    Some(Word::Audit(AuditWords {
        db,
        rules,
        account,
        from,
        to,
        check: flag(matches, "check"),
        judge: flag(matches, "judge"),
    }))
}

fn explain_word<'a>(matches: &ArgMatches<'a>) -> Option<Word<'a>>
    ensures found { IfSome result (IsAsked (codes "explain") (rows_of (found_of matches.now))) }
    ensures none { IsNone result → IsUnasked (codes "explain") (rows_of (found_of matches.now)) }
{
    let db = text(matches, "db")?;
    let rules = text(matches, "rules")?;
    let serial = number(matches, "serial", SERIALS)?;
    Some(Word::Explain(ExplainWords { db, rules, serial }))
}

fn number(matches: &ArgMatches<'_>, name: &str, numbers: Numbers) -> Option<u64>
    ensures least { IfSome result (λ number. numbers.least ≤ number) }
    ensures most { IfSome result (λ number. number ≤ numbers.most) }
    ensures stated { IfSome result (StatesNumber (rows_of (found_of matches.now)) name.now) }
    ensures none { IsNone result → (number : ℕ) → StatesNumber (rows_of (found_of matches.now)) name.now number
        → numbers.least ≤ number → number ≤ numbers.most → ⊥ }
{
    let Some(number) = matches.get_one::<u64>(name) else {
        return None;
    };
    if numbers.least <= number && number <= numbers.most {
        Some(number)
    } else {
        None
    }
}
