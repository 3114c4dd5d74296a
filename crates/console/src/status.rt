//! The exit status, and what is written where a fault stopped the program or words aren't taken.
ghost use Rattle.std.specs.Prelude.{◌≡◌, ◌≤◌, ◌⊎◌, String, string_bytes};
ghost use Rattle.std.specs.{Io.KnownBytes.Appends, declared.alloc.Global.Global};
ghost use Rattle.command_line.specs.declared.refusal.WordsRefusal.TheVariants.{Help, Mistake};
ghost use Rattle.audit.specs.Failures.{HasFailed};
ghost use Rattle.console.specs.{Fault.IsExplained, Fault.fault_line, Fault.no_text, Writes.Begins, Writes.IsWhole};

use crate::fault::{Fault, InputFault};
use crate::output::write_text;
use audit::{Output, write_octets};
use command_line::WordsRefusal;

/// What the words ask for is done; a rejection and help are done too.
pub const DONE: u8 = 0;

/// A fault stopped it, or stamps fail their check.
pub const FAULT: u8 = 1;

/// The words are refused.
pub const WORDS_REFUSED: u8 = 2;

/// Writes the fault's line, or a beginning of it where `errors` fails, and answers the status 1.
pub fn report<E: Output>(fault: Fault, errors: &mut E) -> u8
    ensures status { result ≡ 1 }
    ensures told { Begins (E.contents errors.old) (E.contents errors.new) (fault_line fault) }
    ensures whole { IsWhole (E.contents errors.old) (E.contents errors.new) (E.failures errors.old)
        (E.failures errors.new) (fault_line fault) }
{
    fault.write_line(errors);
    FAULT
}

/// Writes that the words are no text, or a beginning of that where `errors` fails, and answers the status 2.
pub fn refuse_octets<E: Output>(errors: &mut E) -> u8
    ensures status { result ≡ 2 }
    ensures told { Begins (E.contents errors.old) (E.contents errors.new) no_text }
{
    // Where standard error fails, the status alone tells.
    let _ = write_octets(errors, "error: the words are not UTF-8\n".as_bytes());
    WORDS_REFUSED
}

/// Writes why there are no words to do: help to `output`, with status 0, a mistake to `errors`, with status 2, and else
/// the line of `input` 5 where help can't be written, and of 7 where memory ran out, with status 1.
pub fn explain<O: Output, E: Output>(refusal: &WordsRefusal, output: &mut O, errors: &mut E) -> u8
    ensures status { result ≤ 2 }
    ensures silent { result ≡ 0 → E.contents errors.new ≡ E.contents errors.old }

    // Nothing but help is written to the output.
    ensures unwritten { (O.contents output.new ≡ O.contents output.old)
        ⊎ ((text : String Global) × (refusal.now ≡ Help text)) }
    ensures begun { result ≡ 1 → (O.contents output.new ≡ O.contents output.old)
        ⊎ ((text : String Global) × (refusal.now ≡ Help text)
        × Begins (O.contents output.old) (O.contents output.new) (string_bytes text)) }
    ensures shown { result ≡ 0 → (text : String Global) × (refusal.now ≡ Help text)
        × Appends (O.contents output.old) (O.contents output.new) (string_bytes text) }

    // A mistake is written as far as `errors` takes it.
    ensures refused { result ≡ 2 → (text : String Global) × (refusal.now ≡ Mistake text)
        × Begins (E.contents errors.old) (E.contents errors.new) (string_bytes text) }
    ensures whole_reason { result ≡ 2 → (text : String Global) × (refusal.now ≡ Mistake text)
        × IsWhole (E.contents errors.old) (E.contents errors.new) (E.failures errors.old) (E.failures errors.new)
        (string_bytes text) }
    ensures told { result ≡ 1 → (fault : Fault)
        × Begins (E.contents errors.old) (E.contents errors.new) (fault_line fault) }
    ensures whole_line { result ≡ 1 → (fault : InputFault) × IsExplained refusal.now fault
        × IsWhole (E.contents errors.old) (E.contents errors.new) (E.failures errors.old) (E.failures errors.new)
        (fault_line (Fault.Input fault)) }
    ensures failed { (text : String Global) → result ≡ 1 → refusal.now ≡ Help text
        → HasFailed (O.failures output.old) (O.failures output.new) }
{
    match refusal {
        WordsRefusal::Help(text) => match write_text(text.as_str(), output) {
            Ok(()) => DONE,
            Err(fault) => report(Fault::Input(fault), errors),
        },
        WordsRefusal::Mistake(text) => {
            // Where standard error fails, the status alone tells.
            let _ = write_text(text.as_str(), errors);
            WORDS_REFUSED
        }
        WordsRefusal::Memory => report(Fault::Input(InputFault::Memory), errors),
    }
}
