//! The word `check`: what a policy file has.
ghost use Rattle.std.specs.Prelude.{◌≡◌, ◌⊎◌, List, ℕ, Ok, Err, OnOk, IfOk, IfErr, ◌∷◌, [], string_bytes};
ghost use Rattle.std.specs.{Fmt.decimal, Io.KnownBytes.Appends};
ghost use Rattle.audit.specs.Failures.{HasFailed};
ghost use Rattle.policy.specs.declared.fault.PolicyFault.{PolicyFault};
ghost use Rattle.policy.specs.{Answers.IsFirstFault, Meaning.meaning_of, View.policy_view};
ghost use Rattle.console.specs.Files.{ReadsPolicy, ReadsText, source_of, text_of};
ghost use Rattle.console.specs.{Counts.Counts, Counts.counts_line, Counts.line_of_words, Writes.Begins};

use crate::fault::{Fault, InputFault};
use crate::output::write_text;
use crate::source::FileSource;
use audit::Output;
use command_line::CheckWords;
use policy::Policy;
use std::alloc::{AllocError, Global};
use std::io::Write;

/// Does what the word `check` asks for: reads a policy file, and writes how many algorithms, extensions, policies and
/// accounts it has, as one line of four decimal numbers with a space between them and LF at its end.
///
/// Refused as `read_policy`, before anything is written; then as `input` 7 where memory runs out over the line, before
/// anything is written too, and as `input` 5 where the output fails: a beginning of the line may stand there then.
pub fn check_policy<F: FileSource + AllocGlobal, O: Write>(
    rt: &F,
    words: &CheckWords<'_>,
    output: &mut O,
) -> Result<(), Fault>
    ensures counted { OnOk result ((written : List ℕ)
        × Counts (source_of F.opens F.refuses F.File.remaining rt.now) words.now written
        × Appends (O.contents output.old) (O.contents output.new) written) }

    // Before a fault nothing is written, but where there are counts and writing them fails.
    ensures kept { IfErr result (λ fault. (O.contents output.new ≡ O.contents output.old)
        ⊎ ((fault ≡ Fault.Input InputFault.Failed)
        × ((written : List ℕ) × Counts (source_of F.opens F.refuses F.File.remaining rt.now) words.now written
        × Begins (O.contents output.old) (O.contents output.new) written))) }
    ensures faults { IfErr result (λ fault. (fault ≡ Fault.Input InputFault.Failed)
        ⊎ ((fault ≡ Fault.Input InputFault.File)
        ⊎ ((fault ≡ Fault.Input InputFault.Memory)
        ⊎ ((text : List ℕ) × ((first : PolicyFault) × (fault ≡ Fault.Policy first)
        × IsFirstFault first (meaning_of text)))))) }
{
    let policy = read_policy(rt, words.rules)?;
    write_counts(rt.alloc(), &policy, output)?;
    Ok(())
}

/// Reads a policy file. One that can't be read or isn't UTF-8 is `input` 2, and one that is no policy file `policy`
/// with the number of its first fault. Where memory runs out it is `input` 7 over the file, and `policy` 7 over what
/// the file says.
pub fn read_policy<F: FileSource + AllocGlobal>(rt: &F, path: &str) -> Result<Policy, Fault>
    ensures reads { ReadsPolicy (source_of F.opens F.refuses F.File.remaining rt.now) path.now result }

    // No contract says what a file of the machine holds. There the policy is the meaning of some text, and a fault the
    // first of some text.
    ensures meant { IfOk result (λ policy. (text : List ℕ)
        × ReadsText (source_of F.opens F.refuses F.File.remaining rt.now) path.now (Ok text)
        × (meaning_of text ≡ Ok (policy_view policy))) }
    ensures faults { IfErr result (λ fault. (fault ≡ Fault.Input InputFault.File)
        ⊎ ((fault ≡ Fault.Input InputFault.Memory)
        ⊎ ((text : List ℕ) × ((first : PolicyFault) × (fault ≡ Fault.Policy first)
        × IsFirstFault first (meaning_of text))))) }
{
    let text = read_text(rt, path)?;
    Ok(Policy::from_text(rt.alloc(), text.as_str())?)
}

fn read_text<F: FileSource + AllocGlobal>(rt: &F, path: &str) -> Result<String, InputFault>
    ensures reads { ReadsText (source_of F.opens F.refuses F.File.remaining rt.now) path.now (text_of result) }
    ensures faults { IfErr result (λ fault. (fault ≡ InputFault.File) ⊎ (fault ≡ InputFault.Memory)) }
{
    let octets = rt.read(path, u64::MAX)?;
    match String::from_utf8(octets) {
        Ok(text) => Ok(text),
        Err(_) => Err(InputFault::File),
    }
}

/// Writes the numbers of algorithms, extensions, policies and accounts as one line. A write that fails is `Failed`: a
/// beginning of the line was written then. `Memory` where memory runs out, before anything is written.
fn write_counts<W: Output>(alloc: Global, policy: &Policy, output: &mut W) -> Result<(), InputFault>
    ensures written { OnOk result (Appends (W.contents output.old) (W.contents output.new)
        (counts_line (policy_view policy.now))) }
    ensures begun { result ≡ Err InputFault.Failed
        → Begins (W.contents output.old) (W.contents output.new) (counts_line (policy_view policy.now)) }
    ensures failed { result ≡ Err InputFault.Failed → HasFailed (W.failures output.old) (W.failures output.new) }
    ensures kept { result ≡ Err InputFault.Memory → W.contents output.new ≡ W.contents output.old }
    ensures faults { IfErr result (λ fault. (fault ≡ InputFault.Failed) ⊎ (fault ≡ InputFault.Memory)) }
{
    let line = counts(alloc, policy)?;
    write_text(line.as_str(), output)
}

fn counts(alloc: Global, policy: &Policy) -> Result<String, AllocError>
    ensures { IfOk result (λ line. string_bytes line ≡ counts_line (policy_view policy.now)) }
{
    let algorithms = policy.algorithms.as_slice().len();
    let extensions = policy.extensions.as_slice().len();
    let policies = policy.policies.as_slice().len();
    let accounts = policy.accounts.as_slice().len();
    line_of_four(alloc, algorithms, extensions, policies, accounts)
}

fn line_of_four(
    alloc: Global,
    first: usize,
    second: usize,
    third: usize,
    fourth: usize,
) -> Result<String, AllocError>
    ensures { IfOk result (λ line. string_bytes line
        ≡ line_of_words (decimal first ∷ decimal second ∷ decimal third ∷ decimal fourth ∷ [])) }
{
    format!(in alloc; "{first} {second} {third} {fourth}\n")
}
