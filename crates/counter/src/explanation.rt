//! The word `explain`.
ghost use Rattle.std.specs.Prelude.{◌≡◌, ◌⊎◌, ℕ, List, None, Some, Err, IfErr, IfOk, OnOk};
ghost use Rattle.std.specs.Io.KnownBytes.{Appends};
ghost use Rattle.console.specs.{Files.source_of, Writes.Begins};
ghost use Rattle.counter.specs.Explanation.{Explains};
ghost use Rattle.operations.specs.Machine.{machine_of};

use crate::host::Host;
use cms::Signer;
use command_line::ExplainWords;
use connections::{Clock, SystemClock};
use console::{Fault, FileSource, InputFault, read_policy, write_answer};
use operations::{Disk, FileFrom, HostSigner, Start};
use std::io::Write;
use std::rt::HostRuntime;

/// Explains the stamp that the words state, and writes that. The policy file is read first, and the database opened
/// after it. It is `input` 4 where no stamp has that serial number.
pub fn explain_stamp<F: Start + Drop, S: FileSource + AllocGlobal, O: Write>(
    host: Host<'_, F, S>,
    words: &ExplainWords<'_>,
    output: &mut O,
) -> Result<(), Fault>
    ensures explained { OnOk result ((written : List ℕ) × Explains (machine_of ⟦<FileFrom<F> as Disk>⟧ F.Start
        ⟦<HostSigner<'static> as Signer>⟧ ⟦<SystemClock<'static, HostRuntime> as Clock>⟧.reads)
        (source_of S.opens S.refuses S.File.remaining host.entry.files.now) words.now (Some written)
        × Appends (O.contents output.old) (O.contents output.new) written) }

    // Before a fault nothing is written, but where there is an explanation and writing it fails.
    ensures kept { IfErr result (λ fault. (O.contents output.new ≡ O.contents output.old)
        ⊎ ((fault ≡ Fault.Input InputFault.Failed) × ((written : List ℕ)
        × Explains (machine_of ⟦<FileFrom<F> as Disk>⟧ F.Start
        ⟦<HostSigner<'static> as Signer>⟧ ⟦<SystemClock<'static, HostRuntime> as Clock>⟧.reads)
        (source_of S.opens S.refuses S.File.remaining host.entry.files.now) words.now (Some written)
        × Begins (O.contents output.old) (O.contents output.new) written))) }
    ensures none { result ≡ Err (Fault.Input InputFault.Unknown) → Explains (machine_of ⟦<FileFrom<F> as Disk>⟧ F.Start
        ⟦<HostSigner<'static> as Signer>⟧ ⟦<SystemClock<'static, HostRuntime> as Clock>⟧.reads)
        (source_of S.opens S.refuses S.File.remaining host.entry.files.now) words.now None }
{
    let text = explanation_of(host, words)?;
    write_answer(text.as_slice(), output)?;
    Ok(())
}

/// What there is to say of the stamp that the words state.
fn explanation_of<F: Start + Drop, S: FileSource + AllocGlobal>(
    host: Host<'_, F, S>,
    words: &ExplainWords<'_>,
) -> Result<Vec<u8>, Fault>
    ensures explained { IfOk result (λ text. Explains (machine_of ⟦<FileFrom<F> as Disk>⟧ F.Start
        ⟦<HostSigner<'static> as Signer>⟧ ⟦<SystemClock<'static, HostRuntime> as Clock>⟧.reads)
        (source_of S.opens S.refuses S.File.remaining host.entry.files.now) words.now (Some text.items)) }
    ensures none { result ≡ Err (Fault.Input InputFault.Unknown) → Explains (machine_of ⟦<FileFrom<F> as Disk>⟧ F.Start
        ⟦<HostSigner<'static> as Signer>⟧ ⟦<SystemClock<'static, HostRuntime> as Clock>⟧.reads)
        (source_of S.opens S.refuses S.File.remaining host.entry.files.now) words.now None }
{
    let rt = host.rt;
    let policy = read_policy(host.files, words.rules)?;
    let database = host.database(words.db);
    match operations::explain(rt.alloc(), database, &policy, words.serial)? {
        Some(text) => Ok(text),
        None => Err(Fault::Input(InputFault::Unknown)),
    }
}
