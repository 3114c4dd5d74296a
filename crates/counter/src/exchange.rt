//! The word `exchange`.
ghost use Rattle.std.specs.{Prelude.◌≡◌, Prelude.◌⊎◌, Prelude.OnOk, Prelude.IfErr, Io.KnownBytes.Keeps};
ghost use Rattle.console.specs.Files.{source_of};
ghost use Rattle.counter.specs.Exchange.{Exchanges, HasEnded, HasStopped};
ghost use Rattle.counter.specs.Streams.{begun, whole};
ghost use Rattle.operations.specs.Machine.{machine_of};

use crate::events::octets_at;
use crate::fault::fault_of;
use crate::files::{Files, read_files};
use crate::host::Host;
use crate::http_request::OneRequest;
use cms::Signer;
use command_line::ExchangeWords;
use connections::{Clock, SystemClock};
use console::{Fault, FileSource, InputFault};
use desk::Settings;
use operations::{
    DatabaseDesk, Disk, FileFrom, HostSigner, HostSigners, Renewal, Start, perform_at_desk,
};
use service::Served;
use std::io::{Read, Write};
use std::rt::HostRuntime;

/// Reads one HTTP request and writes its answer; nothing where the input ends before any octet. The files are read
/// first, then the database is opened, the key holder reached, and the request read last. `input` 5 where a read or a
/// write fails, or the database or memory in the middle of an extract.
pub fn exchange<F: Start + Drop, S: FileSource + AllocGlobal, I: Read, O: Write>(
    host: Host<'_, F, S>,
    words: &ExchangeWords<'_>,
    input: &mut I,
    output: &mut O,
) -> Result<(), Fault>
    ensures answered { OnOk result (Exchanges (machine_of ⟦<FileFrom<F> as Disk>⟧ F.Start
        ⟦<HostSigner<'static> as Signer>⟧ ⟦<SystemClock<'static, HostRuntime> as Clock>⟧.reads)
        (source_of S.opens S.refuses S.File.remaining host.entry.files.now) words.now O.contents output.old
        output.new (I.remaining input.old) (I.remaining input.new) whole) }

    // Before a fault nothing is written, but where there is an answer and writing it fails.
    ensures kept { IfErr result (λ fault. (O.contents output.new ≡ O.contents output.old)
        ⊎ ((fault ≡ Fault.Input InputFault.Failed)
        × Exchanges (machine_of ⟦<FileFrom<F> as Disk>⟧ F.Start
        ⟦<HostSigner<'static> as Signer>⟧ ⟦<SystemClock<'static, HostRuntime> as Clock>⟧.reads)
        (source_of S.opens S.refuses S.File.remaining host.entry.files.now) words.now O.contents output.old
        output.new (I.remaining input.old) (I.remaining input.new) begun)) }
{
    let rt = host.rt;
    let Files {
        policy,
        identity,
        signing,
        algorithm,
    } = read_files(host.files, &words.desk)?;
    let desk = DatabaseDesk {
        database: host.database(words.desk.db),
        settings: Settings {
            policy: &policy,
            identity: &identity,
            algorithm: &algorithm,
        },
        signers: HostSigners {
            rt,
            signing,
            renewal: Renewal::Never,
        },
    };
    let asked = OneRequest {
        alloc: rt.alloc(),
        reading: words.reading as i64,
        octets: octets_at(rt, words.desk.db),
    };
    match perform_at_desk(rt.alloc(), desk, asked, input, output) {
        Ok(served) => finish(served, output),
        Err(fault) => Err(fault_of(fault)),
    }
}

/// Has the output send the answer of a request that was served. `input` 5 where a stream failed.
fn finish<O: Write>(served: Served, output: &mut O) -> Result<(), Fault>
    ensures ended { OnOk result (HasEnded served (O.contents output.old) (O.contents output.new)) }
    ensures stopped { IfErr result (HasStopped served (O.contents output.old) (O.contents output.new)) }
{
    match served {
        Served::Closed => Ok(()),
        Served::Answered(_) => Ok(flush(output)?),
        Served::ReadFailed | Served::WriteFailed { .. } => Err(Fault::Input(InputFault::Failed)),
    }
}

/// Has the output send what it keeps. `Failed` where it doesn't.
fn flush<O: Write>(output: &mut O) -> Result<(), InputFault>
    ensures kept { Keeps (O.contents output.old) (O.contents output.new) }
    ensures faults { IfErr result (λ fault. fault ≡ InputFault.Failed) }
{
    match output.flush() {
        Ok(()) => Ok(()),
        Err(_) => Err(InputFault::Failed),
    }
}
