//! The word `audit`.
ghost use Rattle.std.specs.Prelude.{◌≡◌, true, false, IfOk, IfErr};
ghost use Rattle.std.specs.Io.KnownBytes.{Appends};
ghost use Rattle.console.specs.Files.{source_of};
ghost use Rattle.operations.specs.{Audits.TellsSome, Machine.machine_of};
ghost use Rattle.counter.specs.Extract.{IsExamining, Extracts, LeavesAudit};

use crate::fault::agreement_of;
use crate::host::Host;
use audit::Inquiry;
use cms::Signer;
use command_line::AuditWords;
use connections::{Clock, SystemClock};
use console::{Fault, FileSource, account_named, read_policy};
use operations::{Disk, Examination, FileFrom, HostSigner, Start};
use std::io::Write;
use std::rt::HostRuntime;

/// Writes the extract that the words ask for, and checks its stamps where they ask for that, with a line for each that
/// fails: whether there is none. The policy file is read first, then the account looked for, and the database opened
/// last.
pub fn audit<F: Start + Drop, S: FileSource + AllocGlobal, O: Write, E: Write>(
    host: Host<'_, F, S>,
    words: &AuditWords<'_>,
    output: &mut O,
    errors: &mut E,
) -> Result<bool, Fault>
    ensures extracted { IfOk result (λ agree. Extracts (machine_of ⟦<FileFrom<F> as Disk>⟧ F.Start
        ⟦<HostSigner<'static> as Signer>⟧ ⟦<SystemClock<'static, HostRuntime> as Clock>⟧.reads)
        (source_of S.opens S.refuses S.File.remaining host.entry.files.now) words.now (O.contents output.old)
        (O.contents output.new) (E.contents errors.old) (E.contents errors.new) agree
        (Appends (O.contents output.old) (O.contents output.new))) }
    ensures agreed { IfOk result (λ agree. agree ≡ true → E.contents errors.new ≡ E.contents errors.old) }
    ensures failed { IfOk result (λ agree. agree ≡ false
        → IsExamining words.now × TellsSome (E.contents errors.old) (E.contents errors.new)) }
    ensures refused { IfErr result (LeavesAudit (source_of S.opens S.refuses S.File.remaining host.entry.files.now)
        words.now (O.contents output.old) (O.contents output.new) (E.contents errors.old) (E.contents errors.new)) }
{
    let rt = host.rt;
    let policy = read_policy(host.files, words.rules)?;
    let account = account_named(&policy, words.account)?;
    let asked = Examination {
        inquiry: Inquiry {
            policy: &policy,
            account,
            from: words.from,
            to: words.to,
        },
        check: words.check,
        judge: words.judge,
    };
    let database = host.database(words.db);
    agreement_of(operations::audit(rt.alloc(), database, &asked, output, errors))
}
