//! The word `answer`.
ghost use Rattle.std.specs.Prelude.{◌≡◌, IfOk, IfSome};
ghost use Rattle.operations.specs.Machine.{machine_of};
ghost use Rattle.console.specs.{Files.source_of, Hexadecimal.line};
ghost use Rattle.counter.specs.Reply.{Replies, octets_of};

use crate::fault::answer_of;
use crate::files::{Files, read_files};
use crate::host::Host;
use cms::Signer;
use command_line::AnswerWords;
use connections::{Clock, SystemClock};
use console::{Fault, FileSource, account_of, read_hexadecimal};
use desk::{Reply, Settings};
use operations::{DatabaseDesk, Disk, FileFrom, HostSigner, HostSigners, Question, Renewal, Start};
use std::io::Read;
use std::rt::HostRuntime;

/// Reads a request, and answers it by a token that is stored, or by a rejection. The files are read first, then the
/// request, and the database last.
pub fn answer<F: Start + Drop, S: FileSource + AllocGlobal, I: Read>(
    host: Host<'_, F, S>,
    words: &AnswerWords<'_>,
    input: &mut I,
) -> Result<Reply, Fault>
    ensures { IfOk result (λ reply. IfSome (I.remaining input.old) (λ text. Replies
        (machine_of ⟦<FileFrom<F> as Disk>⟧ F.Start ⟦<HostSigner<'static> as Signer>⟧
        ⟦<SystemClock<'static, HostRuntime> as Clock>⟧.reads)
        (source_of S.opens S.refuses S.File.remaining host.entry.files.now) words.now text (line (octets_of reply)))) }
{
    let rt = host.rt;
    let Files {
        policy,
        identity,
        signing,
        algorithm,
    } = read_files(host.files, &words.desk)?;
    let account = account_of(&policy, words.key)?;
    let query = read_hexadecimal(rt.alloc(), input)?;
    let desk = DatabaseDesk {
        database: host.database(words.desk.db),
        settings: Settings {
            policy: &policy,
            identity: &identity,
            algorithm: &algorithm,
        },
        signers: HostSigners {
            rt,
            signing,
            renewal: Renewal::Never,
        },
    };
    let question = Question {
        account,
        reading: words.reading as i64,
        query: query.as_slice(),
    };
    answer_of(operations::answer(rt.alloc(), desk, &question))
}

/// The reply's octets.
pub fn octets_of(reply: &Reply) -> &[u8]
    ensures { result.now ≡ octets_of reply.now }
{
    match reply {
        Reply::Granted { serial: _, bytes } => bytes.as_slice(),
        Reply::Rejected(rejection) => rejection.as_slice(),
    }
}
