ghost use Rattle.std.specs.Prelude.{◌≡◌, ◌≢◌, ◌≤◌, ◌⊎◌, List, ℕ, true, false, Ok, Err, OnOk, IfSome, IfErr, IfOk};
ghost use Rattle.std.specs.Io.KnownBytes.{Appends};
ghost use Rattle.command_line.specs.Words.{AreRefused, AreTaken, texts_of};
ghost use Rattle.console.specs.{Fault.fault_line, Fault.no_text, Files.source_of, Writes.Begins};
ghost use Rattle.counter.specs.Extract.{IsExamining, Extracts, LeavesAudit};
ghost use Rattle.counter.specs.Streams.{begun, streams_of, whole};
ghost use Rattle.counter.specs.{Continuation.IsContinuedBy, Does.Does, Does.IsNoAudit, Reply.Replies, Stops.Exits};
ghost use Rattle.operations.specs.OverFiles.{IsContinuedOver, IsFreeAt};
ghost use Rattle.operations.specs.{Audits.TellsSome, Machine.image_at, Machine.machine_of};

use crate::additions::{calibrate, hold};
use crate::answer::{answer, octets_of};
use crate::continuation::continue_in;
use crate::exchange::exchange;
use crate::explanation::explain_stamp;
use crate::extract::audit;
use crate::host::Host;
use crate::server::serve;
use cms::Signer;
use command_line::{AnswerWords, AuditWords, Word};
use connections::{Clock, SystemClock};
use console::{
    DONE, FAULT, Fault, FileSource, InputFault, answer_tst, check_policy, explain, refuse_octets,
    report, write_hexadecimal,
};
use operations::{Disk, FileFrom, HostSigner, Paths, Start, Unknown};
use std::env;
use std::io::{ErrorKind, Read, Stderr, Stdin, Stdout, Write};
use std::rt::HostRuntime;

/// What was done.
#[derive(Clone, Copy)]
pub enum Outcome {
    /// A request was answered, by its TSTInfo or by a rejection.
    Replied,
    /// The entries of a policy file were counted.
    Counted,
    /// The tables of a database were made, a calibration or a hold was added, or a history was carried on.
    Changed,
    /// An HTTP request was answered, or there was none.
    Exchanged,
    /// HTTP connections were served.
    Served,
    /// An extract was written, and no stamp that was checked fails.
    Extracted,
    /// An extract was written, and stamps fail their check.
    Failing,
    /// A stamp was explained.
    Explained,
}

impl Outcome {
    /// The exit status that tells of it.
    fn status(self) -> u8
        ensures done { self ≢ Outcome.Failing → result ≡ 0 }
        ensures failing { self ≡ Outcome.Failing → result ≡ 1 }
        ensures most { result ≤ 1 }
    {
        match self {
            Outcome::Replied | Outcome::Counted | Outcome::Changed => DONE,
            Outcome::Exchanged | Outcome::Served | Outcome::Extracted | Outcome::Explained => DONE,
            Outcome::Failing => FAULT,
        }
    }
}

/// The streams of a process. Those of the machine are of three types, so that none is taken for another.
#[derive(Drop)]
pub struct Process<I, O, E> {
    /// What it reads.
    pub input: I,
    /// Where answers go.
    pub output: O,
    /// Where faults are told.
    pub errors: E,
}

/// The program with the process's own words and streams. It answers the exit status as `run_words` and `take_words` do.
pub fn run(rt: &HostRuntime) -> u8
    ensures { result ≤ 2 }
{
    let host = Host {
        rt,
        files: rt,
        start: Unknown,
    };
    let mut process: Process<Stdin, Stdout, Stderr> = Process {
        input: rt.stdin(),
        output: rt.stdout(),
        errors: rt.stderr(),
    };
    match take_words(process_words(rt), &mut process) {
        Ok(words) => run_words(host, words.as_slice(), &mut process),
        Err(status) => status,
    }
}

fn process_words(rt: &HostRuntime) -> Result<Vec<String>, ErrorKind> {
    let words = env::args(rt).map_err(|error| error.kind())?;
    words.collect(rt.alloc()).or(Err(ErrorKind::OutOfMemory))
}

/// The words of the process; or the exit status, where there are none. Words that aren't UTF-8 are refused, with status
/// 2; where memory runs out over them it is `input` 7, with status 1. Why is written to `errors`, and to it alone.
fn take_words<I, O: Write, E: Write>(
    words: Result<Vec<String>, ErrorKind>,
    process: &mut Process<I, O, E>,
) -> Result<Vec<String>, u8>
    ensures taken { IfOk words (λ given. (result ≡ Ok given)
        × (E.contents process.new.errors ≡ E.contents process.old.errors)) }
    ensures memory { words ≡ Err ErrorKind.OutOfMemory → (result ≡ Err 1)
        × Begins (E.contents process.old.errors) (E.contents process.new.errors)
        (fault_line (Fault.Input InputFault.Memory)) }
    ensures refused { IfErr words (λ kind. kind ≢ ErrorKind.OutOfMemory → (result ≡ Err 2)
        × Begins (E.contents process.old.errors) (E.contents process.new.errors) no_text) }
    ensures most { IfErr result (λ status. status ≤ 2) }
    ensures unread { process.new.input ≡ process.old.input }
    ensures unwritten { process.new.output ≡ process.old.output }
{
    match words {
        Ok(words) => Ok(words),
        Err(ErrorKind::OutOfMemory) => Err(report(
            Fault::Input(InputFault::Memory),
            &mut process.errors,
        )),
        Err(_) => Err(refuse_octets(&mut process.errors)),
    }
}

/// The whole program: does what the words ask for, of which the first is the program's name, and answers the exit
/// status.
///
/// 0 where it is done; a rejection and help are done too. 1 where a fault stopped it, whose line it writes to `errors`:
/// `der`, `tsp`, `cms`, `policy`, `store` and `audit` with the number of those crates' refusals, and `input` 1 where
/// the input isn't hexadecimal, 2 where a file can't be read, has a wrong size or isn't UTF-8 where it has to be text,
/// 3 where a hold doesn't begin before it ends, 4 where no account has the key or the name, or no stamp the serial
/// number, 5 where the input, the output or the clock fails, or the database or memory in the middle of an extract by
/// `exchange`, 6 where the address can't be listened on, 7 where memory runs out, 8 where the signer can't be reached,
/// and 9 where a history is to go on above what doesn't come after its last stamp. 1 also where stamps fail the check
/// that `audit` makes: a line `row N fails` for each stands on `errors` then, before the line of a fault that stopped
/// the check. 2 where the words are refused; why is written to `errors`.
///
/// Where the status isn't 0 nothing is written to `output`, but where writing an answer or help fails, or an extract is
/// refused on the way: then a beginning of it stands there; and where a check fails or is stopped: then the whole
/// extract.
pub fn run_words<F: Start + Drop, S: FileSource + Paths + AllocGlobal, I: Read, O: Write, E: Write>(
    host: Host<'_, F, S>,
    words: &[String],
    process: &mut Process<I, O, E>,
) -> u8
    ensures status { result ≤ 2 }

    // Where all is done, what the words ask for is written, or they ask for help (`done`). Where a fault stopped it, or
    // stamps fail their check: what is told, and what is written to the output (`stopped`).
    ensures exits { Exits (machine_of ⟦<FileFrom<F> as Disk>⟧ F.Start
        ⟦<HostSigner<'static> as Signer>⟧ ⟦<SystemClock<'static, HostRuntime> as Clock>⟧.reads)
        (IsContinuedBy (IsContinuedOver ⟦<FileFrom<F> as Disk>⟧ (image_at F.Start) ⟦<FileFrom<Unknown> as Disk>⟧)
        (IsFreeAt ⟦<FileFrom<Unknown> as Disk>⟧ (image_at ⟦<Unknown as Start>⟧) S.Paths host.entry.files.now))
        (source_of S.opens S.refuses S.File.remaining host.entry.files.now)
        (streams_of (I.remaining process.old.input) (I.remaining process.new.input) O.contents process.old.output
        process.new.output (E.contents process.old.errors) (E.contents process.new.errors)) (texts_of words.now)
        result }

    // Where all is done, no fault is written.
    ensures silent { result ≡ 0 → E.contents process.new.errors ≡ E.contents process.old.errors }

    // Only words that aren't understood are refused, and they write to `errors` alone.
    ensures refused { result ≡ 2 → AreRefused (texts_of words.now) }
    ensures unwritten { result ≡ 2 → O.contents process.new.output ≡ O.contents process.old.output }

    // Words that aren't taken read nothing, whatever the status.
    ensures unread { (result ≡ 2) ⊎ (AreTaken (texts_of words.now) → ⊥)
        → I.remaining process.new.input ≡ I.remaining process.old.input }
{
    let Process {
        input,
        output,
        errors,
    } = process;
    match Word::parse(host.rt.alloc(), words) {
        Ok(word) => match run_word(host, &word, input, output, errors) {
            Ok(outcome) => outcome.status(),
            Err(fault) => report(fault, errors),
        },
        Err(refusal) => explain(&refusal, output, errors),
    }
}

/// Does what a word asks for.
#[tactic(auto, using(console::proofs::Writes::appends_nothing))]
fn run_word<F: Start + Drop, S: FileSource + Paths + AllocGlobal, I: Read, O: Write, E: Write>(
    host: Host<'_, F, S>,
    word: &Word<'_>,
    input: &mut I,
    output: &mut O,
    errors: &mut E,
) -> Result<Outcome, Fault>
    ensures done { IfOk result (λ outcome. outcome ≢ Outcome.Failing
        → Does (machine_of ⟦<FileFrom<F> as Disk>⟧ F.Start
        ⟦<HostSigner<'static> as Signer>⟧ ⟦<SystemClock<'static, HostRuntime> as Clock>⟧.reads)
        (IsContinuedBy (IsContinuedOver ⟦<FileFrom<F> as Disk>⟧ (image_at F.Start) ⟦<FileFrom<Unknown> as Disk>⟧)
        (IsFreeAt ⟦<FileFrom<Unknown> as Disk>⟧ (image_at ⟦<Unknown as Start>⟧) S.Paths host.entry.files.now))
        (source_of S.opens S.refuses S.File.remaining host.entry.files.now)
        (streams_of (I.remaining input.old) (I.remaining input.new) O.contents output.old output.new
        (E.contents errors.old) (E.contents errors.new)) word.now whole) }
    ensures silent { IfOk result (λ outcome. outcome ≢ Outcome.Failing
        → E.contents errors.new ≡ E.contents errors.old) }

    // Only where stamps are checked some may fail.
    ensures failing { IfOk result (λ outcome. outcome ≡ Outcome.Failing → (words : AuditWords)
        × (word.now ≡ Word.Audit words) × IsExamining words
        × Extracts (machine_of ⟦<FileFrom<F> as Disk>⟧ F.Start ⟦<HostSigner<'static> as Signer>⟧
        ⟦<SystemClock<'static, HostRuntime> as Clock>⟧.reads)
        (source_of S.opens S.refuses S.File.remaining host.entry.files.now) words (O.contents output.old)
        (O.contents output.new) (E.contents errors.old) (E.contents errors.new) false
        (Appends (O.contents output.old) (O.contents output.new))
        × TellsSome (E.contents errors.old) (E.contents errors.new)) }

    // Before a fault nothing is written, but where there is an answer and writing it fails.
    ensures kept { IsNoAudit word.now → IfErr result (λ fault. (O.contents output.new ≡ O.contents output.old)
        ⊎ ((fault ≡ Fault.Input InputFault.Failed)
        × Does (machine_of ⟦<FileFrom<F> as Disk>⟧ F.Start
        ⟦<HostSigner<'static> as Signer>⟧ ⟦<SystemClock<'static, HostRuntime> as Clock>⟧.reads)
        (IsContinuedBy (IsContinuedOver ⟦<FileFrom<F> as Disk>⟧ (image_at F.Start) ⟦<FileFrom<Unknown> as Disk>⟧)
        (IsFreeAt ⟦<FileFrom<Unknown> as Disk>⟧ (image_at ⟦<Unknown as Start>⟧) S.Paths host.entry.files.now))
        (source_of S.opens S.refuses S.File.remaining host.entry.files.now)
        (streams_of (I.remaining input.old) (I.remaining input.new) O.contents output.old output.new
        (E.contents errors.old) (E.contents errors.new)) word.now begun)) }
    ensures untold { IsNoAudit word.now → IfErr result (λ _. E.contents errors.new ≡ E.contents errors.old) }

    // A refused extract may have been begun, and one whose check is refused is whole.
    ensures cut { (words : AuditWords) → word.now ≡ Word.Audit words → IfErr result (LeavesAudit
        (source_of S.opens S.refuses S.File.remaining host.entry.files.now) words (O.contents output.old)
        (O.contents output.new) (E.contents errors.old) (E.contents errors.new)) }
{
    match word {
        Word::Tst(words) => {
            answer_tst(host.rt.alloc(), words, input, output)?;
            Ok(Outcome::Replied)
        }
        Word::Check(words) => {
            check_policy(host.files, words, output)?;
            Ok(Outcome::Counted)
        }
        Word::Init(words) => {
            operations::init(host.database(words.db))?;
            Ok(Outcome::Changed)
        }
        Word::Migrate(words) => {
            operations::migrate(host.database(words.db))?;
            Ok(Outcome::Changed)
        }
        Word::Continue(words) => {
            let alloc = host.rt.alloc();
            let new = host.another(words.db);
            continue_in(alloc, host.database(words.from), new, words)?;
            Ok(Outcome::Changed)
        }
        Word::Calibrate(words) => {
            calibrate(host.rt.alloc(), host.database(words.db), words)?;
            Ok(Outcome::Changed)
        }
        Word::Hold(words) => {
            hold(host.rt.alloc(), host.database(words.db), words)?;
            Ok(Outcome::Changed)
        }
        Word::Answer(words) => {
            answer_request(host, words, input, output)?;
            Ok(Outcome::Replied)
        }
        Word::Exchange(words) => {
            exchange(host, words, input, output)?;
            Ok(Outcome::Exchanged)
        }
        Word::Serve(words) => {
            serve(host, words)?;
            Ok(Outcome::Served)
        }
        Word::Audit(words) => {
            if audit(host, words, output, errors)? {
                Ok(Outcome::Extracted)
            } else {
                Ok(Outcome::Failing)
            }
        }
        Word::Explain(words) => {
            explain_stamp(host, words, output)?;
            Ok(Outcome::Explained)
        }
    }
}

/// Reads a request, answers it over the database, and writes the reply.
fn answer_request<F: Start + Drop, S: FileSource + AllocGlobal, I: Read, O: Write>(
    host: Host<'_, F, S>,
    words: &AnswerWords<'_>,
    input: &mut I,
    output: &mut O,
) -> Result<(), Fault>
    ensures answered { OnOk result (IfSome (I.remaining input.old) (λ text.
        (written : List ℕ) × Replies (machine_of ⟦<FileFrom<F> as Disk>⟧ F.Start ⟦<HostSigner<'static> as Signer>⟧
        ⟦<SystemClock<'static, HostRuntime> as Clock>⟧.reads)
        (source_of S.opens S.refuses S.File.remaining host.entry.files.now) words.now text written
        × Appends (O.contents output.old) (O.contents output.new) written)) }

    // Before a fault nothing is written, but where there is a reply and writing it fails.
    ensures kept { IfErr result (λ fault. (O.contents output.new ≡ O.contents output.old)
        ⊎ ((fault ≡ Fault.Input InputFault.Failed) × IfSome (I.remaining input.old) (λ text.
        (written : List ℕ) × Replies (machine_of ⟦<FileFrom<F> as Disk>⟧ F.Start ⟦<HostSigner<'static> as Signer>⟧
        ⟦<SystemClock<'static, HostRuntime> as Clock>⟧.reads)
        (source_of S.opens S.refuses S.File.remaining host.entry.files.now) words.now text written
        × Begins (O.contents output.old) (O.contents output.new) written))) }
{
    let alloc = host.rt.alloc();
    let reply = answer(host, words, input)?;
    write_hexadecimal(alloc, octets_of(&reply), output)?;
    Ok(())
}
