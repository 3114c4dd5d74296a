//! How the stamps that the database at a path keeps are extracted, checked, and judged again.
ghost use Rattle.std.specs.Prelude.{◌≡◌, ◌≢◌, ◌⊎◌, ◌↔◌, true, false, IfOk, IfErr, IsTrue, OnOk, OnErr};
ghost use Rattle.std.specs.Prelude.{◌++◌, ◌∷◌, ℕ, [], List, None, if◌then◌else◌, option_map, string_bytes};
ghost use Rattle.std.specs.{Option.option_to_list, Io.KnownBytes.Appends};
ghost use Rattle.audit.specs.{Extract.extract_text, Intact.IsIntact};
ghost use Rattle.book.specs.Stands.{OnlyLooks, Stands};
ghost use Rattle.book.specs.{History.History, Rights.deposit_with_stamp, Rows.StampRow, Values.stamp_view};
ghost use Rattle.judgement.specs.{Judged.IsJudgedBehind, Readings.evidence_in};
ghost use Rattle.operations.specs.Audits.{Allows, BeginsExtract, ComesWhere, CountsAudit, CountsFaults, Examines};
ghost use Rattle.operations.specs.Audits.{ExaminesBehind, IsCutOff, IsExamining, IsExtractFault, IsFound, Knows};
ghost use Rattle.operations.specs.Audits.{IsAudited, IsAuditOf, Leaves, TellsFailing, TellsSome, WritesExtract};
ghost use Rattle.operations.specs.Audits.{Deposit, Judged, Row, failing_lines, failures_of, judged_of};
ghost use Rattle.operations.specs.OverFiles.{IsAuditedOver, IsUnopenedAs};
ghost use Rattle.operations.specs.{declared.audits.AuditFault.TheVariants.Store, Kept.rows_before};
ghost use Rattle.policy.specs.View.{policy_view};

use crate::database::{Database, DatabaseFiles};
use crate::kept::{Kept, kept_before};
use crate::operation::{Operation, perform_at};
use audit::{ExtractFault, Inquiry, check_deposit, check_row, extract, write_octets};
use book::{Book, Stamp, StoreFault};
use judgement::{Judgement, Past};
use std::alloc::{AllocError, Global};
use std::io::Write;

/// What is asked of an audit: an extract, and how its stamps are examined.
#[derive(Clone, Copy)]
pub struct Examination<'a> {
    /// Of which stamps an account asks for an extract.
    pub inquiry: Inquiry<'a>,
    /// Whether each stamp is checked as well, with its deposit.
    pub check: bool,
    /// Whether each stamp is judged again as well, by the rules of the policy file.
    pub judge: bool,
}

/// Why there is no extract, or its stamps can't be looked at.
#[derive(Clone, Copy)]
pub enum AuditFault {
    /// The database refused, or isn't the counter's.
    Store(StoreFault),
    /// The extract is refused, or memory ran out over its stamps.
    Extract(ExtractFault),
}

impl From<StoreFault> for AuditFault {
    ghost from_gives = { λ fault e. e ≡ Store fault };

    fn from(fault: StoreFault) -> AuditFault {
        AuditFault::Store(fault)
    }
}

impl<O: Write, E: Write> Operation<O, E> for Examination<'_> {
    type Answer = Result<bool, AuditFault>;

    ghost answers = { λ asked out out' told told' done. IsAudited asked (O.contents out) (O.contents out')
        (E.contents told) (E.contents told') done };

    ghost moves = { λ _ g asked old new out out' told told' done. IsAuditOf g asked old new (O.contents out)
        (O.contents out') (E.contents told) (E.contents told') done };

    fn perform<B: Book + Drop>(
        self,
        alloc: Global,
        book: B,
        output: &mut O,
        errors: &mut E,
    ) -> (B, Result<bool, AuditFault>) {
        let mut book = book;
        let done = audit_book(alloc, &mut book, &self, output, errors);
        (book, done)
    }
}

/// Writes the extract of the stamps that the database keeps, as `audit::extract` does, and then, where that is asked,
/// examines each stamp as `examine_stamps` does: whether nothing fails. Refused with `Store` where the database can't
/// be opened, and with `Extract` as `audit::extract`; no stamp is examined then. Where examining them is refused it is
/// `Extract` for want of memory, and else `Store`; the whole extract is written then.
pub fn audit<F: DatabaseFiles, O: Write, E: Write>(
    alloc: Global,
    database: Database<'_, F>,
    asked: &Examination<'_>,
    output: &mut O,
    errors: &mut E,
) -> Result<bool, AuditFault>
    ensures allowed { IfOk result (λ _. Allows asked.now) }
    ensures extracted { OnOk result (WritesExtract (O.contents output.old) (O.contents output.new)) }

    // Whatever the files hold: the store that was opened over them is audited, changes nowhere, and is closed.
    ensures audited { IfOk result (λ _. IsAuditedOver F.Disk.Disk F.held asked.now
        (O.contents output.old) (O.contents output.new) (E.contents errors.old) (E.contents errors.new) result) }

    // Where it is refused, no store was opened, by that refusal, or it was audited so far.
    ensures unaudited { IfErr result (λ fault.
        IsUnopenedAs Store (F.refuses database.entry.files database.entry.path.now) fault
        ⊎ IsAuditedOver F.Disk.Disk F.held asked.now (O.contents output.old) (O.contents output.new)
        (E.contents errors.old) (E.contents errors.new) result) }
    ensures agreed { IfOk result (λ agree. agree ≡ true → E.contents errors.new ≡ E.contents errors.old) }
    ensures failed { IfOk result (λ agree. agree ≡ false
        → IsExamining asked.now × TellsSome (E.contents errors.old) (E.contents errors.new)) }
    ensures comes { IfErr result (ComesWhere asked.now) }
    ensures refused { IfErr result (Leaves asked.now (O.contents output.old) (O.contents output.new)
        (E.contents errors.old) (E.contents errors.new)) }
{
    perform_at(alloc, database, *asked, output, errors)?
}

/// Writes the extract of a book, and then examines its stamps where that is asked.
fn audit_book<B: Book + Drop, O: Write, E: Write>(
    alloc: Global,
    book: &mut B,
    asked: &Examination<'_>,
    output: &mut O,
    errors: &mut E,
) -> Result<bool, AuditFault>
    ensures looks { OnlyLooks B.Standing book.old book.new }
    ensures whole { B.honest book.new → (b : History) → Stands B.Standing b book.old → OnOk result (Appends
        (O.contents output.old) (O.contents output.new) (extract_text asked.now.inquiry.from asked.now.inquiry.to b)) }
    ensures examined { B.honest book.new → (b : History) → Stands B.Standing b book.old → IsExamining asked.now
        → IfOk result (Examines asked.now b (E.contents errors.old) (E.contents errors.new)) }
    ensures allowed { IfOk result (λ _. Allows asked.now) }
    ensures extracted { OnOk result (WritesExtract (O.contents output.old) (O.contents output.new)) }
    ensures agreed { IfOk result (λ agree. agree ≡ true → E.contents errors.new ≡ E.contents errors.old) }
    ensures failed { IfOk result (λ agree. agree ≡ false
        → IsExamining asked.now × TellsSome (E.contents errors.old) (E.contents errors.new)) }
    ensures comes { IfErr result (ComesWhere asked.now) }
    ensures refused { IfErr result (Leaves asked.now (O.contents output.old) (O.contents output.new)
        (E.contents errors.old) (E.contents errors.new)) }
    ensures faults { CountsAudit result (B.fault_count book.old) (B.fault_count book.new) }
{
    write_extract(alloc, book, asked, output)?;
    if !is_examining(asked) {
        return Ok(true);
    }
    match examine_stamps(alloc, book, asked, errors) {
        Ok(agree) => Ok(agree),
        Err(ExtractFault::Memory) => Err(AuditFault::Extract(ExtractFault::Memory)),
        // No other refusal of a walk over stamps is told than the database's.
        Err(_) => Err(AuditFault::Store(StoreFault::Database)),
    }
}

/// Whether stamps are looked at more closely than their extract wants.
fn is_examining(asked: &Examination<'_>) -> bool
    ensures { IsTrue result ↔ IsExamining asked.now }
{
    asked.check || asked.judge
}

/// Writes the extract of a book, and has the output send what it keeps.
fn write_extract<B: Book + Drop, O: Write>(
    alloc: Global,
    book: &mut B,
    asked: &Examination<'_>,
    output: &mut O,
) -> Result<(), AuditFault>
    ensures looks { OnlyLooks B.Standing book.old book.new }
    ensures whole { B.honest book.new → (b : History) → Stands B.Standing b book.old → OnOk result (Appends
        (O.contents output.old) (O.contents output.new) (extract_text asked.now.inquiry.from asked.now.inquiry.to b)) }
    ensures allowed { IfOk result (λ _. Allows asked.now) }
    ensures extracted { OnOk result (WritesExtract (O.contents output.old) (O.contents output.new)) }
    ensures comes { IfErr result (ComesWhere asked.now) }
    ensures refused { IfErr result (λ fault. (O.contents output.new ≡ O.contents output.old)
        ⊎ (IsExtractFault fault × Allows asked.now × BeginsExtract (O.contents output.old) (O.contents output.new))) }
    ensures faults { CountsAudit result (B.fault_count book.old) (B.fault_count book.new) }
{
    extract(
        alloc,
        book,
        asked.inquiry.policy,
        asked.inquiry.account,
        asked.inquiry.from,
        asked.inquiry.to,
        output,
    )
    .map_err(AuditFault::Extract)?;
    output
        .flush()
        .or(Err(AuditFault::Extract(ExtractFault::Write)))
}

/// Examines each stamp of the range, void ones too, and writes a line for each thing that fails: whether nothing does.
/// N is the stamp's serial number.
///
/// A check writes `row N fails` where the stamp's octets don't say what its row and the identity of its serial number
/// say, and `deposit N fails` where its deposit isn't what was stamped. A judgement is by the rules of the audit's
/// policy file, and by all rows with lower numbers, those before the range too: `row N isn't given by these rules: rule
/// R` names the first rule that fails under the reading of the clock that comes furthest, and ends with `text` where no
/// rule fails, but the row, or the TSTInfo in it, is another. `row N may have been held` stands apart: the stamp would
/// be given if its moment hadn't been held, by a hold that may have been added later. That fails too, since it isn't
/// certain. A first row that isn't number 1 was carried on from another database, and is taken as it stands.
///
/// Where a line can't be written the stamps after it aren't looked at. Refused with `Memory` and `Store`, where they
/// are met; the lines that were written stand. The book changes nowhere, and no stamp is kept.
pub fn examine_stamps<B: Book + Drop, E: Write>(
    alloc: Global,
    book: &mut B,
    asked: &Examination<'_>,
    errors: &mut E,
) -> Result<bool, ExtractFault>
    ensures looks { OnlyLooks B.Standing book.old book.new }
    ensures examined { B.honest book.new → (b : History) → Stands B.Standing b book.old
        → IfOk result (Examines asked.now b (E.contents errors.old) (E.contents errors.new)) }
    ensures agreed { IfOk result (λ agree. agree ≡ true → E.contents errors.new ≡ E.contents errors.old) }
    ensures failed { IfOk result (λ agree. agree ≡ false
        → TellsSome (E.contents errors.old) (E.contents errors.new)) }
    ensures told { OnErr result (TellsFailing (E.contents errors.old) (E.contents errors.new)) }
    ensures refusals { IfErr result (λ e. (e ≡ ExtractFault.Memory) ⊎ (e ≡ ExtractFault.Store)) }
    ensures faults { CountsFaults result (B.fault_count book.old) (B.fault_count book.new) }
{
    let mut kept = kept_for(alloc, book, asked)?;
    examine_each(alloc, book, asked, &mut kept, errors)
}

/// What the stamps of an audit are examined by: no more than the identities, where they aren't judged.
fn kept_for<B: Book>(
    alloc: Global,
    book: &mut B,
    asked: &Examination<'_>,
) -> Result<Kept, ExtractFault>
    ensures looks { OnlyLooks B.Standing book.old book.new }
    ensures value { B.honest book.new → (b : History) → Stands B.Standing b book.old
        → IfOk result (Knows asked.now b (rows_before asked.now.inquiry.from b)) }
    ensures refusals { IfErr result (λ e. (e ≡ ExtractFault.Memory) ⊎ (e ≡ ExtractFault.Store)) }
    ensures faults { CountsFaults result (B.fault_count book.old) (B.fault_count book.new) }
{
    if asked.judge {
        return Ok(kept_before(alloc, book, asked.inquiry.from)?);
    }
    let identities = book.identities()?;
    Ok(Kept {
        calibrations: Vec::new(alloc),
        holds: Vec::new(alloc),
        identities,
        past: Past::new(alloc),
    })
}

/// Examines the stamps of the range that is asked for behind the rows that are known.
fn examine_each<B: Book + Drop, E: Write>(
    alloc: Global,
    book: &mut B,
    asked: &Examination<'_>,
    kept: &mut Kept,
    errors: &mut E,
) -> Result<bool, ExtractFault>
    ensures looks { OnlyLooks B.Standing book.old book.new }
    ensures examined { B.honest book.new → (b : History) → Stands B.Standing b book.old → (before : List StampRow)
        → Knows asked.now b before kept.old
        → IfOk result (ExaminesBehind asked.now b before (E.contents errors.old) (E.contents errors.new)) }
    ensures agreed { IfOk result (λ agree. agree ≡ true → E.contents errors.new ≡ E.contents errors.old) }
    ensures failed { IfOk result (λ agree. agree ≡ false
        → TellsSome (E.contents errors.old) (E.contents errors.new)) }
    ensures told { OnErr result (TellsFailing (E.contents errors.old) (E.contents errors.new)) }
    ensures refusals { IfErr result (λ e. (e ≡ ExtractFault.Memory) ⊎ (e ≡ ExtractFault.Store)) }
    ensures faults { CountsFaults result (B.fault_count book.old) (B.fault_count book.new) }
{
    let mut agree = true;
    let mut from = asked.inquiry.from;
    while let Some(stamp) = book.next_stamp(from, asked.inquiry.to)? {
        let found = examine(book, asked, kept, &stamp)?;
        let failing = is_failing(stamp.serial, &found);
        if failing {
            agree = false;
            if !tell(alloc, stamp.serial, &found, errors)? {
                return Ok(false);
            }
        }
        from = stamp.serial + 1;
    }
    Ok(agree)
}

/// What is found of a stamp: whether its row passes, and its deposit, and how it is judged.
#[derive(Clone, Copy)]
struct Findings {
    /// Whether its octets say what its row says; true where that isn't checked.
    row: bool,
    /// Whether its deposit is intact, or isn't there; true where that isn't checked.
    deposit: bool,
    /// How it is judged, unless it isn't, or is taken as it stands.
    judged: Option<Judgement>,
}

/// What is found of the stamp that follows the rows which are known; its own is one of them from now on.
fn examine<B: Book>(
    book: &mut B,
    asked: &Examination<'_>,
    kept: &mut Kept,
    stamp: &Stamp,
) -> Result<Findings, ExtractFault>
    ensures looks { OnlyLooks B.Standing book.old book.new }
    ensures found { B.honest book.new → (b : History) → Stands B.Standing b book.old → (rows : List StampRow)
        → Knows asked.now b rows kept.old
        → IfOk result (λ found. IsFound asked.now b rows (stamp_view stamp.now) found
        × Knows asked.now b (rows ++ stamp_view stamp.now ∷ []) kept.new) }
    ensures refusals { IfErr result (λ e. (e ≡ ExtractFault.Memory) ⊎ (e ≡ ExtractFault.Store)) }
    ensures faults { CountsFaults result (B.fault_count book.old) (B.fault_count book.new) }
{
    let judged = judge_next(asked, kept, stamp)?;
    if !asked.check {
        return Ok(Findings {
            row: true,
            deposit: true,
            judged,
        });
    }
    let row = check_row(stamp, kept.identities.as_slice())?;
    let deposit = is_intact(book, stamp.serial)?;
    Ok(Findings {
        row,
        deposit,
        judged,
    })
}

/// How the stamp that follows the rows which are known is judged, where that is asked; it is one of them then.
fn judge_next(
    asked: &Examination<'_>,
    kept: &mut Kept,
    stamp: &Stamp,
) -> Result<Option<Judgement>, ExtractFault>
    ensures judged { (b : History) (rows : List StampRow) → Knows asked.now b rows kept.old
        → IfOk result (λ judged. (asked.now.judge ≡ true
        → IsJudgedBehind (evidence_in (policy_view asked.now.inquiry.policy.now) b) rows (stamp_view stamp.now) judged)
        × Knows asked.now b (rows ++ stamp_view stamp.now ∷ []) kept.new) }
    ensures unjudged { asked.now.judge ≡ false → IfOk result (λ judged. judged ≡ None) }
    ensures identities { kept.new.identities ≡ kept.old.identities }
    ensures refusals { IfErr result (λ e. e ≡ ExtractFault.Memory) }
{
    if !asked.judge {
        return Ok(None);
    }
    kept.judge_next(asked.inquiry.policy, stamp)
}

/// Whether something fails of what is found.
fn is_failing(serial: u64, found: &Findings) -> bool
    ensures some { result ≡ true → failures_of serial found.now ≢ [] }
    ensures none { result ≡ false → failures_of serial found.now ≡ [] }
{
    match found.judged {
        None | Some(Judgement::Given) => !found.row || !found.deposit,
        Some(_) => true,
    }
}

/// Whether the deposit of a number is intact, or isn't there.
fn is_intact<B: Book>(book: &mut B, number: u64) -> Result<bool, ExtractFault>
    ensures looks { OnlyLooks B.Standing book.old book.new }
    ensures value { B.honest book.new → (b : History) → Stands B.Standing b book.old
        → IfOk result (λ yes. IsTrue yes ↔ IsIntact (deposit_with_stamp number b)) }
    ensures refusals { IfErr result (λ e. (e ≡ ExtractFault.Memory) ⊎ (e ≡ ExtractFault.Store)) }
    ensures faults { CountsFaults result (B.fault_count book.old) (B.fault_count book.new) }
{
    match book.deposit(number)? {
        Some(kept) => Ok(check_deposit(&kept)),
        None => Ok(true),
    }
}

/// Writes the lines of what fails of a serial number: whether all of them is written.
fn tell<E: Write>(
    alloc: Global,
    serial: u64,
    found: &Findings,
    errors: &mut E,
) -> Result<bool, AllocError>
    ensures whole { IfOk result (λ whole. whole ≡ true → Appends (E.contents errors.old) (E.contents errors.new)
        (failing_lines (failures_of serial found.now))) }
    ensures cut { IfOk result (λ whole. whole ≡ false → IsCutOff (E.contents errors.old) (E.contents errors.new)
        (failing_lines (failures_of serial found.now))) }
    ensures untold { OnErr result (E.contents errors.new ≡ E.contents errors.old) }
{
    let lines = lines_of(alloc, serial, found)?;
    let taken = write_octets(errors, lines.as_bytes());
    Ok(taken == lines.len())
}

/// These lines.
fn lines_of(alloc: Global, serial: u64, found: &Findings) -> Result<String, AllocError>
    ensures { IfOk result (λ lines. string_bytes lines ≡ failing_lines (failures_of serial found.now)) }
{
    let row = row_line(alloc, serial, found.row)?;
    let deposit = deposit_line(alloc, serial, found.deposit)?;
    let judged = judged_line(alloc, serial, found.judged)?;
    format!(in alloc; "{row}{deposit}{judged}")
}

/// The line of a row, none where that passes.
fn row_line(alloc: Global, serial: u64, passes: bool) -> Result<String, AllocError>
    ensures { IfOk result (λ line. string_bytes line ≡ failing_lines (if passes then [] else Row serial ∷ [])) }
{
    if passes {
        return Ok(String::new(alloc));
    }
    format!(in alloc; "row {serial} fails\n")
}

/// The line of a deposit, none where that passes.
fn deposit_line(alloc: Global, number: u64, passes: bool) -> Result<String, AllocError>
    ensures { IfOk result (λ line. string_bytes line ≡ failing_lines (if passes then [] else Deposit number ∷ [])) }
{
    if passes {
        return Ok(String::new(alloc));
    }
    format!(in alloc; "deposit {number} fails\n")
}

/// The line of a judgement, none where the row is given by the rules, or taken as it stands.
fn judged_line(alloc: Global, serial: u64, judged: Option<Judgement>) -> Result<String, AllocError>
    ensures { IfOk result (λ line. string_bytes line ≡ failing_lines (judged_of serial judged)) }
{
    let Some(judgement) = told(judged) else {
        return Ok(String::new(alloc));
    };
    format!(in alloc; "row {serial} {judgement}\n")
}

/// What of a judgement is told.
fn told(judged: Option<Judgement>) -> Option<Judgement>
    ensures { (serial : ℕ) → judged_of serial judged ≡ option_to_list (option_map (Judged serial) result) }
{
    match judged {
        None | Some(Judgement::Given) => None,
        Some(judgement) => Some(judgement),
    }
}
