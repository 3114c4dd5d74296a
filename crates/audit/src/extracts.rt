//! The stamps of a range of serial numbers, for an auditor.
ghost use Rattle.std.specs.Prelude.{◌≡◌, ◌≢◌, ◌<◌, ◌≤◌, ◌^◌, ◌-◌, ℕ, length, Err, IfOk, IfErr, IfSome, MatchResult};
ghost use Rattle.std.specs.{Io.KnownBytes.Keeps, Prelude.OnOk};
ghost use Rattle.policy.specs.View.{account_view, policy_view};
ghost use Rattle.book.specs.{History.History, History.stamps_between, Stands.Stands, Stands.OnlyLooks};
ghost use Rattle.audit.specs.Auditor.{IsAllowed, ComesWhere, IfUnasked, IsMet};
ghost use Rattle.audit.specs.auxiliary.Steps.{IsLine, IsNextLine};
ghost use Rattle.audit.specs.{Inquiries.Allows, Inquiries.ComesFor, Extract.extract_text, Failures.IsAsked};
ghost use Rattle.audit.specs.{Failures.StopsFor, Fault.count_after, Writes.Writes};

use crate::auditor::allow;
use crate::fault::ExtractFault;
use crate::line::{header, line_of};
use crate::output::Output;
use crate::writes::{Meter, write_line};
use book::{Book, StampsBetween};
use policy::{Account, Policy};
use std::alloc::Global;

/// Of which stamps an account asks for an extract.
#[derive(Clone, Copy)]
pub struct Inquiry<'a> {
    /// The policy file.
    pub policy: &'a Policy,
    /// The account that asks.
    pub account: &'a Account,
    /// The first serial number.
    pub from: u64,
    /// The last serial number.
    pub to: u64,
}

/// What became of an extract.
#[derive(Drop)]
pub struct Extracted {
    /// How many octets of it were written.
    pub octets: u64,
    /// Whether that is all of it.
    pub outcome: Result<(), ExtractFault>,
}

/// Writes the extract of the stamps with serial numbers from `from` on and up to `to`: comma-separated values, a line
/// of the columns' names and a line for each stamp, by serial number, those that never got their token too. No stamp
/// has a number above 2^63 - 1. Each line is written, by a loop over `write`, before the next stamp is taken, and no
/// line is kept.
///
/// Refused as `NotAuditor` where the account is none of the policy file's, not active or no auditor; then as `Range`
/// unless `1 <= from <= to`; nothing is written then, and the store isn't asked. Refused with `Memory`, `Store` or
/// `Write` where it is met, with `Write` too before a line that would make it longer than 2^64 - 1 octets; a beginning
/// of the extract may have been written then. The store changes nowhere.
pub fn extract<B: Book + Drop, W: Output>(
    alloc: Global,
    store: &mut B,
    policy: &Policy,
    account: &Account,
    from: u64,
    to: u64,
    out: &mut W,
) -> Result<(), ExtractFault>
    ensures looks { OnlyLooks B.Standing store.old store.new }
    ensures written { (octets : ℕ)
        × Writes B.Standing store.old store.new (W.contents out.old) (W.contents out.new) from to octets result }
    ensures refusals { MatchResult result (λ _. IsAllowed (policy_view policy.now) (account_view account.now) from to)
        (ComesWhere (policy_view policy.now) (account_view account.now) from to) }
    ensures unasked { IfErr result (IfUnasked ((store.new ≡ store.old) × (out.new ≡ out.old))) }
    ensures faults { MatchResult result (λ _. B.fault_count store.new ≡ B.fault_count store.old)
        (λ e. B.fault_count store.new ≡ count_after e (B.fault_count store.old)) }

    // `Write` comes only where a write failed, or of an extract that is so long.
    ensures stopped { B.honest store.new → (b : History) → Stands B.Standing b store.old
        → result ≡ Err ExtractFault.Write
        → StopsFor (2 ^ 64 - 1) (length (extract_text from to b)) (W.failures out.old) (W.failures out.new) }
    ensures kept { MatchResult result (λ _. W.failures out.new ≡ W.failures out.old)
        (λ e. e ≢ ExtractFault.Write → W.failures out.new ≡ W.failures out.old) }
{
    let inquiry = Inquiry {
        policy,
        account,
        from,
        to,
    };
    write_extract(alloc, store, &inquiry, u64::MAX, out).outcome
}

/// Writes the extract as `extract` does, and tells how many octets `out` took, those of a line that failed too. A line
/// that would take it beyond `limit` octets in all isn't begun, and is refused as `Write`.
pub fn write_extract<B: Book + Drop, W: Output>(
    alloc: Global,
    store: &mut B,
    inquiry: &Inquiry<'_>,
    limit: u64,
    out: &mut W,
) -> Extracted
    ensures looks { OnlyLooks B.Standing store.old store.new }
    ensures written { Writes B.Standing store.old store.new (W.contents out.old) (W.contents out.new)
        inquiry.now.from inquiry.now.to result.octets result.outcome }
    ensures within { result.octets ≤ limit }
    ensures refusals { MatchResult result.outcome (λ _. Allows inquiry.now) (ComesFor inquiry.now) }
    ensures unasked { IfErr result.outcome
        (IfUnasked ((store.new ≡ store.old) × (out.new ≡ out.old) × (result.octets ≡ 0))) }
    ensures faults { MatchResult result.outcome (λ _. B.fault_count store.new ≡ B.fault_count store.old)
        (λ e. B.fault_count store.new ≡ count_after e (B.fault_count store.old)) }

    // `Write` comes only where a write failed, or of an extract that is longer than the limit.
    ensures stopped { B.honest store.new → (b : History) → Stands B.Standing b store.old
        → result.outcome ≡ Err ExtractFault.Write
        → StopsFor limit (length (extract_text inquiry.now.from inquiry.now.to b)) (W.failures out.old)
        (W.failures out.new) }
    ensures kept { MatchResult result.outcome (λ _. W.failures out.new ≡ W.failures out.old)
        (λ e. e ≢ ExtractFault.Write → W.failures out.new ≡ W.failures out.old) }
{
    if let Err(fault) = allow(inquiry) {
        return Extracted {
            octets: 0,
            outcome: Err(fault),
        };
    }
    let mut meter = Meter { octets: 0, limit };
    let outcome = write_stamps(alloc, store, inquiry, out, &mut meter);
    Extracted {
        octets: meter.octets,
        outcome,
    }
}

/// How many octets the extract has: what `write_extract` writes of the same range as long as nobody adds to the store.
/// It goes through the stamps, and keeps none. Behind each it has `out` send what was written, so that an output whose
/// time is up ends it; nothing is written. Refused as `extract`, but with `Write` only where that fails, or where there
/// are 2^64 octets or more.
pub fn extract_length<B: Book + Drop, W: Output>(
    alloc: Global,
    store: &mut B,
    inquiry: &Inquiry<'_>,
    out: &mut W,
) -> Result<u64, ExtractFault>
    ensures looks { OnlyLooks B.Standing store.old store.new }
    ensures value { B.honest store.new → (b : History) → Stands B.Standing b store.old
        → IfOk result (λ octets. octets ≡ length (extract_text inquiry.now.from inquiry.now.to b)) }
    ensures unwritten { Keeps (W.contents out.old) (W.contents out.new) }
    ensures refusals { MatchResult result (λ _. Allows inquiry.now) (ComesFor inquiry.now) }
    ensures unasked { IfErr result (IfUnasked (store.new ≡ store.old)) }
    ensures faults { MatchResult result (λ _. B.fault_count store.new ≡ B.fault_count store.old)
        (λ e. B.fault_count store.new ≡ count_after e (B.fault_count store.old)) }
    ensures stopped { B.honest store.new → (b : History) → Stands B.Standing b store.old
        → IfErr result (λ e. e ≡ ExtractFault.Write → StopsFor (2 ^ 64 - 1)
        (length (extract_text inquiry.now.from inquiry.now.to b)) (W.failures out.old) (W.failures out.new)) }
    ensures kept { MatchResult result (λ _. W.failures out.new ≡ W.failures out.old)
        (λ e. e ≢ ExtractFault.Write → W.failures out.new ≡ W.failures out.old) }

    // Behind each stamp it is asked.
    ensures asked { B.honest store.new → (b : History) → Stands B.Standing b store.old
        → OnOk result (IsAsked (length (stamps_between inquiry.now.from inquiry.now.to b)) (W.asked out.old)
        (W.asked out.new)) }
{
    allow(inquiry)?;
    count_octets(alloc, store, inquiry.from, inquiry.to, out)
}

/// Writes the extract's lines, one after the other, and counts their octets.
fn write_stamps<B: Book + Drop, W: Output>(
    alloc: Global,
    store: &mut B,
    inquiry: &Inquiry<'_>,
    out: &mut W,
    meter: &mut Meter,
) -> Result<(), ExtractFault>
    requires { meter.old.octets ≡ 0 }
    ensures looks { OnlyLooks B.Standing store.old store.new }
    ensures written { Writes B.Standing store.old store.new (W.contents out.old) (W.contents out.new)
        inquiry.now.from inquiry.now.to meter.new.octets result }
    ensures within { meter.new.octets ≤ meter.old.limit }
    ensures refusals { IfErr result IsMet }
    ensures faults { MatchResult result (λ _. B.fault_count store.new ≡ B.fault_count store.old)
        (λ e. B.fault_count store.new ≡ count_after e (B.fault_count store.old)) }
    ensures stopped { B.honest store.new → (b : History) → Stands B.Standing b store.old
        → result ≡ Err ExtractFault.Write
        → StopsFor meter.old.limit (length (extract_text inquiry.now.from inquiry.now.to b)) (W.failures out.old)
        (W.failures out.new) }
    ensures kept { MatchResult result (λ _. W.failures out.new ≡ W.failures out.old)
        (λ e. e ≢ ExtractFault.Write → W.failures out.new ≡ W.failures out.old) }
{
    write_line(out, header(), meter)?;
    let mut walk = StampsBetween::of(store, inquiry.from, inquiry.to);
    while let Some(line) = next_line(alloc, &mut walk)? {
        write_line(out, &line, meter)?;
    }
    Ok(())
}

/// How many octets the extract's lines have.
fn count_octets<B: Book + Drop, W: Output>(
    alloc: Global,
    store: &mut B,
    from: u64,
    to: u64,
    out: &mut W,
) -> Result<u64, ExtractFault>
    ensures looks { OnlyLooks B.Standing store.old store.new }
    ensures value { B.honest store.new → (b : History) → Stands B.Standing b store.old
        → IfOk result (λ octets. octets ≡ length (extract_text from to b)) }
    ensures unwritten { Keeps (W.contents out.old) (W.contents out.new) }
    ensures refusals { IfErr result IsMet }
    ensures faults { MatchResult result (λ _. B.fault_count store.new ≡ B.fault_count store.old)
        (λ e. B.fault_count store.new ≡ count_after e (B.fault_count store.old)) }
    ensures stopped { B.honest store.new → (b : History) → Stands B.Standing b store.old
        → IfErr result (λ e. e ≡ ExtractFault.Write → StopsFor (2 ^ 64 - 1) (length (extract_text from to b))
        (W.failures out.old) (W.failures out.new)) }
    ensures kept { MatchResult result (λ _. W.failures out.new ≡ W.failures out.old)
        (λ e. e ≢ ExtractFault.Write → W.failures out.new ≡ W.failures out.old) }
    ensures asked { B.honest store.new → (b : History) → Stands B.Standing b store.old
        → OnOk result (IsAsked (length (stamps_between from to b)) (W.asked out.old) (W.asked out.new)) }
{
    let mut octets = header().len() as u64;
    let mut walk = StampsBetween::of(store, from, to);
    while let Some(line) = next_line(alloc, &mut walk)? {
        let Some(more) = octets.checked_add(line.len() as u64) else {
            return Err(ExtractFault::Write);
        };
        if !out.send() {
            return Err(ExtractFault::Write);
        }
        octets = more;
    }
    Ok(octets)
}

/// The line of the stamp with the least serial number of those that are left, or none where none is left.
fn next_line<B: Book + Drop>(
    alloc: Global,
    walk: &mut StampsBetween<'_, B>,
) -> Result<Option<Vec<u8>>, ExtractFault>
    ensures same_reference { walk.new.book.ghost_name ≡ walk.old.book.ghost_name }
    ensures looks { OnlyLooks B.Standing walk.old.book.now walk.new.book.now }
    ensures value { B.honest walk.new.book.now → (b : History) → Stands B.Standing b walk.old.book.now
        → IfOk result (IsNextLine (stamps_between walk.old.from walk.old.to b)
        (stamps_between walk.new.from walk.new.to b)) }
    ensures line { IfOk result (λ found. IfSome found IsLine) }
    ensures onwards { IfOk result (λ found. IfSome found
        (λ _. (walk.old.from ≤ walk.old.to) × (walk.old.from < walk.new.from))) }
    ensures end { walk.new.to ≡ walk.old.to }
    ensures refusals { IfErr result IsMet }
    ensures unwritten { IfErr result (λ e. e ≢ ExtractFault.Write) }
    ensures faults { MatchResult result (λ _. B.fault_count walk.new.book.now ≡ B.fault_count walk.old.book.now)
        (λ e. B.fault_count walk.new.book.now ≡ count_after e (B.fault_count walk.old.book.now)) }
{
    match walk.next()? {
        Some(stamp) => Ok(Some(line_of(alloc, &stamp)?)),
        None => Ok(None),
    }
}
