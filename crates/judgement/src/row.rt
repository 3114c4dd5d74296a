//! Whether a row is that of the stamp which a plan makes.
ghost use Rattle.std.specs.Prelude.{◌≡◌, ◌↔◌, ◌≤◌, IsTrue, length, map, option_map};
ghost use Rattle.der.specs.{Number.number_content, ObjectIdentifier.oid_content};
ghost use Rattle.gentime.specs.GenTime.{day_of};
ghost use Rattle.policy.specs.View.{counter_view};
ghost use Rattle.tsp.specs.{Request.Spells, View.extension_view, View.request_view, View.tst_view};
ghost use Rattle.book.specs.Values.{identity_view, stamp_view};
ghost use Rattle.audit.specs.Consistent.{IsConsistent};
ghost use Rattle.decide.specs.View.{plan_view};
ghost use Rattle.judgement.specs.auxiliary.Search.{HasColumns, IsAnswerBy};
ghost use Rattle.judgement.specs.{Given.IsStampBy, View.evidence_view};

use crate::evidence::Evidence;
use audit::check_row;
use book::{IdentityRow, Stamp};
use decide::Plan;
use der::{numbers_have_one_content, oids_have_one_content_and_text};
use policy::Counter;
use tsp::{Extension, Extensions, Integer, Request, TstInfo, read_tst, requests_have_one_reading};

/// Whether a row is that of the stamp which the plan makes of its request.
pub(crate) fn is_stamp_by(
    evidence: &Evidence<'_>,
    stamp: &Stamp,
    request: &Request<'_>,
    plan: &Plan<'_>,
) -> bool
    requires asked { Spells stamp.now.request.items (request_view request.now) }
    requires short { length stamp.now.request.items ≤ 65536 }
    ensures { IsTrue result ↔ IsStampBy (evidence_view evidence.now) (request_view request.now) (plan_view plan.now)
        (stamp_view stamp.now) }
{
    requests_have_one_reading();
    let Ok(tst) = read_tst(&stamp.tst) else {
        return false;
    };
    if !is_consistent(stamp, evidence.identities) {
        return false;
    }
    if !has_columns(stamp, plan) {
        return false;
    }
    answers(&evidence.policy.counter, request, plan, &tst)
}

/// Whether a row is consistent.
fn is_consistent(stamp: &Stamp, identities: &[IdentityRow]) -> bool
    ensures { IsTrue result ↔ IsConsistent (stamp_view stamp.now) (map identity_view identities.now) }
{
    match check_row(stamp, identities) {
        Ok(yes) => yes,
        Err(_) => unreachable!(),
    }
}

/// Whether a row has the plan's genTime, day and policy.
fn has_columns(stamp: &Stamp, plan: &Plan<'_>) -> bool
    ensures { IsTrue result ↔ HasColumns (plan_view plan.now) (stamp_view stamp.now) }
{
    stamp.gen_time == plan.gen_time.micros() as u64
        && stamp.day == plan.gen_time.day()
        && stamp.policy.as_slice() == plan.policy.content()
}

/// Whether a TSTInfo has the plan's policy, the policy file's accuracy and ordering, the request's nonce and
/// extensions, and a name where the policy file wants one.
fn answers(counter: &Counter, request: &Request<'_>, plan: &Plan<'_>, tst: &TstInfo<'_>) -> bool
    ensures { IsTrue result ↔ IsAnswerBy (counter_view counter.now) (request_view request.now) (plan_view plan.now)
        (tst_view tst.now) }
{
    oids_have_one_content_and_text();
    let same_nonce = has_nonce(request, &tst.nonce);
    let same_extensions = are_same_extensions(tst.extensions.again(), request.extensions());
    tst.policy.content() == plan.policy.content()
        && tst.accuracy == counter.accuracy_us
        && tst.ordering == counter.ordering
        && tst.tsa.is_some() == counter.tsa_name
        && same_nonce
        && same_extensions
}

/// Whether a nonce is the request's, or both are absent.
fn has_nonce(request: &Request<'_>, nonce: &Option<Integer<'_>>) -> bool
    ensures { IsTrue result ↔ (nonce.now ≡ (request_view request.now).nonce) }
{
    numbers_have_one_content();
    are_same_nonce(nonce, request.nonce())
}

/// Whether a nonce has these contents octets, or both are absent.
fn are_same_nonce(one: &Option<Integer<'_>>, other: Option<&[u8]>) -> bool
    ensures { IsTrue result ↔ (option_map number_content one.now ≡ option_map (λ o. o.now) other.entry) }
{
    match (one, other) {
        (None, None) => true,
        (Some(one), Some(other)) => one.content() == other,
        (None, Some(_)) | (Some(_), None) => false,
    }
}

/// Whether extensions are the same, in the same order.
fn are_same_extensions(one: Extensions<'_>, other: Extensions<'_>) -> bool
    ensures { IsTrue result ↔ (one.entry ≡ other.entry) }
{
    let mut others = other;
    for extension in one {
        match others.next() {
            Some(other) if is_same_extension(&extension, &other) => {}
            _ => return false,
        }
    }
    others.is_empty()
}

/// Whether two extensions are the same.
fn is_same_extension(one: &Extension<'_>, other: &Extension<'_>) -> bool
    ensures { IsTrue result ↔ (extension_view one.now ≡ extension_view other.now) }
{
    oids_have_one_content_and_text();
    let same_identifier = one.identifier.content() == other.identifier.content();
    let same_value = one.value == other.value;
    same_identifier && one.critical == other.critical && same_value
}
