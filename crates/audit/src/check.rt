//! Whether a stamp's octets say what its row says.
ghost use Rattle.std.specs.Prelude.{◌≡◌, ◌↔◌, IsTrue, MatchResult, Some, option_map, map};
ghost use Rattle.der.specs.{DataValueView.value_view, ObjectIdentifier.oid_content};
ghost use Rattle.book.specs.{Identities.identity_before, Values.identity_view, Values.stamp_view, Values.stamped_view};
ghost use Rattle.cms.specs.Certificate.{IsSubject};
ghost use Rattle.tsp.specs.View.{imprint_view, request_view, tst_view};
ghost use Rattle.audit.specs.{Consistent.Agree, Consistent.IsConsistent, Consistent.IsOwnName, Intact.IsIntact};

use crate::fault::ExtractFault;
use book::{IdentityRow, Stamp, StampedDeposit};
use cms::subject_of;
use der::{DataValue, encodings_are_read, oids_have_one_content_and_text};
use sha2::{Digest, Sha256};
use tsp::{MessageImprint, Request, TstInfo, read_request, read_tst};

/// Whether a stamp's octets say what its row says: the TSTInfo is one, and carries the row's serial number, genTime and
/// policy (RFC 3161 2.4.2); its imprint is that of the stored request, which is one of at most 65,536 octets and has
/// the row's algorithm and digest (RFC 3161 2.4.1). A name of the authority, where the TSTInfo has one, is the subject
/// of the certificate of the serial number's identity (RFC 3161 2.4.2), which is the last one of `identities`, given by
/// number, that was installed before. The token isn't looked at.
///
/// Takes no memory and is never refused; the type leaves room for `Memory`.
pub fn check_row(stamp: &Stamp, identities: &[IdentityRow]) -> Result<bool, ExtractFault>
    ensures { MatchResult result (λ yes. IsTrue yes
        ↔ IsConsistent (stamp_view stamp.now) (map identity_view identities.now)) (λ _. ⊥) }
{
    let Ok(tst) = read_tst(&stamp.tst) else {
        return Ok(false);
    };
    let Ok(request) = read_request(&stamp.request) else {
        return Ok(false);
    };
    let identity = identity_at(identities, stamp.serial);
    Ok(agree(stamp, identity, &tst, &request))
}

/// Whether a deposit's octets are those that were stamped: their SHA-256 is the digest of its stamp. Takes no memory.
pub fn check_deposit(kept: &StampedDeposit) -> bool
    ensures { IsTrue result ↔ IsIntact (Some (stamped_view kept.now)) }
{
    Sha256::digest(&kept.deposit.bytes).as_slice() == kept.stamp.digest.as_slice()
}

/// The identity that was in force when a serial number was reserved; none before the first.
pub fn identity_at(identities: &[IdentityRow], serial: u64) -> Option<&IdentityRow>
    ensures { option_map (λ i. identity_view i.now) result
        ≡ identity_before serial (map identity_view identities.now) }
{
    identities
        .iter()
        .rev()
        .find(|identity| identity.after_serial < serial)
}

/// Whether a TSTInfo and a request agree with the row and with each other.
fn agree(
    stamp: &Stamp,
    identity: Option<&IdentityRow>,
    tst: &TstInfo<'_>,
    request: &Request<'_>,
) -> bool
    ensures { IsTrue result ↔ Agree (stamp_view stamp.now) (option_map (λ i. identity_view i.now) identity.entry)
        (tst_view tst.now) (request_view request.now) }
{
    let says = says_row(stamp, tst);
    let named = has_own_name(identity, &tst.tsa);
    let asks = asks_row(stamp, request);
    let same = has_imprint(&tst.imprint, request);
    says && named && asks && same
}

/// Whether a name, where there is one, is the subject of the identity's certificate (RFC 5280 4.1.2.6).
fn has_own_name(identity: Option<&IdentityRow>, tsa: &Option<DataValue<'_>>) -> bool
    ensures { IsTrue result ↔ IsOwnName (option_map (λ i. identity_view i.now) identity.entry)
        (option_map value_view tsa.now) }
{
    let Some(name) = tsa else {
        return true;
    };
    let Some(identity) = identity else {
        return false;
    };
    is_subject(&identity.certificate, name)
}

/// Whether a value is the subject of the certificate that octets are.
fn is_subject(certificate: &[u8], name: &DataValue<'_>) -> bool
    ensures { IsTrue result ↔ IsSubject certificate.now (value_view name.now) }
{
    encodings_are_read();
    match subject_of(certificate) {
        Some(subject) => subject.octets() == name.octets(),
        None => false,
    }
}

/// Whether a TSTInfo says what the row says.
fn says_row(stamp: &Stamp, tst: &TstInfo<'_>) -> bool
    ensures { IsTrue result ↔ (((tst_view tst.now).serial ≡ stamp.now.serial)
        × ((tst_view tst.now).gen_time ≡ stamp.now.gen_time)
        × (oid_content (tst_view tst.now).policy ≡ stamp.now.policy.items)) }
{
    tst.serial == stamp.serial
        && tst.gen_time.micros() as u64 == stamp.gen_time
        && tst.policy.content() == stamp.policy.as_slice()
}

/// Whether a request asks for what the row says.
fn asks_row(stamp: &Stamp, request: &Request<'_>) -> bool
    ensures { IsTrue result ↔ ((oid_content (request_view request.now).imprint.algorithm ≡ stamp.now.algorithm.items)
        × ((request_view request.now).imprint.hash ≡ stamp.now.digest.items)) }
{
    request.algorithm() == stamp.algorithm.as_slice() && request.hash() == stamp.digest.as_slice()
}

/// Whether an imprint is the request's: the same algorithm, parameters and hash.
fn has_imprint(imprint: &MessageImprint<'_>, request: &Request<'_>) -> bool
    ensures { IsTrue result ↔ (imprint_view imprint.now ≡ (request_view request.now).imprint) }
{
    oids_have_one_content_and_text();
    encodings_are_read();
    let parameters = match &imprint.parameters {
        None => None,
        Some(parameters) => Some(parameters.octets()),
    };
    imprint.algorithm.content() == request.algorithm()
        && are_same_octets(parameters, request.parameters())
        && imprint.hash == request.hash()
}

/// Whether octets are the same, or both absent.
fn are_same_octets(one: Option<&[u8]>, other: Option<&[u8]>) -> bool
    ensures { IsTrue result ↔ (option_map (λ o. o.now) one.entry ≡ option_map (λ o. o.now) other.entry) }
{
    match (one, other) {
        (None, None) => true,
        (Some(one), Some(other)) => one == other,
        (None, Some(_)) | (Some(_), None) => false,
    }
}
