//! Where issuer, serial number and subject stand in a certificate.
ghost use Rattle.std.specs.Prelude.{◌≡◌, MatchOption, Some, IfSome, option_map, ◌↔◌, IsTrue, nat_le};
ghost use Rattle.der.specs.{DataValueView.value_view, DataValueView.values_view, Node.Node, Node.levels};
ghost use Rattle.cms.specs.Certificate.{CertificateParts, IsCertificate, IsSubject, IsAlgorithm};
ghost use Rattle.cms.specs.auxiliary.Outline.{sequence_at, subject_at, serial_at, after_version, outline_of, outline};
ghost use Rattle.cms.specs.auxiliary.Outline.{◌>>=◌ as ◌⟫◌, is_optional, algorithm_of};
ghost use Rattle.cms.specs.auxiliary.OutlineView.{outline_view};

use crate::tags::UNDER_ZERO;
use der::{
    DataValue, DataValues, Tag, check_values, encodings_are_read, is_number_content,
    is_oid_content, oids_have_one_content_and_text, read_value,
};

/// The most levels of a subject: three stand above it in a TSTInfo, which has 32 at most.
const MAX_SUBJECT_LEVELS: u8 = 29;

/// The serial number, the issuer and the subject of a certificate, what follows each of them in its TBSCertificate, and
/// what follows that.
#[derive(Clone, Copy)]
pub(crate) struct Outline<'a> {
    pub serial: DataValue<'a>,
    pub after_serial: DataValues<'a>,
    pub issuer: DataValue<'a>,
    pub after_issuer: DataValues<'a>,
    pub subject: DataValue<'a>,
    pub after_subject: DataValues<'a>,
    pub after: DataValues<'a>,
}

/// Takes a SEQUENCE off.
#[tactic(auto, unfolding(crate::specs::auxiliary::Outline::sequence_at))]
fn sequence<'a>(members: &mut DataValues<'a>) -> Option<DataValue<'a>>
    ensures { option_map (λ value. (value_view value, values_view members.new)) result
        ≡ sequence_at (values_view members.old) }
{
    let first = members.next()?;
    first.components_under(Tag::SEQUENCE)?;
    Some(first)
}

/// Whether a value has at most 29 levels.
#[tactic(auto, using(crate::proofs::Outlines::shallow_told))]
fn is_shallow(value: &DataValue<'_>) -> bool
    ensures { result ≡ nat_le (levels (value_view value.now)) 29 }
{
    encodings_are_read();
    check_values(MAX_SUBJECT_LEVELS, value.octets()).is_ok()
}

/// Takes a subject off, a SEQUENCE of at most 29 levels.
#[tactic(auto, unfolding(crate::specs::auxiliary::Outline::subject_at))]
fn subject<'a>(members: &mut DataValues<'a>) -> Option<DataValue<'a>>
    ensures { option_map (λ value. (value_view value, values_view members.new)) result
        ≡ subject_at (values_view members.old) }
{
    let first = sequence(members)?;
    if is_shallow(&first) {
        Some(first)
    } else {
        None
    }
}

/// Takes a serial number off, an INTEGER in the shortest form.
#[tactic(auto, unfolding(crate::specs::auxiliary::Outline::serial_at))]
fn serial<'a>(members: &mut DataValues<'a>) -> Option<DataValue<'a>>
    ensures { option_map (λ value. (value_view value, values_view members.new)) result
        ≡ serial_at (values_view members.old) }
{
    let first = members.next()?;
    if is_number_content(first.contents_under(Tag::INTEGER)?) {
        Some(first)
    } else {
        None
    }
}

/// Takes the version off, where it stands.
#[tactic(auto, unfolding(crate::specs::auxiliary::Outline::after_version))]
fn skip_version(members: &mut DataValues<'_>)
    ensures { values_view members.new ≡ after_version (values_view members.old) }
{
    let _version = members.next_under(UNDER_ZERO);
}

/// The outline from the members of a TBSCertificate behind its version, and from what follows it.
fn outline_after<'a>(mut members: DataValues<'a>, after: DataValues<'a>) -> Option<Outline<'a>>
    ensures { option_map outline_view result ≡ serial_at (values_view members.entry)
        ⟫ λ serial. sequence_at serial.1 ⟫ λ signature. sequence_at signature.1
        ⟫ λ issuer. sequence_at issuer.1 ⟫ λ validity. subject_at validity.1
        ⟫ λ subject. Some (record {
          serial = serial.0;
          after_serial = serial.1;
          issuer = issuer.0;
          after_issuer = issuer.1;
          subject = subject.0;
          after_subject = subject.1;
          after = values_view after.entry;
        }) }
{
    let Some(serial) = serial(&mut members) else {
        return None;
    };
    let after_serial = members;
    let Some(_signature) = sequence(&mut members) else {
        return None;
    };
    let Some(issuer) = sequence(&mut members) else {
        return None;
    };
    let after_issuer = members;
    let _validity = sequence(&mut members)?;
    let Some(subject) = subject(&mut members) else {
        return None;
    };
    Some(Outline {
        serial,
        after_serial,
        issuer,
        after_issuer,
        subject,
        after_subject: members,
        after,
    })
}

/// The outline of a certificate (RFC 5280 4.1); none where the value isn't of its grammar.
#[tactic(auto, unfolding(crate::specs::auxiliary::Outline::outline_of))]
fn outline_from(certificate: DataValue<'_>) -> Option<Outline<'_>>
    ensures { option_map outline_view result ≡ outline_of (value_view certificate.entry) }
{
    let mut after = certificate.components_under(Tag::SEQUENCE)?;
    let tbs_certificate = after.next()?;
    let mut members = tbs_certificate.components_under(Tag::SEQUENCE)?;
    skip_version(&mut members);
    outline_after(members, after)
}

/// The outline of the certificate that octets are; none where they are none.
pub(crate) fn outline_in(octets: &[u8]) -> Option<Outline<'_>>
    ensures found { IfSome result (λ found. (p : CertificateParts)
        × (IsCertificate octets.now p × (outline_view found ≡ outline p))) }
    ensures only { (p : CertificateParts) → IsCertificate octets.now p
        → MatchOption result ⊥ (λ found. outline_view found ≡ outline p) }
{
    match read_value(octets) {
        Ok(value) => outline_from(value),
        Err(_) => None,
    }
}

/// The subject of the certificate that octets are (RFC 5280 4.1.2.6), of any length; none where they are no
/// certificate. Takes no memory.
pub fn subject_of(certificate: &[u8]) -> Option<DataValue<'_>>
    ensures found { IfSome result (λ name. IsSubject certificate.now (value_view name)) }
    ensures only { (name : Node) → IsSubject certificate.now name
        → MatchOption result ⊥ (λ found. value_view found ≡ name) }
{
    let outline = outline_in(certificate)?;
    Some(outline.subject)
}

/// Whether one value at most is left.
#[tactic(auto, unfolding(crate::specs::auxiliary::Outline::is_optional))]
fn is_last(mut members: DataValues<'_>) -> bool
    ensures { result ≡ is_optional (values_view members.entry) }
{
    let _value = members.next();
    members.is_empty()
}

/// Whether a value is an AlgorithmIdentifier (RFC 5280 4.1.1.2): an object identifier, and one value more at most.
#[tactic(auto, unfolding(crate::specs::auxiliary::Outline::algorithm_of))]
fn algorithm_from(value: DataValue<'_>) -> Option<()>
    ensures { result ≡ algorithm_of (value_view value.entry) }
{
    let mut members = value.components_under(Tag::SEQUENCE)?;
    let first = members.next()?;
    if is_oid_content(first.contents_under(Tag::OBJECT_IDENTIFIER)?) && is_last(members) {
        Some(())
    } else {
        None
    }
}

/// Whether octets are an AlgorithmIdentifier.
pub(crate) fn is_algorithm(octets: &[u8]) -> bool
    ensures { IsTrue result ↔ IsAlgorithm octets.now }
{
    oids_have_one_content_and_text();
    match read_value(octets) {
        Ok(value) => algorithm_from(value).is_some(),
        Err(_) => false,
    }
}
