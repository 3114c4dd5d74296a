//! Where parts stand in a certificate's octets.
ghost use Rattle.std.specs.Prelude.{◌≡◌, ◌+◌, ◌≤◌, length, MatchOption, IfSome};
ghost use Rattle.cms.specs.{Certificate.CertificateParts, Certificate.IsCertificate, Place.ArePlaces};

use crate::outline::outline_in;
use der::{DataValue, DataValues, encodings_are_read};

/// Where octets stand in others: from `start` on, and before `end`.
#[derive(Clone, Copy)]
pub(crate) struct Place {
    pub start: usize,
    pub end: usize,
}

/// Where a certificate's issuer, serial number and subject stand in its octets.
#[derive(Clone, Copy)]
pub(crate) struct Places {
    pub issuer: Place,
    pub serial: Place,
    pub subject: Place,
}

/// The place of a value in so many octets, with values after it that end them.
fn place_of(
    total: usize,
    value: &DataValue<'_>,
    later: &DataValues<'_>,
    last: &DataValues<'_>,
) -> Place
    requires { length value.now.element.whole.now + length later.now.rest.now + length last.now.rest.now ≤ total }
    ensures start { result.start + length value.now.element.whole.now ≡ result.end }
    ensures end { result.end + length later.now.rest.now + length last.now.rest.now ≡ total }
{
    let end = total - later.rest.len() - last.rest.len();
    Place {
        start: end - value.element.whole.len(),
        end,
    }
}

/// The places in the certificate that octets are; none where they are none.
pub(crate) fn places_in(octets: &[u8]) -> Option<Places>
    ensures found { IfSome result (λ found. (p : CertificateParts)
        × (IsCertificate octets.now p × ArePlaces octets.now p found.issuer found.serial found.subject)) }
    ensures only { (p : CertificateParts) → IsCertificate octets.now p
        → MatchOption result ⊥ (λ found. ArePlaces octets.now p found.issuer found.serial found.subject) }
{
    let outline = outline_in(octets)?;
    encodings_are_read();
    Some(Places {
        issuer: place_of(
            octets.len(),
            &outline.issuer,
            &outline.after_issuer,
            &outline.after,
        ),
        serial: place_of(
            octets.len(),
            &outline.serial,
            &outline.after_serial,
            &outline.after,
        ),
        subject: place_of(
            octets.len(),
            &outline.subject,
            &outline.after_subject,
            &outline.after,
        ),
    })
}
