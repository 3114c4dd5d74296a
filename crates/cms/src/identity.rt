//! Whose key signs.
ghost use Rattle.std.specs.Prelude.{◌≡◌, ◌<◌, ◌≤◌, ◌↔◌, ℕ, List, [], length, Err, IfOk, IfErr, MatchResult};
ghost use Rattle.der.specs.{DataValue.value_in, DataValueView.value_view};
ghost use Rattle.sha2.specs.Sha256.{sha256};
ghost use Rattle.cms.specs.Certificate.{CertificateParts, IsCertificate, IsSubject, IsSubjectName, identity_of};
ghost use Rattle.cms.specs.{Certificate.identity_with, Grammar.joined, Place.ArePlaces};
ghost use Rattle.cms.specs.Chain.{AreAll, AreFurtherCertificates, IsFirstFault, IsSignerCertificateFault};
ghost use Rattle.cms.specs.declared.fault.CmsFault.TheVariants.{TooLarge, Memory};

use crate::chain::{MAX_CERTIFICATE, certificates_of, join_ascending};
use crate::fault::CmsFault;
use crate::place::{Place, Places, places_in};
use der::{DataValue, encodings_are_read, read_value};
use sha2::{Digest, Sha256};
use std::alloc::{AllocError, Global};
use std::marker::Model;

/// Who signs: a certificate, where its issuer, its serial number and its subject stand in it, its SHA-256, and the
/// certificates that go with it.
#[derive(Drop)]
pub struct Identity {
    certificate: Vec<u8>,
    chain: Vec<u8>,
    certificates: Vec<u8>,
    issuer: Place,
    serial: Place,
    subject: Place,
    digest: [u8; 32],
}

impl Model for Identity {
    ghost use Rattle.std.specs.Prelude.{◌≡◌, ◌≤◌, length, slice_range};
    ghost use Rattle.cms.specs.{Chain.AreAll, Place.IsSubjectPlace, Identity.IdentityValue};
    ghost use Rattle.sha2.specs.Sha256.{sha256};

    ghost Value = { IdentityValue };

    ghost view = { λ i. record {
      certificate = i.certificate.items;
      chain = i.chain.items;
      certificates = i.certificates.items;
      issuer = slice_range i.certificate.items i.issuer.start i.issuer.end;
      serial = slice_range i.certificate.items i.serial.start i.serial.end;
      subject = slice_range i.certificate.items i.subject.start i.subject.end;
    } };

    ghost invariant = { λ i. (i.issuer.start ≤ i.issuer.end) × (i.issuer.end ≤ length i.certificate.items)
        × (i.serial.start ≤ i.serial.end) × (i.serial.end ≤ length i.certificate.items)
        × (i.digest ≡ sha256 i.certificate.items) × IsSubjectPlace i.certificate.items i.subject
        × AreAll i.certificate.items i.chain.items i.certificates.items };
}

/// Where the parts of a signer's certificate stand.
fn signer_places(certificate: &[u8]) -> Result<Places, CmsFault>
    ensures found { IfOk result (λ found. (p : CertificateParts)
        × (IsCertificate certificate.now p × (length certificate.now ≤ 16384)
        × ArePlaces certificate.now p found.issuer found.serial found.subject)) }
    ensures only { (p : CertificateParts) → IsCertificate certificate.now p → length certificate.now ≤ 16384
        → MatchResult result (λ found. ArePlaces certificate.now p found.issuer found.serial found.subject)
        (λ fault. ⊥) }
    ensures err { IfErr result (IsSignerCertificateFault certificate.now) }
{
    if certificate.len() > MAX_CERTIFICATE {
        return Err(CmsFault::TooLarge);
    }
    places_in(certificate).ok_or(CmsFault::NotCertificate)
}

/// Octets in memory of their own.
fn copy_of(alloc: Global, octets: &[u8]) -> Result<Vec<u8>, AllocError>
    ensures { IfOk result (λ copy. copy.items ≡ octets.now) }
{
    let mut copy = Vec::new(alloc);
    copy.extend_from_slice(octets)?;
    Ok(copy)
}

impl Identity {
    /// The identity that a certificate stands for: its octets are a lawful value, a SEQUENCE of a TBSCertificate and
    /// any further members (RFC 5280 4.1). The TBSCertificate has a version under [0], where it stands, a serial number
    /// in the shortest form, four SEQUENCEs (signature, issuer, validity, subject), and any further members. The
    /// subject has at most 29 levels. Nothing else of it is looked at.
    ///
    /// Refused as `TooLarge` for more than 16,384 octets, which is judged first, as `NotCertificate` where the octets
    /// are no such certificate, and as `Memory` where memory runs out for one that they are.
    pub fn from_certificate(alloc: Global, octets: &[u8]) -> Result<Identity, CmsFault>
        ensures found { IfOk result (λ identity. (p : CertificateParts)
            × (IsCertificate octets.now p × (identity ≡ identity_of octets.now p))) }
        ensures only { (p : CertificateParts) → IsCertificate octets.now p → length octets.now ≤ 16384
            → MatchResult result (λ identity. identity ≡ identity_of octets.now p) (λ fault. fault ≡ Memory) }
        ensures too_large { (result ≡ Err TooLarge) ↔ (16384 < length octets.now) }
        ensures memory { result ≡ Err Memory → (p : CertificateParts) × IsCertificate octets.now p }
        ensures refusals { IfErr result (IsFirstFault octets.now []) }
    {
        Identity::from_parts(alloc, octets, &[])
    }

    /// The identity of a signer's certificate and of its chain: up to three further certificates, one after the other
    /// (none where it is empty). Each is one as `from_certificate` takes it; no path is checked (RFC 5652 5.1).
    ///
    /// Refused with the first of these: `TooLarge` and `NotCertificate` of the signer's certificate; then along the
    /// chain, for each of its entries, `TooMany` where three stand before it, `TooLarge`, `NotCertificate`, also where
    /// it can't be told where the entry ends, and `Repeated` where it is the signer's certificate or stands before it.
    /// `Memory` where memory runs out, which is met behind the signer's certificate.
    pub fn from_parts(alloc: Global, certificate: &[u8], chain: &[u8]) -> Result<Identity, CmsFault>
        ensures found { IfOk result (λ identity. (p : CertificateParts) × (further : List (List ℕ))
            × IsCertificate certificate.now p × (length certificate.now ≤ 16384)
            × AreFurtherCertificates certificate.now further × (chain.now ≡ joined further)
            × (identity ≡ identity_with certificate.now further p)) }
        ensures only { (p : CertificateParts) (further : List (List ℕ)) → IsCertificate certificate.now p
            → length certificate.now ≤ 16384 → AreFurtherCertificates certificate.now further
            → chain.now ≡ joined further
            → MatchResult result (λ identity. identity ≡ identity_with certificate.now further p)
            (λ fault. fault ≡ Memory) }
        ensures refusals { IfErr result (IsFirstFault certificate.now chain.now) }
    {
        let Places {
            issuer,
            serial,
            subject,
        } = signer_places(certificate)?;
        let certificates = certificates_of(alloc, certificate, chain)?;
        Ok(Identity {
            certificate: copy_of(alloc, certificate)?,
            chain: copy_of(alloc, chain)?,
            certificates: join_ascending(alloc, &certificates)?,
            issuer,
            serial,
            subject,
            digest: Sha256::digest(certificate),
        })
    }

    /// The signer's certificate, its octets. Takes no memory.
    pub fn certificate(&self) -> &[u8]
        ensures { result.now ≡ self.now.certificate }
    {
        &self.certificate
    }

    /// The chain, its octets as they were handed in: the further certificates, one after the other. Takes no memory.
    pub fn chain(&self) -> &[u8]
        ensures { result.now ≡ self.now.chain }
    {
        &self.chain
    }

    /// The encoding of the certificate's subject (RFC 5280 4.1.2.6). Takes no memory.
    pub fn subject(&self) -> &[u8]
        ensures { result.now ≡ self.now.subject }
    {
        &self.certificate[self.subject.start..self.subject.end]
    }

    /// The certificate's subject as a value: a SEQUENCE of at most 29 levels (RFC 5280 4.1.2.6). Takes no memory.
    pub fn name(&self) -> DataValue<'_>
        ensures value { value_view result ≡ value_in self.now.subject }
        ensures of_certificate { IsSubject self.now.certificate (value_view result) }
        ensures fitting { IsSubjectName (value_view result) }
    {
        encodings_are_read();
        let octets = &self.certificate[self.subject.start..self.subject.end];
        match read_value(octets) {
            Ok(name) => name,
            Err(_) => unreachable!(),
        }
    }

    /// All certificates, the signer's and those of the chain, one after the other in ascending order: the elements of a
    /// SET OF (RFC 5652 5.1, X.690 11.6). It is what a token that carries certificates has of them. Takes no memory.
    pub fn certificates(&self) -> &[u8]
        ensures value { result.now ≡ self.now.certificates }
        ensures all { AreAll self.now.certificate self.now.chain result.now }
    {
        &self.certificates
    }

    /// The encoding of the certificate's issuer (RFC 5280 4.1.2.4).
    pub(crate) fn issuer(&self) -> &[u8]
        ensures { result.now ≡ self.now.issuer }
    {
        &self.certificate[self.issuer.start..self.issuer.end]
    }

    /// The encoding of the certificate's serial number (RFC 5280 4.1.2.2).
    pub(crate) fn serial(&self) -> &[u8]
        ensures { result.now ≡ self.now.serial }
    {
        &self.certificate[self.serial.start..self.serial.end]
    }

    /// The certificate's SHA-256.
    pub(crate) fn digest(&self) -> [u8; 32]
        ensures { result ≡ sha256 self.now.certificate }
    {
        self.digest
    }
}
