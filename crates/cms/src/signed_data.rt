//! The texts that are signed and handed out, one function for each of their types.
ghost use Rattle.std.specs.Prelude.{◌≡◌, ◌≤◌, ◌++◌, [], length, IfOk, IfErr, OnOk};
ghost use Rattle.der.specs.Node.{element};
ghost use Rattle.cms.specs.{Grammar.joined, SignedData.token as text_of_token};
ghost use Rattle.cms.specs.SignedData.{sha256_identifier, signing_certificate_v2, signed_attributes};
ghost use Rattle.cms.specs.SignedData.{issuer_and_serial_number, encapsulated_content_info};
ghost use Rattle.cms.specs.SignedData.{attribute_text as text_of_attributes, signer_info as info_of_signer};
ghost use Rattle.cms.specs.SignedData.{content_info as info_of_content, signed_data as data_signed, certificates};
ghost use Rattle.cms.specs.declared.fault.CmsFault.TheVariants.{Memory};

use crate::algorithm::Algorithm;
use crate::fault::CmsFault;
use crate::identity::Identity;
use crate::tags::UNDER_ZERO;
use der::{Tag, append_element, element_of};
use sha2::{Digest, Sha256};
use std::alloc::{AllocError, Global};

/// The contents octets of object identifiers.
const ID_SIGNED_DATA: [u8; 9] = *b"\x2a\x86\x48\x86\xf7\x0d\x01\x07\x02";

const ID_CT_TST_INFO: [u8; 11] = *b"\x2a\x86\x48\x86\xf7\x0d\x01\x09\x10\x01\x04";

const ID_CONTENT_TYPE: [u8; 9] = *b"\x2a\x86\x48\x86\xf7\x0d\x01\x09\x03";

const ID_MESSAGE_DIGEST: [u8; 9] = *b"\x2a\x86\x48\x86\xf7\x0d\x01\x09\x04";

const ID_SIGNING_CERTIFICATE_V2: [u8; 11] = *b"\x2a\x86\x48\x86\xf7\x0d\x01\x09\x10\x02\x2f";

const ID_SHA256: [u8; 9] = *b"\x60\x86\x48\x01\x65\x03\x04\x02\x01";

/// Attribute (RFC 5652 5.3): of the type with these contents octets, with one value.
fn append_attribute(
    alloc: Global,
    octets: &mut Vec<u8>,
    kind: &[u8],
    value: &[u8],
) -> Result<(), AllocError>
    ensures { OnOk result (octets.new.items
        ≡ octets.old.items ++ element 0x30 (([] ++ element 0x06 kind.now) ++ element 0x31 value.now)) }
{
    let mut members = Vec::new(alloc);
    append_element(&mut members, Tag::OBJECT_IDENTIFIER, kind)?;
    append_element(&mut members, Tag::SET, value)?;
    append_element(octets, Tag::SEQUENCE, &members)
}

/// The digest as SigningCertificateV2 (RFC 5035 3).
#[tactic(auto, using(crate::proofs::Texts::text_laws, crate::proofs::Texts::signing_certificate_v2_text))]
fn signing_certificate(alloc: Global, identity: &Identity) -> Result<Vec<u8>, AllocError>
    ensures { IfOk result (λ octets. octets.items ≡ signing_certificate_v2 identity.now.certificate) }
{
    let digest = element_of(alloc, Tag::OCTET_STRING, &identity.digest())?;
    let identifier = element_of(alloc, Tag::SEQUENCE, &digest)?;
    let identifiers = element_of(alloc, Tag::SEQUENCE, &identifier)?;
    element_of(alloc, Tag::SEQUENCE, &identifiers)
}

/// SignedAttributes (RFC 5652 5.3), one after the other.
#[tactic(auto, using(crate::proofs::Members::grown_three, crate::proofs::Texts::attributes_text))]
fn attributes(alloc: Global, identity: &Identity, tst: &[u8]) -> Result<Vec<u8>, AllocError>
    ensures { IfOk result (λ octets. octets.items ≡ joined (signed_attributes identity.now tst.now)) }
{
    let content_type = element_of(alloc, Tag::OBJECT_IDENTIFIER, &ID_CT_TST_INFO)?;
    let digest = element_of(alloc, Tag::OCTET_STRING, &Sha256::digest(tst))?;
    let certificate = signing_certificate(alloc, identity)?;
    let mut attributes = Vec::new(alloc);
    append_attribute(alloc, &mut attributes, &ID_CONTENT_TYPE, &content_type)?;
    append_attribute(alloc, &mut attributes, &ID_MESSAGE_DIGEST, &digest)?;
    append_attribute(
        alloc,
        &mut attributes,
        &ID_SIGNING_CERTIFICATE_V2,
        &certificate,
    )?;
    Ok(attributes)
}

/// SHA-256 as DigestAlgorithmIdentifier (RFC 5652 10.1.1).
#[tactic(auto, using(crate::proofs::Texts::text_laws, crate::proofs::Texts::digest_algorithm_text))]
fn digest_algorithm(alloc: Global) -> Result<Vec<u8>, AllocError>
    ensures { IfOk result (λ octets. octets.items ≡ sha256_identifier) }
{
    let identifier = element_of(alloc, Tag::OBJECT_IDENTIFIER, &ID_SHA256)?;
    element_of(alloc, Tag::SEQUENCE, &identifier)
}

/// IssuerAndSerialNumber (RFC 5652 10.2.4).
#[tactic(auto, using(crate::proofs::Texts::text_laws, crate::proofs::Members::grown_two, crate::proofs::Texts::issuer_and_serial_text))]
fn issuer_and_serial(alloc: Global, identity: &Identity) -> Result<Vec<u8>, AllocError>
    ensures { IfOk result (λ octets. octets.items ≡ issuer_and_serial_number identity.now) }
{
    let mut members = Vec::new(alloc);
    members.extend_from_slice(identity.issuer())?;
    members.extend_from_slice(identity.serial())?;
    element_of(alloc, Tag::SEQUENCE, &members)
}

/// SignerInfo (RFC 5652 5.3).
#[tactic(auto, using(crate::proofs::Texts::text_laws, crate::proofs::Members::grown_six, crate::proofs::Texts::signer_info_text))]
fn signer_info(
    alloc: Global,
    identity: &Identity,
    algorithm: &Algorithm,
    tst: &[u8],
    signature: &[u8],
) -> Result<Vec<u8>, AllocError>
    ensures { IfOk result (λ octets. octets.items ≡ info_of_signer identity.now algorithm.now tst.now signature.now) }
{
    let issuer_and_serial = issuer_and_serial(alloc, identity)?;
    let digest_algorithm = digest_algorithm(alloc)?;
    let attributes = attributes(alloc, identity, tst)?;
    let mut members = Vec::new(alloc);
    append_element(&mut members, Tag::INTEGER, &[1])?;
    members.extend_from_slice(&issuer_and_serial)?;
    members.extend_from_slice(&digest_algorithm)?;
    append_element(&mut members, UNDER_ZERO, &attributes)?;
    members.extend_from_slice(algorithm.as_slice())?;
    append_element(&mut members, Tag::OCTET_STRING, signature)?;
    element_of(alloc, Tag::SEQUENCE, &members)
}

/// EncapsulatedContentInfo (RFC 5652 5.2).
#[tactic(auto, using(crate::proofs::Texts::text_laws, crate::proofs::Members::grown_two, crate::proofs::Texts::encapsulated_text))]
fn encapsulated(alloc: Global, tst: &[u8]) -> Result<Vec<u8>, AllocError>
    ensures { IfOk result (λ octets. octets.items ≡ encapsulated_content_info tst.now) }
{
    let content = element_of(alloc, Tag::OCTET_STRING, tst)?;
    let mut members = Vec::new(alloc);
    append_element(&mut members, Tag::OBJECT_IDENTIFIER, &ID_CT_TST_INFO)?;
    append_element(&mut members, UNDER_ZERO, &content)?;
    element_of(alloc, Tag::SEQUENCE, &members)
}

/// ContentInfo over signed data (RFC 5652 3).
#[tactic(auto, using(crate::proofs::Texts::text_laws, crate::proofs::Members::grown_two, crate::proofs::Texts::content_info_text))]
fn content_info(alloc: Global, content: &[u8]) -> Result<Vec<u8>, AllocError>
    ensures { IfOk result (λ octets. octets.items ≡ info_of_content content.now) }
{
    let mut members = Vec::new(alloc);
    append_element(&mut members, Tag::OBJECT_IDENTIFIER, &ID_SIGNED_DATA)?;
    append_element(&mut members, UNDER_ZERO, content)?;
    element_of(alloc, Tag::SEQUENCE, &members)
}

/// Appends the certificates of SignedData (RFC 5652 5.1): nothing where none is asked for.
#[tactic(auto, using(crate::proofs::Texts::certificates_text, crate::proofs::Texts::no_certificates_text, crate::proofs::Texts::text_laws))]
fn append_certificates(
    octets: &mut Vec<u8>,
    identity: &Identity,
    with_certificate: bool,
) -> Result<(), AllocError>
    ensures { OnOk result (octets.new.items ≡ octets.old.items ++ joined (certificates with_certificate identity.now)) }
{
    if with_certificate {
        append_element(octets, UNDER_ZERO, identity.certificates())?;
    }
    Ok(())
}

/// SignedData (RFC 5652 5.1).
#[tactic(auto, using(crate::proofs::Texts::text_laws, crate::proofs::Members::grown_five, crate::proofs::Texts::signed_data_text))]
fn signed_data(
    alloc: Global,
    identity: &Identity,
    algorithm: &Algorithm,
    tst: &[u8],
    signature: &[u8],
    with_certificate: bool,
) -> Result<Vec<u8>, AllocError>
    ensures { IfOk result (λ octets. octets.items
        ≡ data_signed identity.now algorithm.now tst.now signature.now with_certificate) }
{
    let algorithms = digest_algorithm(alloc)?;
    let content = encapsulated(alloc, tst)?;
    let signer = signer_info(alloc, identity, algorithm, tst, signature)?;
    let mut members = Vec::new(alloc);
    append_element(&mut members, Tag::INTEGER, &[3])?;
    append_element(&mut members, Tag::SET, &algorithms)?;
    members.extend_from_slice(&content)?;
    append_certificates(&mut members, identity, with_certificate)?;
    append_element(&mut members, Tag::SET, &signer)?;
    element_of(alloc, Tag::SEQUENCE, &members)
}

/// What is signed: the signed attributes of a TSTInfo's token, under the tag of a SET (RFC 5652 5.4, RFC 3161 2.4.2,
/// RFC 5816). `tst` is the TSTInfo's encoding. Refused only for want of memory, as `Memory`.
#[tactic(auto, using(crate::proofs::Texts::attribute_text_text))]
pub fn attribute_text(alloc: Global, identity: &Identity, tst: &[u8]) -> Result<Vec<u8>, CmsFault>
    ensures text { IfOk result (λ octets. octets.items ≡ text_of_attributes identity.now tst.now) }
    ensures memory { IfErr result (λ fault. fault ≡ Memory) }
{
    let attributes = attributes(alloc, identity, tst)?;
    Ok(element_of(alloc, Tag::SET, &attributes)?)
}

/// A time-stamp token (RFC 3161 2.4.2, RFC 5652 5): the TSTInfo, signed under an algorithm, with all certificates of
/// the identity, in ascending order, where they are asked for. `tst` is the TSTInfo's encoding, and the signature has 1
/// to 4,096 octets. Refused only for want of memory, as `Memory`.
#[tactic(auto, using(crate::proofs::Texts::token_text))]
pub fn token(
    alloc: Global,
    identity: &Identity,
    algorithm: &Algorithm,
    tst: &[u8],
    signature: &[u8],
    with_certificate: bool,
) -> Result<Vec<u8>, CmsFault>
    requires some { 1 ≤ length signature.now }
    requires few { length signature.now ≤ 4096 }
    ensures text { IfOk result (λ octets. octets.items
        ≡ text_of_token identity.now algorithm.now tst.now signature.now with_certificate) }
    ensures memory { IfErr result (λ fault. fault ≡ Memory) }
{
    let content = signed_data(alloc, identity, algorithm, tst, signature, with_certificate)?;
    Ok(content_info(alloc, &content)?)
}
