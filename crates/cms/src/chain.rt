//! The further certificates that go with a signer's.
ghost use Rattle.std.specs.Prelude.{◌≡◌, ◌⊎◌, ◌↔◌, ℕ, List, ◌∷◌, map, Contains, IsTrue, IfOk, IfErr, OnOk, MatchResult};
ghost use Rattle.cms.specs.Chain.{AreFurtherCertificates, BeginsWith, IsChainFault, IsRefused, IsShortCertificate};
ghost use Rattle.cms.specs.auxiliary.ChainView.{IsFrontFault, IsTaken};
ghost use Rattle.cms.specs.{Grammar.joined, declared.fault.CmsFault.TheVariants.Memory};
ghost use Rattle.cms.specs.SetOf.{comes_before, inserted, ascending, IsAscending};
ghost use Rattle.std.specs.List.{prefix_len, Sorted.IsPermutation};

use crate::fault::CmsFault;
use crate::place::places_in;
use der::{Cursor, elements_have_one_beginning};
use std::alloc::{AllocError, Global};

/// The most octets of a certificate that is read.
pub(crate) const MAX_CERTIFICATE: usize = 16_384;

/// The most certificates of an identity, with the signer's.
const MAX_CERTIFICATES: usize = 4;

/// The certificate at the front of octets.
fn front(octets: &[u8]) -> Result<&[u8], CmsFault>
    ensures ok { IfOk result (λ first. BeginsWith octets.now first.now × IsShortCertificate first.now) }
    ensures err { IfErr result (IsFrontFault octets.now) }
{
    let mut cursor = Cursor::new(octets);
    let Ok(element) = cursor.next() else {
        return Err(CmsFault::NotCertificate);
    };
    if element.whole.len() > MAX_CERTIFICATE {
        return Err(CmsFault::TooLarge);
    }
    if places_in(element.whole).is_none() {
        return Err(CmsFault::NotCertificate);
    }
    Ok(element.whole)
}

/// Whether octets are among others.
fn is_among(others: &[&[u8]], octets: &[u8]) -> bool
    ensures { IsTrue result ↔ Contains (map (λ o. o.now) others.now) octets.now }
{
    others.iter().any(|other| *other == octets)
}

/// Takes the certificate at the front of a chain off, and puts it behind those before it; the octets that are left.
fn take<'a>(certificates: &mut Vec<&'a [u8]>, chain: &'a [u8]) -> Result<&'a [u8], CmsFault>
    ensures ok { IfOk result (λ rest. IsTaken (map (λ o. o.now) certificates.old.items) chain.now
        (map (λ o. o.now) certificates.new.items) rest.now) }
    ensures err { IfErr result (λ fault. (fault ≡ Memory)
        ⊎ IsRefused (map (λ o. o.now) certificates.old.items) chain.now fault) }
{
    if certificates.len() >= MAX_CERTIFICATES {
        return Err(CmsFault::TooMany);
    }
    let first = front(chain)?;
    if is_among(certificates, first) {
        return Err(CmsFault::Repeated);
    }
    certificates.push(first)?;
    Ok(chain.split_at(first.len()).1)
}

/// The signer's certificate, and those of its chain behind it, in their order.
pub(crate) fn certificates_of<'a>(
    alloc: Global,
    signer: &'a [u8],
    chain: &'a [u8],
) -> Result<Vec<&'a [u8]>, CmsFault>
    ensures ok { IfOk result (λ certificates. (further : List (List ℕ)) × AreFurtherCertificates signer.now further
        × (chain.now ≡ joined further) × (map (λ o. o.now) certificates.items ≡ signer.now ∷ further)) }
    ensures only { (further : List (List ℕ)) → AreFurtherCertificates signer.now further → chain.now ≡ joined further
        → MatchResult result (λ certificates. map (λ o. o.now) certificates.items ≡ signer.now ∷ further)
        (λ fault. fault ≡ Memory) }
    ensures err { IfErr result (λ fault. (fault ≡ Memory) ⊎ IsChainFault signer.now chain.now fault) }
{
    elements_have_one_beginning();
    let mut certificates = Vec::new(alloc);
    certificates.push(signer)?;
    let mut rest = chain;
    while !rest.is_empty() {
        rest = take(&mut certificates, rest)?;
    }
    Ok(certificates)
}

/// How many octets come before these, from the front on.
#[tactic(auto, using(crate::proofs::Ascending::one_before, crate::proofs::Ascending::none_before))]
fn place_among(sorted: &[&[u8]], octets: &[u8]) -> usize
    ensures { result ≡ prefix_len (comes_before octets.now) (map (λ o. o.now) sorted.now) }
{
    let mut place = 0;
    while place < sorted.len() && sorted[place].cmp(octets).is_lt() {
        place += 1;
    }
    place
}

/// Puts octets in front of the first that doesn't come before them.
#[tactic(auto, using(crate::proofs::Ascending::insert_laws))]
fn insert<'a>(sorted: &mut Vec<&'a [u8]>, octets: &'a [u8]) -> Result<(), AllocError>
    ensures { OnOk result (map (λ o. o.now) sorted.new.items
        ≡ inserted octets.now (map (λ o. o.now) sorted.old.items)) }
{
    let place = place_among(sorted, octets);
    sorted.insert(place, octets)?;
    Ok(())
}

/// Octets in ascending order, as DER has the elements of a SET OF (X.690 11.6).
#[tactic(auto, using(crate::proofs::Ascending::sorted_more))]
fn sorted<'a>(alloc: Global, octets: &[&'a [u8]]) -> Result<Vec<&'a [u8]>, AllocError>
    ensures { IfOk result (λ sorted. map (λ o. o.now) sorted.items ≡ ascending (map (λ o. o.now) octets.now)) }
{
    let mut sorted = Vec::new(alloc);
    for one in octets {
        insert(&mut sorted, *one)?;
    }
    Ok(sorted)
}

/// A SET OF and its order (X.690 11.6): it ascends, and has the same members, each as often.
#[tactic(auto, using(crate::proofs::Ascending::is_ascending, crate::proofs::Ascending::is_permutation))]
pub fn sets_are_ascending()
    ensures ascending { (members : List (List ℕ)) → IsAscending (ascending members) }
    ensures permutation { (members : List (List ℕ)) → IsPermutation members (ascending members) }
{}

/// Octets one after the other, in ascending order.
pub(crate) fn join_ascending(alloc: Global, octets: &[&[u8]]) -> Result<Vec<u8>, AllocError>
    ensures { IfOk result (λ joint. joint.items ≡ joined (ascending (map (λ o. o.now) octets.now))) }
{
    let sorted = sorted(alloc, octets)?;
    let mut joint = Vec::new(alloc);
    for one in &sorted {
        joint.extend_from_slice(one)?;
    }
    Ok(joint)
}
