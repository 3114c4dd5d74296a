ghost use Rattle.std.specs.Prelude.{◌≡◌, ℕ, ℤ, ◌<◌, ◌↔◌, true, List, length, IfOk, IfErr, IsTrue};
ghost use Rattle.std.specs.Int.Digits.{digits_of};
ghost use Rattle.der.specs.{Node.AreOctets, declared.fault.DerFault.TheVariants.Memory};
ghost use Rattle.der.specs.Number.{IsNumberContent, number_content, twos_value, is_shortest, with_sign, complement};

use crate::fault::DerFault;
use std::alloc::Global;

/// The contents octets of an INTEGER (X.690 8.3): the number in two's complement, most significant octet first, in the
/// fewest octets. Refused with `Memory` where memory runs out.
pub fn whole_number_content(alloc: Global, number: i128) -> Result<Vec<u8>, DerFault>
    ensures content { IfOk result (λ v. IsNumberContent number v.items) }
    ensures computed { IfOk result (λ v. v.items ≡ number_content number) }
    ensures memory { IfErr result (λ e. e ≡ Memory) }
{
    if number < 0 {
        // -1 - n has the complement of the octets of n.
        let mut octets = magnitude_octets(alloc, number.unsigned_abs() - 1)?;
        invert(&mut octets);
        Ok(octets)
    } else {
        Ok(magnitude_octets(alloc, number.unsigned_abs())?)
    }
}

/// The octets of a number that is not negative, with the 0 in front that bit 8 of the first may need.
fn magnitude_octets(alloc: Global, number: u128) -> Result<Vec<u8>, DerFault>
    ensures content { IfOk result (λ v. v.items ≡ with_sign (digits_of 256 number)) }
    ensures memory { IfErr result (λ e. e ≡ Memory) }
{
    let mut octets = Vec::new(alloc);
    let mut rest = number;
    while rest >= 0x80 {
        octets.push((rest % 256) as u8)?;
        rest /= 256;
    }
    octets.push(rest as u8)?;
    octets.reverse();
    Ok(octets)
}

/// Turns each bit round.
fn invert(octets: &mut [u8])
    ensures { octets.new ≡ complement octets.old }
{
    for octet in octets.iter_mut() {
        *octet = 255 - *octet;
    }
}

/// Whether octets are the contents of an INTEGER: at least one octet, and where there are more, the first nine bits not
/// all equal (X.690 8.3.2).
pub fn is_number_content(octets: &[u8]) -> bool
    ensures shortest { result ≡ is_shortest octets.now }
    ensures content { IsTrue result ↔ (number_content (twos_value octets.now) ≡ octets.now) }
{
    match octets {
        [] => false,
        [_only] => true,
        [0, second, _others @ ..] => *second >= 0x80,
        [0xff, second, _others @ ..] => *second < 0x80,
        [_first, _second, _others @ ..] => true,
    }
}

/// Numbers and their contents octets: each number has one list of contents octets, the shortest, and is its value.
pub fn numbers_have_one_content()
    ensures value { (z : ℤ) → twos_value (number_content z) ≡ z }
    ensures octets { (z : ℤ) → AreOctets (number_content z) }
    ensures some { (z : ℤ) → 0 < length (number_content z) }
    ensures shortest { (z : ℤ) → is_shortest (number_content z) ≡ true }
    ensures content { (z : ℤ) → IsNumberContent z (number_content z) }
    ensures only { (z : ℤ) (octets : List ℕ) → IsNumberContent z octets → octets ≡ number_content z }
    ensures from_shortest { (octets : List ℕ) → AreOctets octets → is_shortest octets ≡ true
        → number_content (twos_value octets) ≡ octets }
{}
