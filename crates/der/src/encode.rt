//! Encodings of values of any length, from the inside outwards.
ghost use Rattle.std.specs.Prelude.{◌≡◌, ◌++◌, ◌<◌, ◌≤◌, length, OnOk, IfOk};
ghost use Rattle.std.specs.Int.Digits.{digits_of};
ghost use Rattle.der.specs.Node.{element, length_octets};

use crate::tag::Tag;
use std::alloc::{AllocError, Global};

/// How many digits a number other than 0 has in base 256.
fn digit_count(n: usize) -> u8
    requires { 0 < n }
    ensures count { result ≡ length (digits_of 256 n) }
    ensures few { result ≤ 8 }
{
    if n < 256 { 1 } else { digit_count(n / 256) + 1 }
}

/// Appends a number's digits in base 256, the highest first.
fn append_digits(octets: &mut Vec<u8>, n: usize) -> Result<(), AllocError>
    requires { 0 < n }
    ensures { OnOk result (octets.new.items ≡ octets.old.items ++ digits_of 256 n) }
{
    if n < 256 {
        octets.push(n as u8)?;
        return Ok(());
    }
    append_digits(octets, n / 256)?;
    octets.push((n % 256) as u8)?;
    Ok(())
}

/// Appends the length octets of so many contents octets: one octet below 128, else how many follow and then the number
/// in base 256 (X.690 8.1.3, 10.1). Refused only for want of memory.
pub fn append_length(octets: &mut Vec<u8>, count: usize) -> Result<(), AllocError>
    ensures { OnOk result (octets.new.items ≡ octets.old.items ++ length_octets count) }
{
    if count < 128 {
        octets.push(count as u8)?;
        return Ok(());
    }
    octets.push(128 + digit_count(count))?;
    append_digits(octets, count)
}

/// Appends a value with these contents octets, of any number: its identifier octet, the fewest length octets, and these
/// (X.690 8.1.1, 8.1.3, 10.1). Refused only for want of memory.
pub fn append_element(octets: &mut Vec<u8>, tag: Tag, contents: &[u8]) -> Result<(), AllocError>
    ensures { OnOk result (octets.new.items ≡ octets.old.items ++ element tag.octet contents.now) }
{
    octets.push(tag.octet)?;
    append_length(octets, contents.len())?;
    octets.extend_from_slice(contents)
}

/// A value with these contents octets, of any number. Refused only for want of memory.
pub fn element_of(alloc: Global, tag: Tag, contents: &[u8]) -> Result<Vec<u8>, AllocError>
    ensures { IfOk result (λ octets. octets.items ≡ element tag.octet contents.now) }
{
    let mut octets = Vec::new(alloc);
    append_element(&mut octets, tag, contents)?;
    Ok(octets)
}
