//! Numbers and references, as a request spells them.
ghost use Rattle.std.specs.Prelude.{◌≡◌, ◌≤◌, length, IsTrue, Option, IfSome};
ghost use Rattle.std.specs.{Char.is_ascii_digit, List.list_all, Str.Parse.digits_value};
ghost use Rattle.book.specs.Sound.{greatest_number};
ghost use Rattle.service.specs.Numbers.{is_digits, length_in, number_in, micros_in, signed_in};
ghost use Rattle.service.specs.Numbers.{is_reference, is_reference_octet};

use book::GREATEST_NUMBER;

fn is_digit(octet: u8) -> bool
    ensures { result ≡ is_ascii_digit octet }
{
    octet.is_ascii_digit()
}

fn are_digits(octets: &[u8]) -> bool
    ensures { result ≡ list_all is_ascii_digit octets.now }
{
    octets.iter().all(|octet| is_digit(*octet))
}

/// Whether the octets are at least one decimal digit, at most so many, and nothing else.
#[tactic(auto, unfolding(crate::specs::Numbers::is_digits))]
fn is_digits(most: usize, octets: &[u8]) -> bool
    ensures value { result ≡ is_digits most octets.now }
    ensures few { IsTrue result → length octets.now ≤ most }
    ensures digits { IsTrue result → IsTrue (list_all is_ascii_digit octets.now) }
{
    1 <= octets.len() && octets.len() <= most && are_digits(octets)
}

/// The number that digits spell, at most 19 of them.
fn digits_value(digits: &[u8]) -> u64
    requires few { length digits.now ≤ 19 }
    requires digits { IsTrue (list_all is_ascii_digit digits.now) }
    ensures { result ≡ digits_value 10 digits.now }
{
    let mut value: u64 = 0;
    for digit in digits {
        value = value * 10 + u64::from(*digit - b'0');
    }
    value
}

/// The number of a body's octets: 1 to 18 digits.
pub(crate) fn length_in(octets: &[u8]) -> Option<u64>
    ensures { result ≡ length_in octets.now }
{
    if is_digits(18, octets) {
        Some(digits_value(octets))
    } else {
        None
    }
}

/// The number of a deposit: 1 to 2^63 - 1, without a leading zero.
pub(crate) fn number_in(octets: &[u8]) -> Option<u64>
    ensures { result ≡ number_in octets.now }
{
    if !is_digits(19, octets) || octets.first() == Some(&b'0') {
        return None;
    }
    let number = digits_value(octets);
    if number <= GREATEST_NUMBER {
        Some(number)
    } else {
        None
    }
}

/// A number of microseconds, 0 to 2^63 - 1.
pub(crate) fn micros_in(octets: &[u8]) -> Option<u64>
    ensures value { result ≡ micros_in octets.now }
    ensures few { IfSome result (λ n. n ≤ greatest_number) }
{
    if !is_digits(19, octets) {
        return None;
    }
    match digits_value(octets) {
        number if number <= GREATEST_NUMBER => Some(number),
        _ => None,
    }
}

/// Such a number, or minus one behind a hyphen.
pub(crate) fn signed_in(octets: &[u8]) -> Option<i64>
    ensures { result ≡ signed_in octets.now }
{
    match octets.split_first() {
        None => None,
        Some((b'-', digits)) => Some(-(micros_in(digits)? as i64)),
        Some(_) => Some(micros_in(octets)? as i64),
    }
}

fn is_reference_octet(octet: u8) -> bool
    ensures { result ≡ is_reference_octet octet }
{
    octet.is_ascii_alphanumeric() || matches!(octet, b'.' | b'_' | b'-')
}

fn are_reference_octets(octets: &[u8]) -> bool
    ensures { result ≡ list_all is_reference_octet octets.now }
{
    octets.iter().all(|octet| is_reference_octet(*octet))
}

/// Whether the octets are a deposit's reference: 1 to 64 letters or digits of ASCII, `.`, `_` or `-`.
#[tactic(auto, unfolding(crate::specs::Numbers::is_reference))]
pub(crate) fn is_reference(octets: &[u8]) -> bool
    ensures { result ≡ is_reference octets.now }
{
    1 <= octets.len() && octets.len() <= 64 && are_reference_octets(octets)
}
