//! The dotted text of object identifiers, and the octets of their subidentifiers.
ghost use Rattle.std.specs.Prelude.{◌≡◌, Err, ℕ, ◌+◌, ◌-◌, ◌*◌, ◌^◌, ◌<◌, ◌≤◌, ◌⊎◌, List, [], ◌∷◌, ◌++◌, map, ◌↔◌};
ghost use Rattle.std.specs.Prelude.{IfOk, IfErr, OnOk, MatchOption, string_bytes};
ghost use Rattle.std.specs.{List.flat_map, Int.Digits.digits_of};
ghost use Rattle.der.specs.ObjectIdentifier.{decimal, dotted, first_arc, oid_text, oid_content, subidentifier_octets};
ghost use Rattle.der.specs.ObjectIdentifier.{AreOthers, IsNumberAt, IsDottedNumberAt};
ghost use Rattle.der.specs.declared.fault.DerFault.TheVariants.{BadValue, Memory};

use crate::fault::DerFault;
use std::alloc::{AllocError, Global};

/// Appends a number in decimal digits, without leading zeros.
pub(super) fn push_decimal(text: &mut String, number: u128) -> Result<(), AllocError>
    ensures { OnOk result (string_bytes text.new ≡ string_bytes text.old ++ decimal number) }
{
    if number >= 10 {
        push_decimal(text, number / 10)?;
    }
    text.push(char::from(b'0' + (number % 10) as u8))
}

/// Appends a dot and a number.
pub(super) fn push_dotted(text: &mut String, number: u128) -> Result<(), AllocError>
    ensures { OnOk result (string_bytes text.new ≡ string_bytes text.old ++ dotted number) }
{
    text.push('.')?;
    push_decimal(text, number)
}

/// Appends the two arcs that the first subidentifier stands for (X.690 8.19.4).
pub(super) fn push_first_arcs(text: &mut String, subidentifier: u128) -> Result<(), AllocError>
    ensures { OnOk result (string_bytes text.new ≡ string_bytes text.old ++ oid_text (subidentifier ∷ [])) }
{
    let first: u128 = match subidentifier {
        0..=39 => 0,
        40..=79 => 1,
        _ => 2,
    };
    push_decimal(text, first)?;
    push_dotted(text, subidentifier - 40 * first)
}

/// Ten times a number and a digit more, where that is below 2^128.
fn with_digit(number: u128, digit: u8) -> Option<u128>
    ensures { MatchOption result (2 ^ 128 ≤ number * 10 + digit) (λ longer. longer ≡ number * 10 + digit) }
{
    number.checked_mul(10)?.checked_add(u128::from(digit))
}

/// The decimal number below 2^128 at the front of a text, and the text after its digits. None where no digit stands
/// there, or a 0 in front of another digit, or the number is 2^128 or above.
pub(super) fn number_at(text: &[u8]) -> Option<(u128, &[u8])>
    ensures { MatchOption result ((number : ℕ) (rest : List ℕ) → IsNumberAt text.now number rest → ⊥)
        (λ found. IsNumberAt text.now found.0 found.1.now) }
{
    let mut number: u128 = 0;
    for (index, character) in text.iter().enumerate() {
        if !character.is_ascii_digit() {
            return if index > 0 {
                Some((number, &text[index..]))
            } else {
                None
            };
        }
        if index > 0 && number == 0 {
            return None;
        }
        number = with_digit(number, *character - b'0')?;
    }
    if text.is_empty() {
        None
    } else {
        Some((number, &[]))
    }
}

/// The same, after a dot.
pub(super) fn dotted_number_at(text: &[u8]) -> Option<(u128, &[u8])>
    ensures { MatchOption result ((number : ℕ) (rest : List ℕ) → IsDottedNumberAt text.now number rest → ⊥)
        (λ found. IsDottedNumberAt text.now found.0 found.1.now) }
{
    match text {
        [b'.', rest @ ..] => number_at(rest),
        _ => None,
    }
}

/// The first subidentifier, of the first two arcs (X.690 8.19.4). None where the first arc is above 2, the second 40 or
/// above under a first arc below 2, or the subidentifier 2^128 or above.
pub(super) fn joined_arcs(first: u128, second: u128) -> Option<u128>
    ensures { MatchOption result ((s : ℕ) → s < 2 ^ 128 → first_arc s ≡ first → s - 40 * first_arc s ≡ second → ⊥)
        (λ s. (s < 2 ^ 128) × (first_arc s ≡ first) × (s - 40 * first_arc s ≡ second)) }
{
    if first > 2 || (first < 2 && second >= 40) {
        return None;
    }
    second.checked_add(40 * first)
}

/// Appends the digits of a number in base 128, each with bit 8 set.
fn push_continued(content: &mut Vec<u8>, number: u128) -> Result<(), AllocError>
    ensures { OnOk result (content.new.items ≡ content.old.items ++ map (λ digit. 128 + digit) (digits_of 128 number)) }
{
    if number > 0 {
        push_continued(content, number / 128)?;
        content.push(128 + (number % 128) as u8)?;
    }
    Ok(())
}

/// Appends a subidentifier's octets (X.690 8.19.2).
pub(super) fn push_subidentifier(
    content: &mut Vec<u8>,
    subidentifier: u128,
) -> Result<(), AllocError>
    ensures { OnOk result (content.new.items ≡ content.old.items ++ subidentifier_octets subidentifier) }
{
    push_continued(content, subidentifier / 128)?;
    content.push((subidentifier % 128) as u8)?;
    Ok(())
}

/// The contents octets of a first subidentifier and of those that a text has, each after a dot, and nothing else: at
/// most 31. The text is read to its end also where memory ran out, so `BadValue` is answered of each other text.
pub(super) fn content_of(alloc: Global, first: u128, text: &[u8]) -> Result<Vec<u8>, DerFault>
    ensures found { IfOk result (λ content. (others : List ℕ) × AreOthers others × (text.now ≡ flat_map dotted others)
        × (content.items ≡ oid_content (first ∷ others))) }
    ensures bad_value { (result ≡ Err BadValue)
        ↔ ((others : List ℕ) → AreOthers others → text.now ≡ flat_map dotted others → ⊥) }
    ensures refusals { IfErr result (λ e. (e ≡ BadValue) ⊎ (e ≡ Memory)) }
{
    let mut content = Vec::new(alloc);
    let mut pushed = push_subidentifier(&mut content, first);
    let mut rest = text;
    let mut left: u8 = 31;
    while !rest.is_empty() {
        if left == 0 {
            return Err(DerFault::BadValue);
        }
        let Some((number, others)) = dotted_number_at(rest) else {
            return Err(DerFault::BadValue);
        };
        if pushed.is_ok() {
            pushed = push_subidentifier(&mut content, number);
        }
        rest = others;
        left -= 1;
    }
    pushed?;
    Ok(content)
}
