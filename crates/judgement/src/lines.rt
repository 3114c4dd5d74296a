//! Lines of a name and a value.
ghost use Rattle.std.specs.{Prelude.◌≡◌, Prelude.◌++◌, Prelude.OnOk, Fmt.decimal, Fmt.signed_decimal};
ghost use Rattle.hex.specs.Hex.{encode_lower};
ghost use Rattle.sha2.specs.Sha256.{sha256};
ghost use Rattle.judgement.specs.Explanation.{named};

use sha2::{Digest, Sha256};
use std::alloc::{AllocError, Global};

/// Adds a line with a name and a value.
pub(crate) fn add_named(lines: &mut Vec<u8>, name: &str, value: &[u8]) -> Result<(), AllocError>
    ensures { OnOk result (lines.new.items ≡ lines.old.items ++ named name.now value.now) }
{
    lines.extend_from_slice(name.as_bytes())?;
    lines.extend_from_slice(b" ")?;
    lines.extend_from_slice(value)?;
    lines.extend_from_slice(b"\n")
}

/// Adds a line with a number.
pub(crate) fn add_number(
    alloc: Global,
    lines: &mut Vec<u8>,
    name: &str,
    number: u64,
) -> Result<(), AllocError>
    ensures { OnOk result (lines.new.items ≡ lines.old.items ++ named name.now (decimal number)) }
{
    let text = format!(in alloc; "{number}")?;
    add_named(lines, name, text.as_bytes())
}

/// Adds a line with a number that may be less than nothing.
pub(crate) fn add_signed(
    alloc: Global,
    lines: &mut Vec<u8>,
    name: &str,
    number: &i64,
) -> Result<(), AllocError>
    ensures { OnOk result (lines.new.items ≡ lines.old.items ++ named name.now (signed_decimal number.now)) }
{
    let number = *number;
    let text = format!(in alloc; "{number}")?;
    add_named(lines, name, text.as_bytes())
}

/// Adds a line with octets by their hexadecimal digits.
pub(crate) fn add_octets(
    alloc: Global,
    lines: &mut Vec<u8>,
    name: &str,
    octets: &[u8],
) -> Result<(), AllocError>
    ensures { OnOk result (lines.new.items ≡ lines.old.items ++ named name.now (encode_lower octets.now)) }
{
    let text = hex::encode(alloc, octets)?;
    add_named(lines, name, text.as_bytes())
}

/// Adds a line with the SHA-256 of octets.
pub(crate) fn add_hash(
    alloc: Global,
    lines: &mut Vec<u8>,
    name: &str,
    octets: &[u8],
) -> Result<(), AllocError>
    ensures { OnOk result (lines.new.items ≡ lines.old.items ++ named name.now (encode_lower (sha256 octets.now))) }
{
    add_octets(alloc, lines, name, &Sha256::digest(octets))
}
