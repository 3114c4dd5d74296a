//! Hexadecimal text, on standard input and output.
ghost use Rattle.std.specs.Prelude.{◌≡◌, ◌⊎◌, List, ℕ, Err, OnOk, IfOk, IfErr, IfSome, string_bytes};
ghost use Rattle.std.specs.Io.KnownBytes.{Appends};
ghost use Rattle.audit.specs.Failures.{HasFailed};
ghost use Rattle.console.specs.Hexadecimal.{IsHexadecimal, is_blank, line, without_blanks};
ghost use Rattle.console.specs.Writes.{Begins};

use crate::fault::InputFault;
use crate::output::write_text;
use audit::Output;
use std::alloc::{AllocError, Global};
use std::io::{ErrorKind, Read};

/// The octets that a reader's hexadecimal text spells. All of it is read before it is judged. `Failed` where a read
/// fails, `NotHexadecimal` where the text spells no octets, and `Memory` where memory runs out.
pub fn read_hexadecimal<R: Read>(alloc: Global, input: &mut R) -> Result<Vec<u8>, InputFault>
    ensures found { IfOk result (λ v. IfSome (R.remaining input.old) (λ text.
        IsHexadecimal text v.items)) }
    ensures refused { result ≡ Err InputFault.NotHexadecimal
        → IfSome (R.remaining input.old) (λ text. (octets : List ℕ) → IsHexadecimal text octets → ⊥) }
    ensures faults { IfErr result (λ fault. (fault ≡ InputFault.NotHexadecimal)
        ⊎ ((fault ≡ InputFault.Failed) ⊎ (fault ≡ InputFault.Memory))) }
{
    let text = read_all(alloc, input)?;
    decode(alloc, text)
}

/// Writes the octets as one line of hexadecimal digits in lower case. A write that fails is `Failed`: a beginning of
/// the line was written then. `Memory` where memory runs out, before anything is written.
pub fn write_hexadecimal<W: Output>(
    alloc: Global,
    octets: &[u8],
    output: &mut W,
) -> Result<(), InputFault>
    ensures written { OnOk result
        (Appends (W.contents output.old) (W.contents output.new) (line octets.now)) }
    ensures begun { result ≡ Err InputFault.Failed
        → Begins (W.contents output.old) (W.contents output.new) (line octets.now) }
    ensures failed { result ≡ Err InputFault.Failed → HasFailed (W.failures output.old) (W.failures output.new) }
    ensures kept { result ≡ Err InputFault.Memory → W.contents output.new ≡ W.contents output.old }
    ensures faults { IfErr result (λ fault.
        (fault ≡ InputFault.Failed) ⊎ (fault ≡ InputFault.Memory)) }
{
    let line = encode_line(alloc, octets)?;
    write_text(line.as_str(), output)
}

/// All octets of a reader. A read that fails is `Failed`; one that finds no memory is `Memory`.
fn read_all<R: Read>(alloc: Global, input: &mut R) -> Result<Vec<u8>, InputFault>
    ensures all { IfOk result (λ v. IfSome (R.remaining input.old) (λ octets. v.items ≡ octets)) }
    ensures faults { IfErr result (λ fault.
        (fault ≡ InputFault.Failed) ⊎ (fault ≡ InputFault.Memory)) }
{
    let mut octets = Vec::new(alloc);
    match input.read_to_end(&mut octets) {
        Ok(_) => Ok(octets),
        Err(error) if error.kind() == ErrorKind::OutOfMemory => Err(InputFault::Memory),
        Err(_) => Err(InputFault::Failed),
    }
}

/// The octets that hexadecimal text spells, in digits of either case. Blanks (space, tab, CR, LF) may stand anywhere,
/// also between the two digits of an octet; text without a digit spells no octets. An odd count of digits, or an octet
/// that is neither digit nor blank, is `NotHexadecimal`. `Memory` where memory runs out.
fn decode(alloc: Global, text: Vec<u8>) -> Result<Vec<u8>, InputFault>
    ensures found { IfOk result (λ octets. IsHexadecimal text.items octets.items) }
    ensures only { (octets : List ℕ) → IsHexadecimal text.items octets
        → IfOk result (λ v. v.items ≡ octets) × IfErr result (λ fault. fault ≡ InputFault.Memory) }
    ensures faults { IfErr result (λ fault.
        (fault ≡ InputFault.NotHexadecimal) ⊎ (fault ≡ InputFault.Memory)) }
{
    Ok(hex::decode(alloc, digits_of(text))?)
}

fn is_blank(octet: u8) -> bool
    ensures { result ≡ is_blank octet }
{
    matches!(octet, b'\t' | b'\n' | b'\r' | b' ')
}

/// The text without its blanks.
fn digits_of(text: Vec<u8>) -> Vec<u8>
    ensures { result.items ≡ without_blanks text.items }
{
    let mut digits = text;
    digits.retain(|octet| !is_blank(*octet));
    digits
}

/// One line of the octets' digits in lower case, with LF at its end. An error where memory runs out.
fn encode_line(alloc: Global, octets: &[u8]) -> Result<String, AllocError>
    ensures { IfOk result (λ text. string_bytes text ≡ line octets.now) }
{
    let mut text = hex::encode(alloc, octets)?;
    text.push_str("\n")?;
    Ok(text)
}
