//! The parts of a line, and of octets.
use hex::FromHexError;
use std::alloc::Global;

/// The first word of a text, and what stands behind the space after it.
pub fn word(text: &str) -> (&str, &str) {
    text.split_once(' ').unwrap_or((text, ""))
}

/// The octets of hexadecimal digits.
pub fn octets(alloc: Global, digits: &str) -> Result<Vec<u8>, FromHexError> {
    hex::decode(alloc, digits)
}

/// Whether octets, of which there are some, stand in others.
pub fn stand_in(part: &[u8], whole: &[u8]) -> bool {
    !part.is_empty() && whole.windows(part.len()).any(|octets| octets == part)
}
