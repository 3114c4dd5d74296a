//! Writing, so that it is known how much a failed write left.
ghost use Rattle.std.specs.Prelude.{◌≡◌, ◌<◌, ◌≤◌, ◌++◌, length, take};
ghost use Rattle.std.specs.Io.KnownBytes.{Appends};
ghost use Rattle.audit.specs.Failures.{HasFailed};

use arrayvec::ArrayVec;
use audit::{Output, write_octets};

/// Writes a short text and octets behind it, at once where they are few: how many were written.
pub(crate) fn write_both<W: Output>(writer: &mut W, text: &[u8], octets: &[u8]) -> usize
    requires { length text.now ≤ 512 }
    ensures within { result ≤ length (text.now ++ octets.now) }
    ensures written { Appends (W.contents writer.old) (W.contents writer.new) (take result (text.now ++ octets.now)) }

    // Fewer are written only where a write failed.
    ensures cut { result < length (text.now ++ octets.now) → HasFailed (W.failures writer.old) (W.failures writer.new) }
    ensures kept { result ≡ length (text.now ++ octets.now) → W.failures writer.new ≡ W.failures writer.old }
{
    let mut both: ArrayVec<u8, 8192> = ArrayVec::new();
    if both.try_extend_from_slice(text).is_ok() && both.try_extend_from_slice(octets).is_ok() {
        return write_octets(writer, both.as_slice());
    }
    let sent = write_octets(writer, text);
    if sent < text.len() {
        return sent;
    }
    sent + write_octets(writer, octets)
}
