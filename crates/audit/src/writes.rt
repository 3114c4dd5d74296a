//! Writing, by a loop of our own, so that it is known how much a failed write left.
ghost use Rattle.std.specs.Prelude.{◌≡◌, ◌≤◌, ◌<◌, ◌+◌, length, take, IfErr, OnOk};
ghost use Rattle.std.specs.Io.KnownBytes.{Appends};
ghost use Rattle.audit.specs.{Failures.HasFailed, Failures.StopsFor, Writes.WritesLine};

use crate::fault::ExtractFault;
use crate::output::Output;

/// Writes octets until all are written, or a write fails or takes none: how many were. Takes no memory.
pub fn write_octets<W: Output>(out: &mut W, octets: &[u8]) -> usize
    ensures within { result ≤ length octets.now }
    ensures written { Appends (W.contents out.old) (W.contents out.new) (take result octets.now) }

    // Fewer are written only where a write failed.
    ensures cut { result < length octets.now → HasFailed (W.failures out.old) (W.failures out.new) }
    ensures kept { result ≡ length octets.now → W.failures out.new ≡ W.failures out.old }
{
    let mut taken = 0;
    while taken < octets.len() {
        let (_, rest) = octets.split_at(taken);
        let count = out.write_some(rest);
        if count == 0 {
            return taken;
        }
        taken += count;
    }
    taken
}

/// How many octets of an extract are written, and how many may be in all.
#[derive(Drop)]
pub(crate) struct Meter {
    pub(crate) octets: u64,
    pub(crate) limit: u64,
}

/// Writes a line, and counts its octets that were written. Refused with `Write` where a write fails or takes none, and
/// where there would be more octets than the limit in all; none of the line is written then.
pub(crate) fn write_line<W: Output>(
    out: &mut W,
    line: &[u8],
    meter: &mut Meter,
) -> Result<(), ExtractFault>
    requires some { 0 < length line.now }
    requires within { meter.old.octets ≤ meter.old.limit }
    ensures written { WritesLine (W.contents out.old) (W.contents out.new) line.now meter.old.octets meter.new.octets
        result }
    ensures within { meter.new.octets ≤ meter.old.limit }
    ensures limit { meter.new.limit ≡ meter.old.limit }
    ensures stopped { IfErr result (λ _. StopsFor meter.old.limit (meter.old.octets + length line.now)
        (W.failures out.old) (W.failures out.new)) }
    ensures kept { OnOk result (W.failures out.new ≡ W.failures out.old) }
{
    if line.len() as u64 > meter.limit - meter.octets {
        return Err(ExtractFault::Write);
    }
    let taken = write_octets(out, line);
    meter.octets += taken as u64;
    if taken < line.len() {
        return Err(ExtractFault::Write);
    }
    Ok(())
}
