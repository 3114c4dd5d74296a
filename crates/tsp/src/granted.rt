//! The reply to a request that is granted.
ghost use Rattle.std.specs.Prelude.{◌≡◌, IfOk, IfErr};
ghost use Rattle.tsp.specs.{Granted.granted_octets, declared.fault.TspFault.TheVariants.Memory};

use crate::fault::TspFault;
use der::append_length;
use std::alloc::Global;

/// PKIStatusInfo with status 0, granted (RFC 3161 2.4.2).
const GRANTED: [u8; 5] = [0x30, 0x03, 0x02, 0x01, 0x00];

/// The reply that grants a request, of a token's octets: TimeStampResp with status 0 and the token (RFC 3161 2.4.2).
/// The token may have any length, and is not looked into. Refused only for want of memory, as `Memory`.
pub fn write_granted(alloc: Global, token: &[u8]) -> Result<Vec<u8>, TspFault>
    ensures text { IfOk result (λ reply. reply.items ≡ granted_octets token.now) }
    ensures memory { IfErr result (λ fault. fault ≡ Memory) }
{
    let mut reply = Vec::new(alloc);
    reply.push(0x30)?;
    append_length(&mut reply, GRANTED.len() + token.len())?;
    reply.extend_from_slice(&GRANTED)?;
    reply.extend_from_slice(token)?;
    Ok(reply)
}
