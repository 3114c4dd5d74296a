//! A token before its signature, and what is written over that.
ghost use Rattle.std.specs.Prelude.{◌≡◌, ◌≤◌, Ok, length};
ghost use Rattle.tsp.specs.Granted.{granted_octets};
ghost use Rattle.desk.specs.auxiliary.Completions.{IsWritten};
ghost use Rattle.desk.specs.{Answers.reply_as, Command.Stamped, WaitingStamps.pending_by};

use crate::reply::Reply;
use cms::{Algorithm, Identity, token};
use std::alloc::Global;
use tsp::write_granted;

/// A token before its signature.
#[derive(Drop)]
pub(crate) struct UnsignedToken {
    pub(crate) serial: u64,
    /// Its TSTInfo.
    pub(crate) tst: Vec<u8>,
    /// The octets to sign.
    pub(crate) text: Vec<u8>,
    /// Whether it carries the certificate.
    pub(crate) certificate: bool,
}

/// A token under its serial number, and the granted reply with it.
#[derive(Drop)]
pub(crate) struct Written {
    pub(crate) serial: u64,
    pub(crate) token: Vec<u8>,
    pub(crate) bytes: Vec<u8>,
}

/// The token over a signature, and the reply with it: none where memory wants.
pub(crate) fn write(
    alloc: Global,
    identity: &Identity,
    algorithm: &Algorithm,
    unsigned: &UnsignedToken,
    signature: &[u8],
) -> Option<Written>
    requires some { 1 ≤ length signature.now }
    requires few { length signature.now ≤ 4096 }
    ensures { IsWritten (pending_by identity.now algorithm.now unsigned.now) (Ok signature.now) result }
{
    let token = token(
        alloc,
        identity,
        algorithm,
        &unsigned.tst,
        signature,
        unsigned.certificate,
    )
    .ok()?;
    let bytes = write_granted(alloc, &token).ok()?;
    Some(Written {
        serial: unsigned.serial,
        token,
        bytes,
    })
}

/// The granted reply, once the token is kept.
pub(crate) fn reply_with(written: Written) -> Reply
    requires granted { written.bytes.items ≡ granted_octets written.token.items }
    ensures { reply_as result ≡ Stamped written.serial (granted_octets written.token.items) }
{
    let Written {
        serial,
        token: _,
        bytes,
    } = written;
    Reply::Granted { serial, bytes }
}
