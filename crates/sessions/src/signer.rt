//! A key holder behind a connection.
ghost use Rattle.std.specs.Prelude.{◌≡◌, false, IfOk};
ghost use Rattle.cms.specs.Framed.{over_ends};

use crate::session::{Exchange, SessionStream};
use cms::{Algorithm, FramedSigner};
use sockets::{Duplex, Stream};
use std::alloc::AllocError;
use std::cell::Cell;
use std::io;
use std::net::{Net, TcpStream};
use std::rc::Rc;
use std::time::{Clock, Duration};
use thiserror::Error;

/// The limit on a key holder's time: so many seconds for connecting to it, and so many for each exchange.
pub const SIGNER_SECONDS: u64 = 10;

/// No key holder answers at the address.
#[derive(Clone, Copy, Debug, PartialEq, Eq, Error)]
#[error("the signer can't be reached")]
pub struct SignerUnreached;

/// A signer over the two ways of a stream.
pub type StreamSigner<'a, R, S> = FramedSigner<SessionStream<'a, R, S>, SessionStream<'a, R, S>>;

/// A signer over one session with a key holder.
pub type Session<'a, R> = StreamSigner<'a, R, Stream>;

/// A signer of that algorithm over the two ways of a stream. Each exchange has so much time, from the first octet that
/// is written to the last that is read. What it writes and reads are frames, as over these two alone
/// (`cms::FramedSigner`), whatever is interrupted.
///
/// An error where memory runs out.
pub fn signer_over<'a, R: Clock + AllocGlobal, S: Duplex + Drop>(
    rt: &'a R,
    reader: S,
    writer: S,
    limit: Duration,
    algorithm: Algorithm,
) -> Result<StreamSigner<'a, R, S>, AllocError>
    ensures { IfOk result (λ signer. signer ≡ over_ends S.remaining S.contents reader writer algorithm) }
{
    let none = Exchange {
        end: None,
        is_asked: false,
    };
    let exchange = Rc::new(rt.alloc(), Cell::new(none))?;
    let reader = SessionStream {
        clock: rt,
        stream: reader,
        limit,
        exchange: exchange.clone()?,
    };
    let writer = SessionStream {
        clock: rt,
        stream: writer,
        limit,
        exchange,
    };
    Ok(FramedSigner::new(rt.alloc(), reader, writer, algorithm))
}

/// Both ways of one connection to an address.
fn ends<R: Net<Stream = TcpStream> + Clock>(
    rt: &R,
    address: &str,
    limit: Duration,
) -> io::Result<(Stream, Stream)> {
    let writer = Stream::connect(rt, address, limit)?;
    let reader = writer.try_clone()?;
    Ok((reader, writer))
}

/// A signer of that algorithm behind one connection to the key holder at an address: an IP address or a host's name,
/// `:` and a port; or `unix:` and the path of a Unix socket. What is sent goes out at once.
///
/// Connecting over TCP may take so long in all, however many addresses the name has, and so may each exchange later on,
/// from the first octet that is written to the last that is read: a key holder that takes longer has failed
/// (`cms::FramedSigner`). Connecting to a Unix socket doesn't wait, except where as many wait there already as the
/// system lets wait.
///
/// `SignerUnreached` where the address is none, where nothing answers there, or where the connection can't be set up.
pub fn connect_signer<'a, R: Net<Stream = TcpStream> + Clock + AllocGlobal>(
    rt: &'a R,
    address: &str,
    limit: Duration,
    algorithm: Algorithm,
) -> Result<Session<'a, R>, SignerUnreached>
    ensures algorithm { IfOk result (λ signer. signer.algorithm ≡ algorithm) }
    ensures unused { IfOk result (λ signer. signer.faults ≡ 0) }
    ensures open { IfOk result (λ signer. signer.is_closed ≡ false) }
{
    let (reader, writer) = ends(rt, address, limit).or(Err(SignerUnreached))?;
    signer_over(rt, reader, writer, limit, algorithm).or(Err(SignerUnreached))
}
