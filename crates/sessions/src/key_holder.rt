//! Sessions with the key holder at an address.
ghost use Rattle.std.specs.Prelude.{◌≡◌, ◌≤◌, false, IfSome, IfOk, OnOk, OnErr};
ghost use Rattle.std.specs.Io.KnownBytes.{Appends};
ghost use Rattle.cms.specs.Framed.{SendsBeginning};
ghost use Rattle.sessions.specs.{Notices.contents_in, Notices.Tells, ReconnectingSigner.IsOpened};

use crate::reconnecting_signer::{ReconnectingSigner, Sessions};
use crate::signer::{Session, SignerUnreached, connect_signer};
use cms::Algorithm;
use std::io::Write;
use std::net::{Net, TcpStream};
use std::time::{Clock, Duration, Instant};

/// For how many seconds no other session is opened once one was lost or couldn't be opened. That is twice as long each
/// time, until a session gives a signature.
const FIRST_PAUSE_SECONDS: u64 = 1;

/// The longest pause.
const LONGEST_PAUSE_SECONDS: u64 = 10;

/// The key holder at an address, and where it is told, if it is, that a session was lost or opened.
#[derive(Drop)]
pub struct KeyHolder<'a, R, W> {
    rt: &'a R,
    address: &'a str,
    limit: Duration,
    notices: Option<W>,
    /// Whether each line so far was written as a whole.
    is_heard: bool,
    /// How many seconds the last pause has, since there was a signature; 0 for none.
    pause: u64,
    /// Until when no session is opened.
    until: Option<Instant>,
    ghost few: { pause ≤ 10 },
}

/// A line isn't written as a whole.
#[derive(Drop)]
struct Untold;

/// Writes a line, or a beginning of it.
fn write_line<W: Write>(writer: &mut W, line: &[u8]) -> Result<(), Untold>
    ensures ok { OnOk result (Appends (W.contents writer.old) (W.contents writer.new) line.now) }
    ensures err { OnErr result (SendsBeginning (W.contents writer.old) (W.contents writer.new) line.now) }
{
    let mut rest = line;
    while !rest.is_empty() {
        match writer.write(rest) {
            Ok(0) => return Err(Untold),
            Ok(taken) => rest = rest.split_at(taken).1,
            Err(_) => return Err(Untold),
        }
    }
    Ok(())
}

/// The same where lines are told at all.
fn tell<W: Write>(notices: &mut Option<W>, line: &[u8]) -> Result<(), Untold>
    ensures ok { OnOk result (Appends (contents_in W.contents notices.old) (contents_in W.contents notices.new)
        line.now) }
    ensures err { OnErr result (SendsBeginning (contents_in W.contents notices.old)
        (contents_in W.contents notices.new) line.now) }
{
    match notices {
        Some(writer) => write_line(writer, line),
        None => Ok(()),
    }
}

/// A signer whose sessions are a key holder's.
pub type KeyHolderSigner<'a, R, W> = ReconnectingSigner<Session<'a, R>, KeyHolder<'a, R, W>>;

impl<'a, R: Net<Stream = TcpStream> + Clock + AllocGlobal, W: Write> KeyHolder<'a, R, W> {
    /// Whether a pause ends only behind this moment.
    fn is_early(&self) -> bool {
        match (self.until, Instant::now(self.rt)) {
            (Some(until), Ok(now)) => now < until,
            (Some(_), Err(_)) => true,
            (None, _) => false,
        }
    }

    /// From now on no session is opened for a while.
    fn pause(&mut self)
        ensures notices { self.new.notices ≡ self.old.notices }
        ensures heard { self.new.is_heard ≡ self.old.is_heard }
    {
        self.pause = (2 * self.pause).clamp(FIRST_PAUSE_SECONDS, LONGEST_PAUSE_SECONDS);
        self.until = match Instant::now(self.rt) {
            Ok(now) => now.checked_add(Duration::from_secs(self.pause)),
            Err(_) => None,
        };
    }

    /// Tells a line, where lines are told at all.
    fn tell(&mut self, line: &[u8])
        ensures { Tells (contents_in W.contents self.old.notices) (contents_in W.contents self.new.notices) line.now
            self.old.is_heard self.new.is_heard }
    {
        match tell(&mut self.notices, line) {
            Ok(()) => {}
            Err(Untold) => self.is_heard = false,
        }
    }

    /// Opens a session.
    fn connect(&self, algorithm: &Algorithm) -> Option<Session<'a, R>>
        ensures { IfSome result IsOpened }
    {
        match Algorithm::from_bytes(self.rt.alloc(), algorithm.as_slice()) {
            Ok(algorithm) => connect_signer(self.rt, self.address, self.limit, algorithm).ok(),
            Err(_) => None,
        }
    }
}

impl<'a, R: Net<Stream = TcpStream> + Clock + AllocGlobal, W: Write> Sessions<Session<'a, R>>
    for KeyHolder<'a, R, W> {
    ghost use Rattle.sessions.specs.Notices.{contents_in, Tells, line_of_opening, lost_line};
    ghost use Rattle.sessions.specs.ReconnectingSigner.{IsOpened};

    ghost fresh = { IsOpened };

    // a line for each session that was opened
    ghost opens = { λ before session after. Tells (contents_in W.contents before.notices)
        (contents_in W.contents after.notices) (line_of_opening session) before.is_heard after.is_heard };

    // none for a signature
    ghost signed = { λ before after. (after.notices ≡ before.notices) × (after.is_heard ≡ before.is_heard) };

    // and one for each that was lost
    ghost loses = { λ before session after. Tells (contents_in W.contents before.notices)
        (contents_in W.contents after.notices) lost_line before.is_heard after.is_heard };

    fn open(&mut self, algorithm: &Algorithm) -> Option<Session<'a, R>> {
        if self.is_early() {
            return None;
        }
        let session = self.connect(algorithm);
        if session.is_some() {
            self.tell(b"event=signer-found\n");
        } else {
            self.pause();
        }
        session
    }

    fn signed(&mut self) {
        self.pause = 0;
    }

    fn lost(&mut self, _session: Session<'a, R>) {
        self.pause();
        self.tell(b"event=signer-lost\n");
    }
}

/// A signer of that algorithm by the key holder at an address, as `connect_signer` reaches it. Where a session is lost,
/// the call that lost it is `Failed`, and another is opened at the next call, but for a pause: a second from when it
/// was lost, or couldn't be opened, and twice as long each time until a signature comes, to 10 seconds. In a pause
/// each call is `Failed` at once. A line tells of each loss, and of each session that was opened after one, where there
/// are notices.
///
/// `SignerUnreached` where the first session can't be opened, or memory runs out.
pub fn connect_reconnecting<'a, R: Net<Stream = TcpStream> + Clock + AllocGlobal, W: Write + Drop>(
    rt: &'a R,
    address: &'a str,
    limit: Duration,
    algorithm: Algorithm,
    notices: Option<W>,
) -> Result<KeyHolderSigner<'a, R, W>, SignerUnreached>
    ensures algorithm { IfOk result (λ signer. signer.algorithm ≡ algorithm) }
    ensures unused { IfOk result (λ signer. signer.faults ≡ 0) }
    ensures open { IfOk result (λ signer. IfSome signer.session IsOpened) }
{
    let holder = KeyHolder {
        rt,
        address,
        limit,
        notices,
        is_heard: true,
        pause: 0,
        until: None,
    };
    match holder.connect(&algorithm) {
        Some(session) => Ok(ReconnectingSigner::new(rt.alloc(), holder, session, algorithm)),
        None => Err(SignerUnreached),
    }
}
