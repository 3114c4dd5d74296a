//! Streams both ways.
use std::io;
use std::io::{Read, Write};
use std::net::Shutdown;
use std::time::Duration;

/// A stream of octets both ways, whose reads and writes may have a limit on their time. It may tell the octets that it
/// took and those that it still gives, as every writer and reader may; what is proved over all is proved of those that
/// tell.
pub trait Duplex: Read + Write {
    /// Whether a read or a write that would wait fails with `WouldBlock`.
    fn set_nonblocking(&self, nonblocking: bool) -> io::Result<()>;

    /// A read that waits longer fails with `WouldBlock`.
    fn set_read_timeout(&self, limit: Option<Duration>) -> io::Result<()>;

    /// A write that waits longer fails with `WouldBlock`.
    fn set_write_timeout(&self, limit: Option<Duration>) -> io::Result<()>;

    /// Ends one side, or both.
    fn shutdown(&self, how: Shutdown) -> io::Result<()>;
}
