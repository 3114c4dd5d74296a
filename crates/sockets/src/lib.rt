//! Sockets at an address: of TCP at a host's name and a port, or of Unix at the path of a file.
#![tactic(auto)]

mod duplex;
mod listener;
mod stream;

pub use duplex::Duplex;
pub use listener::Listener;
pub use stream::Stream;

/// How an address begins that is the path of a Unix socket. Any other is a host's name or an IP address, `:` and a
/// port.
pub(crate) const UNIX: &str = "unix:";
