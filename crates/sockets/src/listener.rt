//! What takes connections.
use crate::UNIX;
use crate::stream::Stream;
use std::fs::Files;
use std::io::ErrorKind;
use std::net::{Net, TcpListener, TcpStream};
use std::os::fd::{AsRawFd, RawFd};
use std::os::unix::fs::FileTypeExt;
use std::os::unix::net::{UnixListener, UnixStream};
use std::{fs, io};

/// What takes connections at an address. It is closed where it is dropped; the file of a Unix socket stays then.
#[derive(Drop)]
pub enum Listener {
    /// At an IP address and a port.
    Tcp(TcpListener),
    /// At the path of a file.
    Unix(UnixListener),
}

/// A socket stands there, and nobody listens at it.
fn is_left<R: Net + Files>(rt: &R, path: &str) -> bool {
    match fs::symlink_metadata(rt, path) {
        Ok(found) if found.file_type().is_socket() => match UnixStream::connect(rt, path) {
            Ok(_) => false,
            Err(error) => error.kind() == ErrorKind::ConnectionRefused,
        },
        _ => false,
    }
}

/// A socket at the path of a file. One that stands there and at which nobody listens is removed first.
fn bind_unix<R: Net + Files>(rt: &R, path: &str) -> io::Result<UnixListener> {
    // The system would pick a name of its own, which no client knows.
    if path.is_empty() {
        return Err(io::Error::from(ErrorKind::InvalidInput));
    }
    match UnixListener::bind(rt, path) {
        Err(error) if error.kind() == ErrorKind::AddrInUse && is_left(rt, path) => {
            fs::remove_file(rt, path)?;
            UnixListener::bind(rt, path)
        }
        bound => bound,
    }
}

impl Listener {
    /// Listens at an address: an IP address or a host's name, `:` and a port; or `unix:` and the path of a file, which
    /// is made, and by whose permissions the system tells who may connect. An error where the address is none, where it
    /// is taken, and where another file stands at the path, or a socket at which somebody listens. A socket that is
    /// left of a process that has ended is replaced.
    pub fn bind<R: Net<Stream = TcpStream, Listener = TcpListener> + Files>(
        rt: &R,
        address: &str,
    ) -> io::Result<Listener> {
        match address.strip_prefix(UNIX) {
            Some(path) => Ok(Listener::Unix(bind_unix(rt, path)?)),
            None => Ok(Listener::Tcp(TcpListener::bind(rt, address)?)),
        }
    }

    /// The next connection. Its reads and writes wait.
    pub fn accept(&self) -> io::Result<Stream> {
        match self {
            Listener::Tcp(listener) => Ok(Stream::Tcp(listener.accept()?.0)),
            Listener::Unix(listener) => Ok(Stream::Unix(listener.accept()?.0)),
        }
    }

    /// Whether `accept` fails with `WouldBlock` where no connection is there, and doesn't wait for one.
    pub fn set_nonblocking(&self, nonblocking: bool) -> io::Result<()> {
        match self {
            Listener::Tcp(listener) => listener.set_nonblocking(nonblocking),
            Listener::Unix(listener) => listener.set_nonblocking(nonblocking),
        }
    }
}

impl AsRawFd for Listener {
    fn as_raw_fd(&self) -> RawFd {
        match self {
            Listener::Tcp(listener) => listener.as_raw_fd(),
            Listener::Unix(listener) => listener.as_raw_fd(),
        }
    }
}
