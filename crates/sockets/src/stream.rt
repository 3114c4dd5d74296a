//! A connection.
ghost use Rattle.std.specs.Io.{ReadsAtMost, WritesAtMost};

use crate::UNIX;
use crate::duplex::Duplex;
use std::io;
use std::io::{ErrorKind, Read, Write};
use std::net::{Net, Shutdown, TcpStream, ToSocketAddrs};
use std::os::fd::{AsRawFd, RawFd};
use std::os::unix::net::UnixStream;
use std::time::{Clock, Duration, Instant};

/// A connection. It is closed where it is dropped, with all others that were cloned of it.
#[derive(Drop)]
pub enum Stream {
    /// Over TCP.
    Tcp(TcpStream),
    /// Within this machine.
    Unix(UnixStream),
}

/// A host's name may have more than one address: connects to the first of them that answers, in so much time in all.
fn reach<R: Net<Stream = TcpStream> + Clock>(
    rt: &R,
    address: &str,
    limit: Duration,
) -> io::Result<TcpStream> {
    let Some(end) = Instant::now(rt)?.checked_add(limit) else {
        return Err(io::Error::from(ErrorKind::InvalidInput));
    };
    for address in address.to_socket_addrs(rt)? {
        let left = end.duration_since(Instant::now(rt)?);
        if left.is_zero() {
            return Err(io::Error::from(ErrorKind::TimedOut));
        }
        if let Ok(stream) = TcpStream::connect_timeout(rt, &address, left) {
            stream.set_nodelay(true)?;
            return Ok(stream);
        }
    }
    Err(io::Error::from(ErrorKind::NotConnected))
}

impl Stream {
    /// Connects to an address, as `Listener::bind` takes them. What is sent goes out at once. Over TCP this may take so
    /// long in all, however many addresses a name has. Within this machine the system connects at once, or refuses; it
    /// waits only where as many connections wait already as it lets wait there, and then without a limit.
    pub fn connect<R: Net<Stream = TcpStream> + Clock>(
        rt: &R,
        address: &str,
        limit: Duration,
    ) -> io::Result<Stream> {
        match address.strip_prefix(UNIX) {
            Some(path) => Ok(Stream::Unix(UnixStream::connect(rt, path)?)),
            None => Ok(Stream::Tcp(reach(rt, address, limit)?)),
        }
    }

    /// Another handle of the same connection.
    pub fn try_clone(&self) -> io::Result<Stream> {
        match self {
            Stream::Tcp(stream) => Ok(Stream::Tcp(stream.try_clone()?)),
            Stream::Unix(stream) => Ok(Stream::Unix(stream.try_clone()?)),
        }
    }
}

impl AsRawFd for Stream {
    fn as_raw_fd(&self) -> RawFd {
        match self {
            Stream::Tcp(stream) => stream.as_raw_fd(),
            Stream::Unix(stream) => stream.as_raw_fd(),
        }
    }
}

/// Reads as the stream does.
fn read_from(stream: &Stream, buf: &mut [u8]) -> io::Result<usize>
    ensures { ReadsAtMost result buf.new }
{
    match stream {
        Stream::Tcp(stream) => {
            let mut stream = stream;
            stream.read(buf)
        }
        Stream::Unix(stream) => {
            let mut stream = stream;
            stream.read(buf)
        }
    }
}

/// Writes as the stream does.
fn write_to(stream: &Stream, buf: &[u8]) -> io::Result<usize>
    ensures { WritesAtMost result buf.now }
{
    match stream {
        Stream::Tcp(stream) => {
            let mut stream = stream;
            stream.write(buf)
        }
        Stream::Unix(stream) => {
            let mut stream = stream;
            stream.write(buf)
        }
    }
}

impl Read for Stream {
    fn read(&mut self, buf: &mut [u8]) -> io::Result<usize> {
        read_from(self, buf)
    }
}

impl Write for Stream {
    fn write(&mut self, buf: &[u8]) -> io::Result<usize> {
        write_to(self, buf)
    }

    fn flush(&mut self) -> io::Result<()> {
        Ok(())
    }
}

/// It tells nothing: no contract of the machine's streams says which octets come and go.
impl Duplex for Stream {
    fn set_nonblocking(&self, nonblocking: bool) -> io::Result<()> {
        match self {
            Stream::Tcp(stream) => stream.set_nonblocking(nonblocking),
            Stream::Unix(stream) => stream.set_nonblocking(nonblocking),
        }
    }

    fn set_read_timeout(&self, limit: Option<Duration>) -> io::Result<()> {
        match self {
            Stream::Tcp(stream) => stream.set_read_timeout(limit),
            Stream::Unix(stream) => stream.set_read_timeout(limit),
        }
    }

    fn set_write_timeout(&self, limit: Option<Duration>) -> io::Result<()> {
        match self {
            Stream::Tcp(stream) => stream.set_write_timeout(limit),
            Stream::Unix(stream) => stream.set_write_timeout(limit),
        }
    }

    fn shutdown(&self, how: Shutdown) -> io::Result<()> {
        match self {
            Stream::Tcp(stream) => stream.shutdown(how),
            Stream::Unix(stream) => stream.shutdown(how),
        }
    }
}
