//! Exchanges over loopback, with the database in memory.
use book::Book;
use cms::KeyedHash;
use connections::{Clock, Reactor, SystemClock, serve_connections};
use desk::Desk;
use sockets::Listener;
use std::net::TcpListener;
use trials::{AtDesk, at_desk_of_work};

/// Connections that are served.
#[derive(Drop)]
struct Serving<'l> {
    rt: &'l HostRuntime,
    reactor: Reactor<'l, Listener, HostRuntime>,
    count: u32,
}

impl AtDesk for Serving<'_> {
    fn at<B: Book + Drop>(
        &mut self,
        desk: &mut Desk<'_, B>,
        signer: &mut KeyedHash,
    ) -> anyhow::Result<()> {
        let mut clock = SystemClock::new(self.rt);
        serve_connections(&mut self.reactor, self.count, &mut clock, desk, signer)?;
        Ok(())
    }
}

/// Serves so many connections at a desk whose clock is calibrated at its reading.
fn serve_at(rt: &HostRuntime, listener: Listener, count: u32) -> anyhow::Result<()> {
    let mut clock = SystemClock::new(rt);
    let reading = clock.reading()?;
    let mut serving = Serving {
        rt,
        reactor: Reactor::new(rt, rt, listener, None)?,
        count,
    };
    at_desk_of_work(rt.alloc(), reading, &mut serving)
}

/// Prints the port on which it listens, and serves so many connections. For none it neither listens nor prints.
pub fn serve(rt: &HostRuntime, count: u32) -> anyhow::Result<()> {
    if count > 0 {
        let listener = TcpListener::bind(rt, "127.0.0.1:0")?;
        println!(rt; "{}", listener.local_addr()?.port())?;
        serve_at(rt, Listener::Tcp(listener), count)?;
    }
    Ok(())
}
