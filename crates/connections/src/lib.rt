//! The counter over sockets: connections, read side by side, and served one after the other or together.
#![tactic(auto)]

mod acceptor;
mod clock;
mod closing_connection;
mod gathering;
mod group;
mod laws;
mod limited;
mod look;
mod peer;
mod places;
mod reactor;
mod request_source;
mod server;
mod timer;
mod waiting_connection;

pub use acceptor::{Accepted, Acceptor, Connection};
pub use clock::{Clock, ClockFailed, SystemClock};
pub use laws::requests_ask_for_what_is_met;
pub use reactor::Reactor;
pub use request_source::RequestSource;
pub use server::{serve_connections, serve_each};
pub use timer::Timer;
