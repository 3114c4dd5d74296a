//! What shows how time goes on.
ghost use Rattle.std.specs.{Prelude.ℕ, Prelude.IfOk, Time.instant_nanos};

use std::io;
use std::rt::HostRuntime;
use std::time::Instant;

/// What shows moments, by which connections have their times. It may tell which; what is proved over all is proved of
/// those that tell, and no code can know one from another.
pub trait Timer {
    // it showed that moment, in nanoseconds
    ghost shows: { ℕ → Type 0 } = { λ _. Unit {0} };

    /// The moment. An error where it can't be read; it may be asked again.
    fn moment(&self) -> io::Result<Instant>
        ensures { IfOk result (λ now. shows (instant_nanos now)) };
}

/// It tells nothing: no contract says what the machine's clock shows.
impl Timer for HostRuntime {
    fn moment(&self) -> io::Result<Instant> {
        Instant::now(self)
    }
}
