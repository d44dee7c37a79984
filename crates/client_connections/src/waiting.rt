//! How long a client is waited for.
//! All limits of this are here.
ghost use Rattle.std.specs.Prelude.{◌≡◌, ◌-◌, MatchResult};
ghost use Rattle.std.specs.Duration.{as_nanos};
ghost use Rattle.client_connections.specs.Waiting.{AddsUp, IsNew, IsOver, IsTryTime, nanoseconds};

use std::io;
use std::io::ErrorKind;
use std::time::Duration;

/// The most seconds that reads and writes wait for a client between two line ends. A client may think, but
/// not hold a worker.
pub const PATIENCE_SECONDS: u64 = 300;

// The most seconds of one try of a read or write. With it, timeouts are nearly always equal, and are set
// once.
const TRY_SECONDS: u64 = 1;

/// The time waited since a client last ended a line, and its limit.
#[derive(Clone, Copy, Debug, PartialEq, Eq)]
pub struct Waiting {
    pub waited: Duration,
    pub patience: Duration,
}

impl Waiting {
    /// Nothing was waited.
    pub fn new(patience: Duration) -> Waiting
        ensures { IsNew (as_nanos patience) result }
    {
        Waiting {
            waited: Duration::ZERO,
            patience,
        }
    }

    /// Nothing waited yet, with a patience in seconds.
    pub fn of_seconds(seconds: u64) -> Waiting
        ensures { IsNew (nanoseconds seconds) result }
    {
        Waiting::new(Duration::from_secs(seconds))
    }

    /// This wait, longer by this time.
    pub fn after(self, spent: Duration) -> Waiting
        ensures { AddsUp self (as_nanos spent) result }
    {
        Waiting {
            waited: self.waited.saturating_add(spent),
            patience: self.patience,
        }
    }

    /// How long one try of a read or write may wait; `TimedOut` if the patience is over.
    pub fn try_time(self) -> io::Result<Duration>
        ensures { MatchResult result (IsTryTime self) (λ _. IsOver self) }
    {
        let left = self.patience.saturating_sub(self.waited);
        if left.is_zero() {
            return Err(io::Error::from(ErrorKind::TimedOut));
        }
        Ok(left.min(Duration::from_secs(TRY_SECONDS)))
    }
}
