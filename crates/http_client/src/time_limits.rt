//! The time limits of fetches.
//! All are here.
ghost use Rattle.http_client.specs.TimeLimits.{AreOfSeconds, AreStandard};

use std::time::Duration;

/// The most seconds for connecting to one address. A live host answers within seconds; a dead one may
/// never.
pub const CONNECT_SECONDS: u64 = 10;

/// The most seconds of one read or write. A server may need time, but must not hold a worker.
pub const STEP_SECONDS: u64 = 30;

/// The most seconds of a whole fetch. At an octet a second a response could hold a worker for 97 days.
pub const WHOLE_SECONDS: u64 = 300;

/// The time limits of a fetch and its steps. Past a limit the step fails.
#[derive(Clone, Copy, Debug, PartialEq, Eq)]
pub struct TimeLimits {
    /// For connecting to one of the host's addresses.
    pub connect: Duration,
    /// For one read or write.
    pub step: Duration,
    /// For the whole fetch.
    pub whole: Duration,
}

impl TimeLimits {
    /// The limits of crawlers: 10, 30 and 300 seconds.
    pub fn standard() -> TimeLimits
        ensures { AreStandard result }
    {
        TimeLimits::of_seconds(CONNECT_SECONDS, STEP_SECONDS, WHOLE_SECONDS)
    }

    /// Limits in whole seconds.
    pub fn of_seconds(connect: u64, step: u64, whole: u64) -> TimeLimits
        ensures { AreOfSeconds connect step whole result }
    {
        TimeLimits {
            connect: Duration::from_secs(connect),
            step: Duration::from_secs(step),
            whole: Duration::from_secs(whole),
        }
    }
}
