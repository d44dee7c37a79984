//! A clock that stands still, for tests.
use page_worker::Clock;

/// Gives this moment, in seconds, at each call.
#[derive(Clone, Copy)]
pub struct FixedClock(pub u64);

impl Clock for FixedClock {
    fn now(&self) -> u64 {
        self.0
    }
}
