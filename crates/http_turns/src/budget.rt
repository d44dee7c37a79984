//! How many octets of answers may wait for their clients, over all connections together.
//! docs/FORMATS.md has the limit.
ghost use Rattle.std.specs.Prelude.{◌≡◌};

use std::sync::atomic::{AtomicU64, Ordering};

/// The most octets of answers that wait for their clients before no further request is answered.
pub const MOST_ANSWER_OCTETS: u64 = 268_435_456;

/// The octets of answers that wait for their clients, and how many may.
#[derive(Drop)]
pub struct AnswerBudget {
    most: u64,
    waiting: AtomicU64,
}

impl AnswerBudget {
    /// No answer waits yet.
    pub fn new(most: u64) -> AnswerBudget
        ensures { result.most ≡ most }
    {
        AnswerBudget {
            most,
            waiting: AtomicU64::new(0),
        }
    }

    /// Whether fewer octets wait than may. An answer that is begun then may go beyond.
    pub fn has_room(&self) -> bool {
        self.waiting.load(Ordering::Relaxed) < self.most
    }

    // So many octets more wait.
    pub(crate) fn take(&self, octets: u64) {
        self.waiting.fetch_add(octets, Ordering::Relaxed);
    }

    // So many octets wait no longer.
    pub(crate) fn give(&self, octets: u64) {
        self.waiting.fetch_sub(octets, Ordering::Relaxed);
    }
}
