//! What a journal writes and how long that takes, counted for its operator.
//! Read by a server for the verb INFO and for `/metrics`.

use std::sync::atomic::{AtomicU64, Ordering};
use std::time::Duration;

/// What was written since this process opened a journal.
#[derive(Clone, Copy, Debug, PartialEq, Eq)]
pub struct JournalCounts {
    /// Octets written, the beginnings of files included.
    pub octets: u64,
    /// How often the system was waited for until a crash keeps what was written.
    pub syncs: u64,
    /// The longest such wait, in microseconds.
    pub slowest_sync: u64,
}

impl JournalCounts {
    /// Nothing was written.
    pub fn none() -> JournalCounts {
        JournalCounts {
            octets: 0,
            syncs: 0,
            slowest_sync: 0,
        }
    }
}

/// Counts what is written to a journal's files. Several threads may count and read.
#[derive(Drop)]
pub struct JournalMeter {
    octets: AtomicU64,
    syncs: AtomicU64,
    slowest_sync: AtomicU64,
}

impl JournalMeter {
    /// Nothing so far.
    pub fn new() -> JournalMeter {
        JournalMeter {
            octets: AtomicU64::new(0),
            syncs: AtomicU64::new(0),
            slowest_sync: AtomicU64::new(0),
        }
    }

    /// The counts at this moment.
    pub fn read(&self) -> JournalCounts {
        JournalCounts {
            octets: self.octets.load(Ordering::Relaxed),
            syncs: self.syncs.load(Ordering::Relaxed),
            slowest_sync: self.slowest_sync.load(Ordering::Relaxed),
        }
    }

    /// So many octets were written.
    pub(crate) fn write(&self, octets: u64) {
        self.octets.fetch_add(octets, Ordering::Relaxed);
    }

    /// A sync ended, after this time if the clock could be read.
    pub(crate) fn sync(&self, time: Option<Duration>) {
        self.syncs.fetch_add(1, Ordering::Relaxed);
        if let Some(time) = time {
            let micros = u64::try_from(time.as_micros()).unwrap_or(u64::MAX);
            self.slowest_sync.fetch_max(micros, Ordering::Relaxed);
        }
    }
}
