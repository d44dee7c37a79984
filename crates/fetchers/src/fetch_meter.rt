//! What a fetcher could not fetch, counted for its operator, and what closed sites.
//! Read by a server for the verbs INFO and WHY and for `/metrics`.
use crate::closed_by::{ClosedBy, RobotsFault};
use crate::closing_notes::ClosingNotes;
use authority_cache::TurnNo;
use http_client::Failure;
use http_wire::{HttpReply, WireFault};
use std::alloc::{AllocError, Global};
use std::sync::atomic::{AtomicU64, Ordering};

/// How many fetches of robots.txt files failed, by cause.
#[derive(Clone, Copy, Debug, PartialEq, Eq)]
pub struct RobotsFaults {
    /// The host's name has no address, or can't be looked up.
    pub no_name: u64,
    /// Nothing accepts connections there, or there is no route.
    pub refused: u64,
    /// A time limit was exceeded.
    pub timed_out: u64,
    /// There is no TLS connection, or no program that opens one.
    pub tls: u64,
    /// A response of the status of a server's error.
    pub status: u64,
    /// Another cause.
    pub other: u64,
}

impl RobotsFaults {
    /// Of no fetch.
    pub fn none() -> RobotsFaults {
        RobotsFaults {
            no_name: 0,
            refused: 0,
            timed_out: 0,
            tls: 0,
            status: 0,
            other: 0,
        }
    }
}

#[derive(Drop)]
struct FaultCounters {
    no_name: AtomicU64,
    refused: AtomicU64,
    timed_out: AtomicU64,
    tls: AtomicU64,
    status: AtomicU64,
    other: AtomicU64,
}

/// Counts fetches, and notes what closed sites. Several threads may do so and read.
#[derive(Drop)]
pub struct FetchMeter {
    failed_robots: AtomicU64,
    faults: FaultCounters,
    notes: Option<ClosingNotes>,
}

impl FetchMeter {
    /// Nothing so far. It notes nothing of sites.
    pub fn new() -> FetchMeter {
        FetchMeter {
            failed_robots: AtomicU64::new(0),
            faults: FaultCounters::new(),
            notes: None,
        }
    }

    /// Nothing so far. It notes what closed sites, for the last 65,536 turns.
    pub fn with_notes(alloc: Global) -> Result<FetchMeter, AllocError> {
        Ok(FetchMeter {
            failed_robots: AtomicU64::new(0),
            faults: FaultCounters::new(),
            notes: Some(ClosingNotes::new(alloc)?),
        })
    }

    /// How many fetches of robots.txt files, and of what their redirects led to, gave no response or a
    /// server's error. Each closed its site (RFC 9309, section 2.3.1.4).
    pub fn failed_robots(&self) -> u64 {
        self.failed_robots.load(Ordering::Relaxed)
    }

    /// Those fetches by cause.
    pub fn robots_faults(&self) -> RobotsFaults {
        self.faults.read()
    }

    /// The answer that this turn brings closes its site, for this.
    pub fn note_closed(&self, turn: TurnNo, by: ClosedBy) {
        if let Some(notes) = &self.notes {
            notes.note(turn, by);
        }
    }

    /// What closed the site of this turn, if that was noted and has not been displaced since.
    pub fn closed_by(&self, turn: TurnNo) -> Option<ClosedBy> {
        match &self.notes {
            Some(notes) => notes.told(turn),
            None => None,
        }
    }

    /// A fetch of a robots.txt gave this, with this failure of its device, if any.
    pub(crate) fn note_robots(
        &self,
        given: &Result<HttpReply, WireFault>,
        failure: Option<Failure>,
    ) {
        if let Some(fault) = RobotsFault::of(ClosedBy::met(given, failure)) {
            self.failed_robots.fetch_add(1, Ordering::Relaxed);
            self.faults.of(fault).fetch_add(1, Ordering::Relaxed);
        }
    }
}

impl FaultCounters {
    fn new() -> FaultCounters {
        FaultCounters {
            no_name: AtomicU64::new(0),
            refused: AtomicU64::new(0),
            timed_out: AtomicU64::new(0),
            tls: AtomicU64::new(0),
            status: AtomicU64::new(0),
            other: AtomicU64::new(0),
        }
    }

    fn of(&self, fault: RobotsFault) -> &AtomicU64 {
        match fault {
            RobotsFault::NoName => &self.no_name,
            RobotsFault::Refused => &self.refused,
            RobotsFault::TimedOut => &self.timed_out,
            RobotsFault::Tls => &self.tls,
            RobotsFault::Status => &self.status,
            RobotsFault::Other => &self.other,
        }
    }

    fn read(&self) -> RobotsFaults {
        RobotsFaults {
            no_name: self.no_name.load(Ordering::Relaxed),
            refused: self.refused.load(Ordering::Relaxed),
            timed_out: self.timed_out.load(Ordering::Relaxed),
            tls: self.tls.load(Ordering::Relaxed),
            status: self.status.load(Ordering::Relaxed),
            other: self.other.load(Ordering::Relaxed),
        }
    }
}
