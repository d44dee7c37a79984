//! What a server counts of its clients and its fetches, for the verb INFO and for `/metrics`; and what closed
//! sites, for WHY.
//! A session without a server counts for itself.

use authority_cache::TurnNo;
use client_connections::Listener;
use crawl_job::Hop;
use fetchers::{ClosedBy, FetchMeter, RobotsFaults};
use gate_history::Cause;
use journal::{JournalCounts, JournalMeter};
use std::sync::atomic::{AtomicU64, Ordering};

/// How often asks and starts were denied, by cause.
#[derive(Clone, Copy, Debug, PartialEq, Eq)]
pub struct DenialCounts {
    /// By a line of a robots.txt.
    pub line: u64,
    /// By a closed site.
    pub closed: u64,
    /// For want of an answer.
    pub unknown: u64,
    /// By the age of the answer.
    pub expired: u64,
    /// For want of an unspent permit.
    pub spent: u64,
}

/// What a server has counted at one moment.
#[derive(Clone, Copy, Debug, PartialEq, Eq)]
pub struct ServerCounts {
    /// How many client connections were taken so far.
    pub connections: u64,
    /// How many clients are being served.
    pub clients: u64,
    /// How many have connected and wait for a worker, as the system tells it.
    pub waiting: u64,
    /// The denials that clients were told of.
    pub denials: DenialCounts,
    /// How many fetches of pages gave no response.
    pub failed_pages: u64,
    /// How many fetches of robots.txt files gave no response or a server's error.
    pub failed_robots: u64,
    /// Those fetches by cause.
    pub robots_faults: RobotsFaults,
    /// What its journal has written; nothing without one.
    pub journal: JournalCounts,
}

#[derive(Drop)]
struct DenialCounters {
    line: AtomicU64,
    closed: AtomicU64,
    unknown: AtomicU64,
    expired: AtomicU64,
    spent: AtomicU64,
}

/// The counts of a server's workers.
#[derive(Drop)]
pub struct ServerCounters<'a> {
    connections: AtomicU64,
    clients: AtomicU64,
    denials: DenialCounters,
    failed_pages: AtomicU64,
    listener: Option<&'a Listener>,
    fetches: Option<&'a FetchMeter>,
    journal: Option<&'a JournalMeter>,
}

impl<'a> ServerCounters<'a> {
    /// Nothing so far, beside where its clients wait and what counts for its fetcher and its journal, if
    /// anything does.
    pub fn new(
        listener: Option<&'a Listener>,
        fetches: Option<&'a FetchMeter>,
        journal: Option<&'a JournalMeter>,
    ) -> ServerCounters<'a> {
        ServerCounters {
            connections: AtomicU64::new(0),
            clients: AtomicU64::new(0),
            denials: DenialCounters::new(),
            failed_pages: AtomicU64::new(0),
            listener,
            fetches,
            journal,
        }
    }

    /// A client was taken.
    pub fn enter(&self) {
        self.connections.fetch_add(1, Ordering::Relaxed);
        self.clients.fetch_add(1, Ordering::Relaxed);
    }

    /// A client has left.
    pub fn leave(&self) {
        self.clients.fetch_sub(1, Ordering::Relaxed);
    }

    /// An ask or a start was denied.
    pub fn deny(&self, cause: Cause) {
        self.denials.of(cause).fetch_add(1, Ordering::Relaxed);
    }

    /// The fetch of a page gave no response.
    pub fn fail_page(&self) {
        self.failed_pages.fetch_add(1, Ordering::Relaxed);
    }

    /// A client is told of this hop.
    pub fn note_hop(&self, hop: &Hop) {
        match hop {
            Hop::No(denial) => self.deny(denial.cause),
            Hop::Fault { .. } => self.fail_page(),
            Hop::Page { .. } | Hop::Err(_) | Hop::Stop(_) => {}
        }
    }

    /// What closed the site of this turn, if its fetcher knows.
    pub fn closed_by(&self, turn: TurnNo) -> Option<ClosedBy> {
        match self.fetches {
            Some(meter) => meter.closed_by(turn),
            None => None,
        }
    }

    /// The counts at this moment.
    pub fn read(&self) -> ServerCounts {
        ServerCounts {
            connections: self.connections.load(Ordering::Relaxed),
            clients: self.clients.load(Ordering::Relaxed),
            waiting: match self.listener {
                Some(listener) => listener.waiting(),
                None => 0,
            },
            denials: self.denials.read(),
            failed_pages: self.failed_pages.load(Ordering::Relaxed),
            failed_robots: match self.fetches {
                Some(meter) => meter.failed_robots(),
                None => 0,
            },
            robots_faults: match self.fetches {
                Some(meter) => meter.robots_faults(),
                None => RobotsFaults::none(),
            },
            journal: match self.journal {
                Some(meter) => meter.read(),
                None => JournalCounts::none(),
            },
        }
    }
}

impl DenialCounters {
    fn new() -> DenialCounters {
        DenialCounters {
            line: AtomicU64::new(0),
            closed: AtomicU64::new(0),
            unknown: AtomicU64::new(0),
            expired: AtomicU64::new(0),
            spent: AtomicU64::new(0),
        }
    }

    fn of(&self, cause: Cause) -> &AtomicU64 {
        match cause {
            Cause::Line(_) => &self.line,
            Cause::Closed => &self.closed,
            Cause::Unknown => &self.unknown,
            Cause::Expired => &self.expired,
            Cause::Spent => &self.spent,
        }
    }

    fn read(&self) -> DenialCounts {
        DenialCounts {
            line: self.line.load(Ordering::Relaxed),
            closed: self.closed.load(Ordering::Relaxed),
            unknown: self.unknown.load(Ordering::Relaxed),
            expired: self.expired.load(Ordering::Relaxed),
            spent: self.spent.load(Ordering::Relaxed),
        }
    }
}
