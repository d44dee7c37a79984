//! A server, from its first client until its gate is settled.
ghost use Rattle.std.specs.Prelude.{◌≡◌, IfOk};
ghost use Rattle.job_line.specs.Limits.{IsCrew};
ghost use Rattle.line_server.specs.Servers.{HasLast, IsServed};

use crate::fault::ServeFault;
use crate::http_serving::HttpEntrance;
use crate::line_turns::LineTurns;
use crate::numbers::{ConnectionNumbers, count_of, numbers_at};
use crate::recorded::Recorded;
use crate::warden::Alarm;
use client_connections::{Connections, Listener};
use command_server::{NumberedClock, ServerCounters};
use fetchers::Fetcher;
use gate_journal::Recording;
use gate_lock::{Gate, GateLock, Receipts};
use gate_settlement::{Settled, settle};
use job_line::JobLine;
use journal::Recorder;
use keepers::Bounds;
use path_normal::Authority;
use std::alloc::{AllocError, Global};
use std::sync::Wait;
use std::sync::atomic::AtomicU64;
use std::thread::Threads;
use std::time::Duration;
use std::{thread, time};
use worker_pool::{Pool, Returned};

/// A server's settings: who serves clients and how many, and who fetches.
#[derive(Drop)]
pub struct Server<'a, F, C, A, R: Wait + time::Clock> {
    pub rt: &'a R,
    pub alloc: Global,
    pub listener: &'a Listener,
    /// Where overseers connect beside clients, if allowed.
    pub overseers: Option<&'a Listener>,
    /// Where clients of HTTP connect beside them, if allowed.
    pub http: Option<&'a HttpEntrance<'a, R>>,
    pub fetcher: &'a F,
    pub clock: &'a C,
    /// Called when the history is full.
    pub alarm: &'a A,
    /// Clients served at once, from 1 to 16.
    pub workers: u64,
    /// After how many connections it ends.
    pub connections: Connections,
    /// How long a client is waited for.
    pub patience: Duration,
    /// The limit of fetching for lines that a client has sent ahead, if any.
    pub ahead: Option<Duration>,
    /// A client's limits at the gate.
    pub bounds: Bounds,
}

/// The result of a server.
#[derive(Drop)]
pub struct Served<G: Gate> {
    /// Accepted connections.
    pub connections: u64,
    /// The gate, settled.
    pub settled: Settled<G>,
    /// The desks' receipts that settled it.
    pub receipts: Vec<Receipts<G>>,
}

// The workers of a server, and the connections that each took.
type Workers<'l, G> = Pool<ConnectionNumbers<'l>, u64, Receipts<G>, ServeFault>;

// The results of the workers, and of the jobs beside them, each at its own desk, if asked for.
#[derive(Drop)]
struct Results<G: Gate> {
    served: Result<Returned<u64, Receipts<G>>, ServeFault>,
    overseen: Option<Result<Receipts<G>, ServeFault>>,
    visited: Option<Result<Vec<Receipts<G>>, ServeFault>>,
    fetched: Option<Result<Receipts<G>, ServeFault>>,
}

impl<
    F: Fetcher + Sync,
    C: NumberedClock + Sync,
    A: Alarm + Sync,
    R: Threads + Wait + time::Clock + Sync,
> Server<'_, F, C, A, R> {
    /// Serves clients over a gate, and settles it, with the receipts of its earlier entries too, which come
    /// last. Each worker has its own thread, as far as there are threads. What a session left open is given
    /// back at its end, whatever ended it, so clients' faults don't affect the gate. The robots.txt files of
    /// these sites, whose fetches were interrupted, are fetched anew on their own thread.
    ///
    /// With a journal a reply is sent, and a page or robots.txt fetched, only after all earlier entries are
    /// recorded. If recording fails, each session ends at its next write, no more clients are accepted, and
    /// this returns a fault.
    pub fn run<G: Gate + Send + Sync, J: Recorder + Sync>(
        &self,
        gate: &GateLock<G>,
        past: Receipts<G>,
        begun: &[Authority],
        journal: &J,
    ) -> Result<Served<G>, ServeFault>
        requires { IsCrew self.now.workers }
        ensures served { IfOk result (λ served. IsServed served.receipts.items served.settled) }
        ensures past { IfOk result (λ served. HasLast past served.receipts.items) }
    {
        let (connections, mut receipts) = self.serve_gate(gate, journal, begun)?;
        receipts.push(past).map_err(AllocError::from)?;
        let settled = settle(self.rt, self.alloc, gate, &receipts)?;
        Ok(Served {
            connections,
            settled,
            receipts,
        })
    }

    // The accepted connections, and the receipts of all desks.
    fn serve_gate<G: Gate + Send + Sync, J: Recorder + Sync>(
        &self,
        gate: &GateLock<G>,
        journal: &J,
        begun: &[Authority],
    ) -> Result<(u64, Vec<Receipts<G>>), ServeFault>
        requires { IsCrew self.now.workers }
    {
        let chronicle = Recording {
            alloc: self.alloc,
            rt: self.rt,
            shared: gate.shared(),
        };
        let recorded = Recorded {
            gate,
            chronicle,
            journal,
            counters: ServerCounters::new(
                Some(self.listener),
                self.fetcher.meter(),
                journal.meter(),
            ),
            turns: LineTurns::new(),
        };
        let served = self.serve_recorded(&recorded, begun)?;
        // Entries without a reply are recorded too.
        journal.see_to(self.rt, &recorded.chronicle)?;
        Ok(served)
    }

    fn serve_recorded<G: Gate + Send + Sync, J: Recorder + Sync>(
        &self,
        recorded: &Recorded<'_, G, J, R>,
        begun: &[Authority],
    ) -> Result<(u64, Vec<Receipts<G>>), ServeFault>
        requires { IsCrew self.now.workers }
    {
        let (line, seats) = JobLine::new(self.alloc, count_of(self.connections), self.workers)?;
        let workers = Pool::new(self.alloc, numbers_at(self.alloc, &line, seats)?)?;
        self.serve_all(recorded, workers, begun)
    }

    // Runs the workers on their own threads, and the gate's maintenance on another: the accepted connections,
    // and all receipts. Without threads, what is named first runs last: then there is no work left for it.
    fn serve_all<G: Gate + Send + Sync, J: Recorder + Sync>(
        &self,
        recorded: &Recorded<'_, G, J, R>,
        workers: Workers<'_, G>,
        begun: &[Authority],
    ) -> Result<(u64, Vec<Receipts<G>>), ServeFault> {
        let left = AtomicU64::new(self.workers);
        let (watched, results) = thread::join(
            self.rt,
            || self.watch(recorded, &left),
            || self.employ_overseen(recorded, &left, workers, begun),
        );
        let (swept, sealed) = watched?;
        gathered(self.alloc, swept, sealed, results)
    }

    // Runs the workers, and serves overseers beside them until none is left, if allowed.
    fn employ_overseen<G: Gate + Send + Sync, J: Recorder + Sync>(
        &self,
        recorded: &Recorded<'_, G, J, R>,
        left: &AtomicU64,
        workers: Workers<'_, G>,
        begun: &[Authority],
    ) -> Results<G> {
        let Some(listener) = self.overseers else {
            return self.employ_visiting(recorded, left, workers, begun);
        };
        let (overseen, results) = thread::join(
            self.rt,
            || self.oversee(recorded, listener, left),
            || {
                let results = self.employ_visiting(recorded, left, workers, begun);
                self.shut(listener);
                results
            },
        );
        let Results {
            served,
            visited,
            fetched,
            ..
        } = results;
        Results {
            served,
            overseen: Some(overseen),
            visited,
            fetched,
        }
    }

    // Runs the workers, and serves clients of HTTP beside them until none is left, if allowed. If these can't
    // be served, no more clients are accepted, and the server ends.
    fn employ_visiting<G: Gate + Send + Sync, J: Recorder + Sync>(
        &self,
        recorded: &Recorded<'_, G, J, R>,
        left: &AtomicU64,
        workers: Workers<'_, G>,
        begun: &[Authority],
    ) -> Results<G> {
        let Some(entrance) = self.http else {
            return self.employ_fetching(recorded, left, workers, begun);
        };
        let (visited, results) = thread::join(
            self.rt,
            || {
                let visited = self.serve_http(recorded, entrance);
                if visited.is_err() {
                    self.shut(self.listener);
                }
                visited
            },
            || self.fetch_and_shut(recorded, left, workers, begun, entrance),
        );
        let Results {
            served,
            fetched,
            ..
        } = results;
        Results {
            served,
            overseen: None,
            visited: Some(visited),
            fetched,
        }
    }

    // Runs the workers beside clients of HTTP, whose turns end once no worker is left.
    fn fetch_and_shut<G: Gate + Send + Sync, J: Recorder + Sync>(
        &self,
        recorded: &Recorded<'_, G, J, R>,
        left: &AtomicU64,
        workers: Workers<'_, G>,
        begun: &[Authority],
        entrance: &HttpEntrance<'_, R>,
    ) -> Results<G> {
        let results = self.employ_fetching(recorded, left, workers, begun);
        entrance.dispatcher.shut(self.rt);
        results
    }

    // Runs the workers, and fetches these sites anew beside them, if any.
    fn employ_fetching<G: Gate + Send + Sync, J: Recorder + Sync>(
        &self,
        recorded: &Recorded<'_, G, J, R>,
        left: &AtomicU64,
        workers: Workers<'_, G>,
        begun: &[Authority],
    ) -> Results<G> {
        if begun.is_empty() {
            return Results {
                served: self.employ_all(recorded, left, workers),
                overseen: None,
                visited: None,
                fetched: None,
            };
        }
        let (served, fetched) = thread::join(
            self.rt,
            || self.employ_all(recorded, left, workers),
            || self.fetch_begun(recorded, left, begun),
        );
        Results {
            served,
            overseen: None,
            visited: None,
            fetched: Some(fetched),
        }
    }

    // Runs each worker on its own thread.
    fn employ_all<G: Gate + Send + Sync, J: Recorder + Sync>(
        &self,
        recorded: &Recorded<'_, G, J, R>,
        left: &AtomicU64,
        workers: Workers<'_, G>,
    ) -> Result<Returned<u64, Receipts<G>>, ServeFault> {
        workers.run(
            self.rt,
            &|numbers: ConnectionNumbers<'_>| self.employ(recorded, left, numbers),
        )
    }
}

// The accepted connections, and all receipts.
fn gathered<G: Gate>(
    alloc: Global,
    swept: Receipts<G>,
    sealed: Receipts<G>,
    results: Results<G>,
) -> Result<(u64, Vec<Receipts<G>>), ServeFault> {
    let Results {
        served,
        overseen,
        visited,
        fetched,
    } = results;
    let mut receipts = Vec::new(alloc);
    receipts.push(swept).map_err(AllocError::from)?;
    receipts.push(sealed).map_err(AllocError::from)?;
    for end in [overseen, fetched] {
        if let Some(end) = end {
            receipts.push(end?).map_err(AllocError::from)?;
        }
    }
    if let Some(visited) = visited {
        receipts.append(&mut visited?)?;
    }
    let mut served = served?;
    receipts.append(&mut served.receipts)?;
    let connections = served
        .works
        .iter()
        .fold(0u64, |all, taken| all.saturating_add(*taken));
    Ok((connections, receipts))
}
