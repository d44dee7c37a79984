//! A shift: several workers, each on its own thread, do the jobs of a list over one gate.
//! RFC 9309, sections 2.2 to 2.4, in the profile of docs/POLICY.md.
ghost use Rattle.std.specs.Prelude.{◌≡◌, ◌≤◌, [], All, IfOk, length, vec_len};
ghost use Rattle.worker_pool.specs.Pools.{ReturnEach};
ghost use Rattle.job_line.specs.Covers.{IsNew, parts_of};
ghost use Rattle.job_line.specs.Limits.{IsCrew, max_jobs, max_workers};
ghost use Rattle.crawl_workers.specs.Crews.{AreAllDone, Ends};
ghost use Rattle.crawl_workers.specs.Shifts.{AreAllJobs, IsShift};
ghost use Rattle.page_worker.specs.World.{world_of};

use crate::crew::{Crew, Work};
use crate::handover::Handover;
use crate::order::Order;
use crate::pace::{Pace, Pauses};
use crate::places::place_all;
use crate::report::{Crawled, Report, ShiftFault, Watcher};
use crate::sites::ShiftSites;
use crawl_job::Job;
use fetchers::Fetcher;
use gate_lock::{Gate, GateLock, Receipts};
use gate_settlement::settle;
use job_line::{JobLine, JobSeat};
use page_worker::Clock;
use std::alloc::{AllocError, Global};
use std::marker::Model;
use std::sync::Wait;
use std::thread::Threads;
use std::time;
use std::time::Duration;
use worker_pool::{Pool, Returned};

/// Does all jobs over a gate that has made no entry, by 1 to 16 workers without pauses, and settles the
/// gate: `ShiftCrew::run` without earlier receipts.
pub fn run_shift<
    G: Gate + Send + Sync,
    F: Fetcher + Sync,
    C: Clock + Sync,
    W: Watcher + Sync,
    R: Threads + Wait + time::Clock + Sync,
>(
    rt: &R,
    alloc: Global,
    jobs: &[Job],
    workers: u64,
    gate: &GateLock<G>,
    fetcher: &F,
    clock: &C,
    watcher: &W,
) -> Result<Report<G>, ShiftFault>
    requires jobs { length jobs.now ≤ max_jobs }
    requires workers { IsCrew workers }
    ensures { IfOk result
        (IsShift (world_of (F.gives fetcher.now) (F.follows fetcher.now) (C.reads clock.now))
        jobs.now workers []) }
{
    let crew = ShiftCrew {
        rt,
        alloc,
        workers,
        delay: Duration::ZERO,
        fetcher,
        clock,
        watcher,
    };
    crew.run(jobs, gate, Vec::new(alloc))
}

/// Who does the jobs of a shift: so many workers, from 1 to 16, who fetch with `fetcher` by `clock`.
/// `watcher` gets each job as soon as it is done.
///
/// Each fetch of a page begins no sooner than the delay after the begin of the fetch before it at the same
/// site, be that a page, a robots.txt or a redirect's target. Robots.txt files don't wait. While a site
/// rests, workers draw jobs of others. A delay of zero means no pauses.
#[derive(Drop)]
pub struct ShiftCrew<'a, F, C, W, R> {
    pub rt: &'a R,
    pub alloc: Global,
    pub workers: u64,
    pub delay: Duration,
    pub fetcher: &'a F,
    pub clock: &'a C,
    pub watcher: &'a W,
}

impl<
    F: Fetcher + Sync,
    C: Clock + Sync,
    W: Watcher + Sync,
    R: Threads + Wait + time::Clock + Sync,
> ShiftCrew<'_, F, C, W, R> {
    /// Does all jobs over a gate whose earlier entries have these receipts, and settles the gate by them and
    /// its own, which come first in the report. Each worker has its own thread, and one is the caller's; if a
    /// thread can't be had, its worker works before or after another on that one's thread.
    ///
    /// Workers draw from the sites in turn. While a site's robots.txt is fetched, no other worker draws its
    /// jobs. At most as many workers as a site has places do its jobs at once, and one less than all while
    /// other sites have jobs. The report keeps the order of the jobs, and its number of started fetches
    /// includes the earlier ones.
    ///
    /// Once the watcher says that the shift is over, no job is begun, and one that is not done by then counts
    /// as not done: if any is left, the fault is `Over`.
    ///
    /// A worker's fault is returned before one of settling. After a fault the shift has nothing outstanding,
    /// but its receipts are lost: a gate in which it made an entry can't be settled any more.
    pub fn run<G: Gate + Send + Sync>(
        &self,
        jobs: &[Job],
        gate: &GateLock<G>,
        past: Vec<Receipts<G>>,
    ) -> Result<Report<G>, ShiftFault>
        requires jobs { length jobs.now ≤ max_jobs }
        requires workers { IsCrew self.now.workers }
        ensures { IfOk result (IsShift
            (world_of (F.gives self.now.fetcher.now) (F.follows self.now.fetcher.now) (C.reads self.now.clock.now))
            jobs.now self.now.workers past.items) }
    {
        let AllDone {
            outcomes,
            drawn,
            mut receipts,
        } = self.do_jobs(jobs, gate)?;
        let mut past = past;
        receipts.append(&mut past)?;
        let settled = settle(self.rt, self.alloc, gate, &receipts)?;
        Ok(Report {
            outcomes,
            drawn,
            receipts,
            settled,
        })
    }

    // Does all jobs, before the gate is settled.
    fn do_jobs<G: Gate + Send + Sync>(
        &self,
        jobs: &[Job],
        gate: &GateLock<G>,
    ) -> Result<AllDone<G>, ShiftFault>
        requires jobs { length jobs.now ≤ max_jobs }
        requires workers { IsCrew self.now.workers }
        ensures { IfOk result (AreAllJobs
            (world_of (F.gives self.now.fetcher.now) (F.follows self.now.fetcher.now) (C.reads self.now.clock.now))
            jobs.now self.now.workers) }
    {
        let (rt, alloc, workers, delay) = (self.rt, self.alloc, self.workers, self.delay);
        let mut outcomes = no_outcomes(alloc, jobs.len())?;
        let Order {
            names,
            counts,
            numbers,
        } = Order::of_jobs(alloc, jobs)?;
        let places = gate.lend(rt).book().limits().places;
        let sites = ShiftSites::new(alloc, names, &counts, workers, places, delay)?;
        let (line, seats) = JobLine::of_sites(alloc, &counts, workers)?;
        let crew = Crew {
            jobs,
            line: &line,
            order: &numbers,
            counts: &counts,
            sites: &sites,
            fetcher: self.fetcher,
            clock: self.clock,
            watcher: self.watcher,
            pace: &Pauses {
                rt,
                watcher: self.watcher,
            },
        };
        let handover = crew.do_all(rt, alloc, gate, seats)?;
        let Handover {
            seats,
            drawn,
            done,
            receipts,
        } = handover;
        // A single worker has found the end of each site, so all seats together drew each job once.
        line.gather(seats);
        place_all(&mut outcomes, done);
        Ok(AllDone {
            outcomes,
            drawn,
            receipts,
        })
    }
}

// The results of all jobs, before the gate is settled.
#[derive(Drop)]
struct AllDone<G: Gate> {
    outcomes: Vec<Crawled>,
    drawn: Vec<Vec<u64>>,
    receipts: Vec<Receipts<G>>,
}

impl<G: Gate> Model for AllDone<G> {
    ghost use Rattle.std.specs.Prelude.{map};
    ghost use Rattle.crawl_workers.specs.Shifts.{DoneView};

    ghost Value = { DoneView };

    ghost view = { λ done. record {
      outcomes = done.outcomes.items;
      drawn = map (λ numbers. numbers.items) done.drawn.items;
      receipts = done.receipts.items;
    } };
}

// This many outcomes without hops.
fn no_outcomes(alloc: Global, count: usize) -> Result<Vec<Crawled>, AllocError>
    ensures { IfOk result (λ outcomes. vec_len outcomes ≡ count) }
{
    let mut outcomes = Vec::with_capacity(alloc, count)?;
    for _ in 0..count {
        outcomes.push_reserved(Crawled {
            hops: Vec::new(alloc),
        });
    }
    Ok(outcomes)
}

impl<F: Fetcher + Sync, C: Clock + Sync, W: Watcher + Sync, P: Pace + Sync> Crew<'_, F, C, W, P> {
    // Runs a worker for each seat, and takes what they hand over.
    fn do_all<G: Gate + Send + Sync, R: Threads + Wait + Sync>(
        &self,
        rt: &R,
        alloc: Global,
        gate: &GateLock<G>,
        seats: Vec<JobSeat>,
    ) -> Result<Handover<G>, ShiftFault>
        requires few { (1 ≤ vec_len seats) × (vec_len seats ≤ max_workers) }
        requires seats { All (IsNew self.now.line.now self.now.counts.now) seats.items }
        requires parts { parts_of seats.items ≡ max_workers }
        ensures { IfOk result (AreAllDone
            (world_of (F.gives self.now.fetcher.now) (F.follows self.now.fetcher.now) (C.reads self.now.clock.now))
            self.now.jobs.now self.now.order.now self.now.line.now self.now.counts.now
            (vec_len seats)) }
    {
        let handover = Handover::with_room(alloc)?;
        let pool = Pool::new(alloc, seats)?;
        let returned = self.run_workers(rt, alloc, gate, pool)?;
        Ok(handover.filled(returned))
    }

    // Runs each worker on its own thread, and the last one on this.
    fn run_workers<G: Gate + Send + Sync, R: Threads + Wait + Sync>(
        &self,
        rt: &R,
        alloc: Global,
        gate: &GateLock<G>,
        pool: Pool<JobSeat, Work, Receipts<G>, ShiftFault>,
    ) -> Result<Returned<Work, Receipts<G>>, ShiftFault>
        requires { All (IsNew self.now.line.now self.now.counts.now) pool }
        ensures { IfOk result (λ all. ReturnEach (Ends
            (world_of (F.gives self.now.fetcher.now) (F.follows self.now.fetcher.now) (C.reads self.now.clock.now))
            self.now.jobs.now self.now.order.now) pool all.works.items all.receipts.items) }
    {
        let crew = self;
        pool.run(
            rt,
            &|seat: JobSeat| -> Result<(Work, Receipts<G>), ShiftFault>
                requires { IsNew crew.now.line.now crew.now.counts.now seat }
                ensures { Ends
                    (world_of (F.gives crew.entry.now.fetcher.now) (F.follows crew.entry.now.fetcher.now)
                    (C.reads crew.entry.now.clock.now))
                    crew.entry.now.jobs.now crew.entry.now.order.now seat result }
            { crew.run_worker(rt, alloc, gate, seat) },
        )
    }
}
