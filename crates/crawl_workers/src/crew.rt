//! The workers of a shift: each draws jobs at the sites that it enters, and does them at its own desk.
//! Called by `run_shift`, once for each worker.
ghost use Rattle.std.specs.Prelude.{◌≡◌, ◌<◌, ◌++◌, ◌∷◌, [], false, IfOk, OnOk, Some, length, true};
ghost use Rattle.std.specs.List.{slice_get};
ghost use Rattle.gate_lock.specs.Desks.{KeepsOut, receipt_of};
ghost use Rattle.gate_marks.specs.Marks.{nothing_sealed};
ghost use Rattle.job_line.specs.Covers.{IsNew, ended_at};
ghost use Rattle.crawl_workers.specs.Crews.{DoesJob, Ends, HasDone, HasEnded, HasWorked, IsAtLine, IsNewWork, StaysAt};
ghost use Rattle.crawl_workers.specs.Orders.{IsOrder};
ghost use Rattle.page_worker.specs.World.{world_of};

use crate::pace::Pace;
use crate::report::{Crawled, ShiftFault, Watcher};
use crate::sites::ShiftSites;
use crawl_job::{Job, Outcome};
use fetchers::Fetcher;
use gate_lock::{Desk, Gate, GateLock, Receipts};
use job_line::{JobLine, JobSeat};
use page_worker::{Clock, Event, EventObserver, work_observed};
use std::alloc::Global;
use std::marker::Model;
use std::sync::Wait;

/// What a shift's workers share.
#[derive(Drop)]
pub(crate) struct Crew<'a, F, C, W, P> {
    pub(crate) jobs: &'a [Job],
    pub(crate) line: &'a JobLine,
    /// The number of the job at each index of the line, and how many jobs each site has.
    pub(crate) order: &'a [u64],
    pub(crate) counts: &'a [u64],
    pub(crate) sites: &'a ShiftSites,
    pub(crate) fetcher: &'a F,
    pub(crate) clock: &'a C,
    pub(crate) watcher: &'a W,
    pub(crate) pace: &'a P,
    ghost is_order: { IsOrder (length jobs.now) counts.now order.now },
}

// Receives the events of a numbered job: the sites, of robots.txt files and fetches, and the watcher.
#[derive(Drop)]
struct Notifier<'t, W: Watcher, P: Pace, R: Wait> {
    rt: &'t R,
    sites: &'t ShiftSites,
    watcher: &'t W,
    pace: &'t P,
    number: u64,
}

impl<W: Watcher, P: Pace, R: Wait> EventObserver for Notifier<'_, W, P, R> {
    fn sees(&self, event: Event<'_>) {
        match event {
            Event::AsksRobots(authority) => self.sites.asks(self.rt, authority),
            Event::Answered(authority) => self.sites.answered(self.rt, authority),
            _ => {}
        }
        self.watcher.sees(self.number, event);
    }

    fn awaits_turn(&self, authority: &str) {
        self.sites.await_turn(self.rt, self.pace, authority);
    }

    fn begins_at(&self, authority: &str) {
        self.sites.note_fetch(self.rt, self.pace, authority);
    }
}

/// A job that was done: its number and its kept outcome.
#[derive(Drop)]
pub(crate) struct Done {
    pub(crate) number: u64,
    pub(crate) crawled: Crawled,
}

/// A worker's progress: its seat at the line, the numbers of the jobs that it drew, and their outcomes in
/// this order.
#[derive(Drop)]
pub(crate) struct Work {
    pub(crate) seat: JobSeat,
    pub(crate) drawn: Vec<u64>,
    pub(crate) done: Vec<Done>,
}

impl Model for Work {
    ghost use Rattle.crawl_workers.specs.Crews.{WorkView};

    ghost Value = { WorkView };

    ghost view = { λ work. record {
      seat = work.seat;
      drawn = work.drawn.items;
      done = work.done.items;
    } };
}

impl<F: Fetcher, C: Clock, W: Watcher, P: Pace> Crew<'_, F, C, W, P> {
    /// Opens a desk for the worker of this seat, does jobs until none is left, and closes the desk whatever
    /// happened.
    pub(crate) fn run_worker<G: Gate, R: Wait>(
        &self,
        rt: &R,
        alloc: Global,
        gate: &GateLock<G>,
        seat: JobSeat,
    ) -> Result<(Work, Receipts<G>), ShiftFault>
        requires { IsNew self.now.line.now self.now.counts.now seat }
        ensures { Ends (world_of (F.gives self.now.fetcher.now) (F.follows self.now.fetcher.now)
            (C.reads self.now.clock.now))
            self.now.jobs.now self.now.order.now seat result }
    {
        let mut work = Work {
            seat,
            drawn: Vec::new(alloc),
            done: Vec::new(alloc),
        };
        let mut desk = gate.desk(rt, alloc)?;
        let ended = self.draw_all(rt, alloc, &mut desk, &mut work);
        let receipts = desk.close();
        ended?;
        Ok((work, receipts))
    }

    // Enters sites while there is a job to enter for, drawing and doing one job at each, and then does the
    // rest. A worker that ends well has found the end of each site.
    fn draw_all<G: Gate, R: Wait>(
        &self,
        rt: &R,
        alloc: Global,
        desk: &mut Desk<'_, G>,
        work: &mut Work,
    ) -> Result<(), ShiftFault>
        requires new { IsNewWork self.now.line.now self.now.counts.now work.old
            × (receipt_of desk.old ≡ record { sealed = nothing_sealed; marks = [] }) }
        ensures out { KeepsOut desk.old desk.new }
        ensures seat { StaysAt work.old.seat work.new.seat }
        ensures ok { OnOk result (HasEnded
            (world_of (F.gives self.now.fetcher.now) (F.follows self.now.fetcher.now) (C.reads self.now.clock.now))
            self.now.jobs.now self.now.order.now work.new (receipt_of desk.new)) }
    {
        'draws: for _ in rt.forever() {
            let Some(site) = self.sites.enter(rt, self.pace) else {
                return self.draw_rest(rt, alloc, desk, work);
            };
            let drew = self.draw_one(rt, alloc, site, desk, work);
            self.sites.leave(rt, site);
            drew?;
        }
        unreachable!()
    }

    // Draws at each site, in order, to its end. A job found there is one that another worker entered for
    // but has not drawn; that worker then finds one job less.
    fn draw_rest<G: Gate, R: Wait>(
        &self,
        rt: &R,
        alloc: Global,
        desk: &mut Desk<'_, G>,
        work: &mut Work,
    ) -> Result<(), ShiftFault>
        requires seat { IsAtLine self.now.line.now self.now.counts.now work.old.seat }
        requires so_far { HasWorked
            (world_of (F.gives self.now.fetcher.now) (F.follows self.now.fetcher.now) (C.reads self.now.clock.now))
            self.now.jobs.now self.now.order.now work.old (receipt_of desk.old) }
        ensures out { KeepsOut desk.old desk.new }
        ensures seat { StaysAt work.old.seat work.new.seat }
        ensures ok { OnOk result (HasEnded
            (world_of (F.gives self.now.fetcher.now) (F.follows self.now.fetcher.now) (C.reads self.now.clock.now))
            self.now.jobs.now self.now.order.now work.new (receipt_of desk.new)) }
    {
        for site in 0..self.counts.len() {
            self.draw_to_end(rt, alloc, site, desk, work)?;
        }
        Ok(())
    }

    // Draws and does a site's jobs to its end.
    fn draw_to_end<G: Gate, R: Wait>(
        &self,
        rt: &R,
        alloc: Global,
        site: usize,
        desk: &mut Desk<'_, G>,
        work: &mut Work,
    ) -> Result<(), ShiftFault>
        requires seat { IsAtLine self.now.line.now self.now.counts.now work.old.seat }
        requires so_far { HasWorked
            (world_of (F.gives self.now.fetcher.now) (F.follows self.now.fetcher.now) (C.reads self.now.clock.now))
            self.now.jobs.now self.now.order.now work.old (receipt_of desk.old) }
        requires site { site < length self.now.counts.now }
        ensures out { KeepsOut desk.old desk.new }
        ensures seat { StaysAt work.old.seat work.new.seat }
        ensures ok { OnOk result (HasWorked
            (world_of (F.gives self.now.fetcher.now) (F.follows self.now.fetcher.now) (C.reads self.now.clock.now))
            self.now.jobs.now self.now.order.now work.new (receipt_of desk.new)
            × (ended_at site work.new.seat ≡ true)) }
    {
        'draws: for _ in rt.forever() {
            if !self.draw_one(rt, alloc, site, desk, work)? {
                return Ok(());
            }
        }
        unreachable!()
    }

    // Draws and does a job at a site; false if there was none. Once the shift is over a drawn job is not done.
    fn draw_one<G: Gate, R: Wait>(
        &self,
        rt: &R,
        alloc: Global,
        site: usize,
        desk: &mut Desk<'_, G>,
        work: &mut Work,
    ) -> Result<bool, ShiftFault>
        requires seat { IsAtLine self.now.line.now self.now.counts.now work.old.seat }
        requires so_far { HasWorked
            (world_of (F.gives self.now.fetcher.now) (F.follows self.now.fetcher.now) (C.reads self.now.clock.now))
            self.now.jobs.now self.now.order.now work.old (receipt_of desk.old) }
        ensures out { KeepsOut desk.old desk.new }
        ensures seat { StaysAt work.old.seat work.new.seat }
        ensures ok { OnOk result (HasWorked
            (world_of (F.gives self.now.fetcher.now) (F.follows self.now.fetcher.now) (C.reads self.now.clock.now))
            self.now.jobs.now self.now.order.now work.new (receipt_of desk.new)) }
        ensures end { IfOk result (λ drew. drew ≡ false → site < length self.now.counts.now
            → ended_at site work.new.seat ≡ true) }
    {
        let Some(index) = self.line.draw_at(&mut work.seat, site) else {
            return Ok(false);
        };
        if self.watcher.is_over() {
            return Err(ShiftFault::Over);
        }
        let number = self.order[index as usize];
        self.do_next(rt, alloc, number, desk, work)?;
        Ok(true)
    }

    // Does the numbered job. The memory for its outcome is allocated before.
    fn do_next<G: Gate, R: Wait>(
        &self,
        rt: &R,
        alloc: Global,
        number: u64,
        desk: &mut Desk<'_, G>,
        work: &mut Work,
    ) -> Result<(), ShiftFault>
        requires job { number < length self.now.jobs.now }
        requires so_far { HasDone
            (world_of (F.gives self.now.fetcher.now) (F.follows self.now.fetcher.now) (C.reads self.now.clock.now))
            self.now.jobs.now work.old.drawn work.old.done (receipt_of desk.old) }
        ensures out { KeepsOut desk.old desk.new }
        ensures seat { work.new.seat ≡ work.old.seat }
        ensures drawn { OnOk result (work.new.drawn ≡ work.old.drawn ++ number ∷ []) }
        ensures ok { OnOk result (HasDone
            (world_of (F.gives self.now.fetcher.now) (F.follows self.now.fetcher.now) (C.reads self.now.clock.now))
            self.now.jobs.now work.new.drawn work.new.done (receipt_of desk.new)) }
    {
        work.drawn.reserve(1)?;
        work.done.reserve(1)?;
        let job = &self.jobs[number as usize];
        let did = self.do_job(rt, alloc, number, job, desk)?;
        work.drawn.push_reserved(number);
        work.done.push_reserved(did);
        Ok(())
    }

    // Does a job and reports it. Its body is dropped here. A job that the end of the shift cut off is not done.
    fn do_job<G: Gate, R: Wait>(
        &self,
        rt: &R,
        alloc: Global,
        number: u64,
        job: &Job,
        desk: &mut Desk<'_, G>,
    ) -> Result<Done, ShiftFault>
        requires { slice_get self.now.jobs.now number ≡ Some job.now }
        ensures number { IfOk result (λ done. done.number ≡ number) }
        ensures out { KeepsOut desk.old desk.new }
        ensures ok { IfOk result (λ done. DoesJob
            (world_of (F.gives self.now.fetcher.now) (F.follows self.now.fetcher.now) (C.reads self.now.clock.now))
            self.now.jobs.now done desk.old desk.new) }
    {
        let notifier = Notifier {
            rt,
            sites: self.sites,
            watcher: self.watcher,
            pace: self.pace,
            number,
        };
        let (fetcher, clock) = (self.fetcher, self.clock);
        let outcome = work_observed(rt, alloc, job.copy()?, desk, fetcher, clock, &notifier)?;
        if self.watcher.is_over() {
            return Err(ShiftFault::Over);
        }
        self.watcher.done(number, job, &outcome);
        let Outcome { hops, body: _ } = outcome;
        Ok(Done {
            number,
            crawled: Crawled { hops },
        })
    }
}
