//! A shift over job lines: several workers do the jobs, and the results are written.
//! `crawlgate shift` runs it over standard input and output.
ghost use Rattle.std.specs.Prelude.{◌≡◌, ◌≤◌, [], IfOk, OnOk, length};
ghost use Rattle.crawl_workers.specs.Shifts.{IsShift};
ghost use Rattle.page_worker.specs.World.{world_of};
ghost use Rattle.job_line.specs.Limits.{IsCrew, max_jobs};
ghost use Rattle.crawl_shift.specs.Histories.{AreWholeHistory, DoesJobs, WritesHistory, WritesJobs, WritesReceipts};

use crate::both::Both;
use crate::early_end::{EarlyEnd, UntilEnd};
use crate::flushing::{Flushes, ShiftWork, flush_in_time};
use crate::job_lines::{BadLines, read_job_lines};
use crate::not_shifted::NotShifted;
use crate::progress::Progress;
use crate::status_line::StatusLine;
use crate::table::Table;
use counted_io::{DeviceFault, Output, Sink, Source};
use crawl_job::Job;
use crawl_workers::{Report, ShiftCrew, ShiftFault, Watcher};
use fetchers::Fetcher;
use gate_lock::{Gate, GateLock, Held, Receipts};
use gate_settlement::{SettleFault, settle_in};
use history_text::export;
use page_worker::Clock;
use std::alloc::Global;
use std::sync::Wait;
use std::thread::Threads;
use std::time::Duration;
use std::{thread, time};

/// The settings of a shift: how many workers fetch with `fetcher` by `clock`, the delay between the begins
/// of two fetches at a site, the `status` line, and what may end it `early`.
#[derive(Drop)]
pub struct Shift<'a, 's, E: Sink, F, C, R: Wait + time::Clock> {
    pub rt: &'a R,
    pub alloc: Global,
    pub workers: u64,
    pub delay: Duration,
    pub fetcher: &'a F,
    pub clock: &'a C,
    pub status: &'a StatusLine<'s, E, R>,
    pub early: &'a EarlyEnd<'s, R>,
}

impl<
    E: Sink + Send,
    F: Fetcher + Sync,
    C: Clock + Sync,
    R: Threads + Wait + time::Clock + Sync,
> Shift<'_, '_, E, F, C, R> {
    /// Reads the jobs to the end of the input, does them over the gate, and writes the report. Nothing is
    /// fetched if a line can't be read as a job, or after a failed write of the report.
    pub fn report_lines<G: Gate + Send + Sync, S: Source, W: Sink + Send>(
        &self,
        reader: &mut S,
        writer: &mut W,
        gate: &GateLock<G>,
    ) -> Result<(), NotShifted>
        requires { IsCrew self.now.workers }
    {
        let lines = read_job_lines(self.alloc, self.fetcher.schemes(), BadLines::End, reader)?;
        self.report(
            lines.jobs.as_slice(),
            writer,
            gate,
            Vec::new(self.alloc),
            &(),
        )
    }

    /// Does these jobs over a gate with these receipts of earlier entries, and writes the report, with the
    /// starts of its own jobs; the watcher gets their events too. After a failed write of the report nothing
    /// more is fetched. If the shift ends early, the report has the jobs that are done, and its last line how
    /// many are left.
    pub fn report<G: Gate + Send + Sync, W: Sink + Send, V: Watcher + Sync>(
        &self,
        jobs: &[Job],
        writer: &mut W,
        gate: &GateLock<G>,
        past: Vec<Receipts<G>>,
        watcher: &V,
    ) -> Result<(), NotShifted>
        requires jobs { length jobs.now ≤ max_jobs }
        requires workers { IsCrew self.now.workers }
        ensures { OnOk result (DoesJobs
            (world_of (F.gives self.now.fetcher.now) (F.follows self.now.fetcher.now) (C.reads self.now.clock.now))
            self.now.workers jobs.now past.items) }
    {
        let before = starts_of(past.as_slice());
        let progress = Progress::new(self.rt, self.alloc, writer, self.fetcher, jobs.len())?;
        match self.run_flushed(jobs, gate, past, &progress, watcher) {
            Ok(report) => {
                let starts = report.settled.starts().saturating_sub(before);
                progress.finish(report.outcomes.as_slice(), starts)?;
                Ok(())
            }
            Err(fault) => Err(self.end_report(progress, fault, jobs.len() as u64)),
        }
    }

    // Ends a report after a fault, with the jobs that are done if the shift ended early.
    fn end_report<W: Sink>(
        &self,
        progress: Progress<'_, '_, W, F, R>,
        fault: ShiftFault,
        jobs: u64,
    ) -> NotShifted {
        if fault != ShiftFault::Over {
            return NotShifted::from(fault);
        }
        let done = self.early.sums();
        match progress.end(done, jobs.saturating_sub(done.jobs)) {
            Ok(()) => NotShifted::Over,
            Err(fault) => fault,
        }
    }

    /// Does these jobs over a gate with these receipts of earlier entries, and writes a table: a line for each
    /// hop soon after its end, also if the shift ends early.
    pub fn table<G: Gate + Send + Sync, W: Sink + Send>(
        &self,
        jobs: &[Job],
        writer: &mut W,
        gate: &GateLock<G>,
        past: Vec<Receipts<G>>,
    ) -> Result<(), NotShifted>
        requires jobs { length jobs.now ≤ max_jobs }
        requires workers { IsCrew self.now.workers }
        ensures { OnOk result (DoesJobs
            (world_of (F.gives self.now.fetcher.now) (F.follows self.now.fetcher.now) (C.reads self.now.clock.now))
            self.now.workers jobs.now past.items) }
    {
        let table = Table::new(self.rt, self.alloc, writer, self.fetcher)?;
        let ran = self.run_flushed(jobs, gate, past, &table, &());
        let wrote = table.finish();
        match ran {
            Ok(_) => {
                wrote?;
                Ok(())
            }
            Err(ShiftFault::Over) => {
                wrote?;
                Err(NotShifted::Over)
            }
            Err(fault) => Err(NotShifted::from(fault)),
        }
    }

    /// Does these jobs over the gate, and writes its history by the workers' receipts; the watcher gets their
    /// events. An audit of it shows that each page was allowed when its fetch began. If the shift ends early,
    /// the history is written as it stands; after another fault nothing is.
    pub fn history<G: Gate + Send + Sync, W: Sink, V: Watcher + Sync>(
        &self,
        jobs: &[Job],
        writer: &mut W,
        gate: &GateLock<G>,
        watcher: &V,
    ) -> Result<(), NotShifted>
        requires jobs { length jobs.now ≤ max_jobs }
        requires workers { IsCrew self.now.workers }
        ensures { OnOk result (WritesJobs
            (world_of (F.gives self.now.fetcher.now) (F.follows self.now.fetcher.now) (C.reads self.now.clock.now))
            self.now.workers jobs.now (W.written writer.old) (W.written writer.new)) }
    {
        let mut output = Output::new(self.alloc)?;
        let ran = self.run_flushed(jobs, gate, Vec::new(self.alloc), &(), watcher);
        match ran {
            Ok(report) => {
                let held = gate.lend(self.rt);
                write_receipts(self.alloc, &held, &report.receipts, &mut output, writer)
            }
            Err(ShiftFault::Over) => {
                write_as_it_stands(&gate.lend(self.rt), &mut output, writer)?;
                Err(NotShifted::Over)
            }
            Err(fault) => Err(NotShifted::from(fault)),
        }
    }

    // Like `run_both`, with a thread that flushes the first watcher in time, and stops the fetches if the shift
    // is to end early. Without a second thread each line is written at once.
    fn run_flushed<G: Gate + Send + Sync, A: Watcher + Flushes + Sync, B: Watcher + Sync>(
        &self,
        jobs: &[Job],
        gate: &GateLock<G>,
        past: Vec<Receipts<G>>,
        first: &A,
        second: &B,
    ) -> Result<Report<G>, ShiftFault>
        requires jobs { length jobs.now ≤ max_jobs }
        requires workers { IsCrew self.now.workers }
        ensures { IfOk result (IsShift
            (world_of (F.gives self.now.fetcher.now) (F.follows self.now.fetcher.now) (C.reads self.now.clock.now))
            jobs.now self.now.workers past.items) }
    {
        let work = ShiftWork::not_begun();
        let until = UntilEnd {
            early: self.early,
            fetcher: self.fetcher,
            watcher: first,
        };
        self.early.expect(jobs.len())?;
        let (report, ()) = thread::join(
            self.rt,
            || -> Result<Report<G>, ShiftFault>
                requires jobs { length jobs.now ≤ max_jobs }
                requires workers { IsCrew self.now.workers }
            { self.run_to_end(jobs, gate, past, &until, second, &work) },
            || flush_in_time(self.rt, &until, &work),
        );
        report
    }

    // Like `run_both`, and says when the work begins and ends.
    fn run_to_end<G: Gate + Send + Sync, A: Watcher + Sync, B: Watcher + Sync>(
        &self,
        jobs: &[Job],
        gate: &GateLock<G>,
        past: Vec<Receipts<G>>,
        first: &A,
        second: &B,
        work: &ShiftWork,
    ) -> Result<Report<G>, ShiftFault>
        requires jobs { length jobs.now ≤ max_jobs }
        requires workers { IsCrew self.now.workers }
        ensures { IfOk result (IsShift
            (world_of (F.gives self.now.fetcher.now) (F.follows self.now.fetcher.now) (C.reads self.now.clock.now))
            jobs.now self.now.workers past.items) }
    {
        work.begin(self.rt);
        let report = self.run_both(jobs, gate, past, first, second);
        work.end(self.rt);
        report
    }

    // Does the jobs for both watchers and the status line.
    fn run_both<G: Gate + Send + Sync, A: Watcher + Sync, B: Watcher + Sync>(
        &self,
        jobs: &[Job],
        gate: &GateLock<G>,
        past: Vec<Receipts<G>>,
        first: &A,
        second: &B,
    ) -> Result<Report<G>, ShiftFault>
        requires jobs { length jobs.now ≤ max_jobs }
        requires workers { IsCrew self.now.workers }
        ensures { IfOk result (IsShift
            (world_of (F.gives self.now.fetcher.now) (F.follows self.now.fetcher.now) (C.reads self.now.clock.now))
            jobs.now self.now.workers past.items) }
    {
        let both = Both { first, second };
        self.run_told(jobs, gate, past, &both)
    }

    // Does the jobs for the watcher and the status line.
    fn run_told<G: Gate + Send + Sync, V: Watcher + Sync>(
        &self,
        jobs: &[Job],
        gate: &GateLock<G>,
        past: Vec<Receipts<G>>,
        watcher: &V,
    ) -> Result<Report<G>, ShiftFault>
        requires jobs { length jobs.now ≤ max_jobs }
        requires workers { IsCrew self.now.workers }
        ensures { IfOk result (IsShift
            (world_of (F.gives self.now.fetcher.now) (F.follows self.now.fetcher.now) (C.reads self.now.clock.now))
            jobs.now self.now.workers past.items) }
    {
        self.status.expect(jobs.len() as u64);
        let both = Both {
            first: watcher,
            second: self.status,
        };
        let Shift {
            rt,
            alloc,
            workers,
            delay,
            fetcher,
            clock,
            ..
        } = *self;
        let crew = ShiftCrew {
            rt,
            alloc,
            workers,
            delay,
            fetcher,
            clock,
            watcher: &both,
        };
        let report = crew.run(jobs, gate, past);
        self.status.erase();
        report
    }
}

// How many fetches were started, by these receipts.
fn starts_of<G: Gate>(receipts: &[Receipts<G>]) -> u64 {
    let mut starts: u64 = 0;
    for one in receipts {
        starts = starts.saturating_add(one.starts());
    }
    starts
}

// Writes the locked gate's history, if the receipts are all of it.
fn write_receipts<G: Gate, W: Sink>(
    alloc: Global,
    held: &Held<'_, G>,
    receipts: &[Receipts<G>],
    output: &mut Output,
    writer: &mut W,
) -> Result<(), NotShifted>
    requires { output.old ≡ [] }
    ensures { OnOk result
        (WritesReceipts receipts.now (W.written writer.old) (W.written writer.new)) }
{
    compare(alloc, held, receipts)?;
    export(held.book(), output, writer)?;
    Ok(())
}

// Writes the locked gate's history, of a shift that ended early.
fn write_as_it_stands<G: Gate, W: Sink>(
    held: &Held<'_, G>,
    output: &mut Output,
    writer: &mut W,
) -> Result<(), DeviceFault>
    requires { output.old ≡ [] }
    ensures { OnOk result (WritesHistory (W.written writer.old) (W.written writer.new)) }
{
    let book = held.book();
    export(book, output, writer)
}

// Whether the receipts are the gate's whole history. For a settled shift this is already true; the check,
// under the lock under which the history is written, exists so that a contract can rely on it.
fn compare<G: Gate>(
    alloc: Global,
    held: &Held<'_, G>,
    receipts: &[Receipts<G>],
) -> Result<(), ShiftFault>
    ensures { OnOk result (AreWholeHistory held.now receipts.now) }
{
    settle_in(alloc, held, receipts)?;
    if held.book().base().entries() > 0 {
        return Err(ShiftFault::Unsettled(SettleFault::Mismatch));
    }
    Ok(())
}
