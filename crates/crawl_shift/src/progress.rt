//! The report of a shift, written during the work: each job's lines follow those of all jobs before it.
use crate::flushing::{Flushes, Unwritten};
use crate::not_shifted::NotShifted;
use crate::report_lines::{end_report, finish_report, take_job};
use crate::sums::Sums;
use counted_io::{DeviceFault, Sink};
use crawl_job::{Hop, Job, Outcome};
use crawl_workers::{Crawled, Watcher};
use fetchers::Fetcher;
use page_worker::Event;
use std::alloc::{AllocError, Global};
use std::sync::{Mutex, Wait};
use texts_in_order::TextsInOrder;

/// A watcher that writes the report. Its lock is taken only by a worker that holds no other lock.
#[derive(Drop)]
pub(crate) struct Progress<'a, 's, W: Sink, F: Fetcher, R: Wait> {
    rt: &'a R,
    fetcher: &'a F,
    lines: Mutex<Lines<'s, W>>,
}

// The lines of jobs, which are written in order.
#[derive(Drop)]
struct Lines<'s, W: Sink> {
    sink: &'s mut W,
    texts: TextsInOrder,
    unwritten: Unwritten,
    // Whether a write failed; nothing is written after that.
    failed: bool,
    // Whether there was no memory for lines that have to wait.
    lost: bool,
}

impl<'a, 's, W: Sink, F: Fetcher, R: Wait> Progress<'a, 's, W, F, R> {
    /// The report of so many jobs, of which none is done. All memory that the report needs is taken
    /// here, but for lines that wait for others: without it they are written at the end.
    pub(crate) fn new(
        rt: &'a R,
        alloc: Global,
        sink: &'s mut W,
        fetcher: &'a F,
        jobs: usize,
    ) -> Result<Progress<'a, 's, W, F, R>, AllocError> {
        let lines = Mutex::new(Lines {
            sink,
            // (the last line is one more)
            texts: TextsInOrder::new(alloc, jobs.saturating_add(1))?,
            unwritten: Unwritten::none(),
            failed: false,
            lost: false,
        });
        Ok(Progress { rt, fetcher, lines })
    }

    /// Writes the remaining jobs, and the last line.
    pub(crate) fn finish(self, outcomes: &[Crawled], starts: u64) -> Result<(), DeviceFault> {
        self.lines.into_inner().finish(outcomes, starts)
    }

    /// Writes the lines of the jobs that are done, and the last line with how many are left. Without memory
    /// for a job's lines the report ends before them.
    pub(crate) fn end(self, done: Sums, left: u64) -> Result<(), NotShifted> {
        self.lines.into_inner().end(done, left)
    }
}

/// Once a write has failed nothing more is fetched.
impl<W: Sink, F: Fetcher, R: Wait> Watcher for Progress<'_, '_, W, F, R> {
    fn sees(&self, _number: u64, _event: Event<'_>) {}

    fn done(&self, number: u64, _job: &Job, outcome: &Outcome) {
        let mut lines = self.lines.lock(self.rt);
        lines.take(number, outcome.hops.as_slice());
        if lines.failed {
            self.fetcher.stop();
        }
    }

    fn is_over(&self) -> bool {
        self.lines.lock(self.rt).failed
    }
}

/// Once a write has failed nothing more is fetched.
impl<W: Sink, F: Fetcher, R: Wait> Flushes for Progress<'_, '_, W, F, R> {
    fn begin(&self) {
        self.lines.lock(self.rt).unwritten.begin();
    }

    fn flush(&self) {
        let mut lines = self.lines.lock(self.rt);
        if lines.unwritten.take() && !lines.failed {
            lines.failed = lines.flush().is_err();
        }
        if lines.failed {
            self.fetcher.stop();
        }
    }
}

impl<W: Sink> Lines<'_, W> {
    // Takes the lines of a job, which may have to wait for those of earlier jobs.
    fn take(&mut self, number: u64, hops: &[Hop]) {
        if !self.failed {
            self.failed = self.write(number, hops).is_err();
        }
    }

    // Passes on the lines of a job, and those that waited for it, and writes them if they are due.
    fn write(&mut self, number: u64, hops: &[Hop]) -> Result<(), DeviceFault> {
        let before = self.texts.passed();
        take_job(&mut self.texts, number as usize, hops, self.sink)?;
        if !self.texts.is_known(number as usize) {
            self.lost = true;
        }
        // (each job has at least one line)
        let more = self.texts.passed().saturating_sub(before);
        if more > 0 && self.unwritten.add(more as u64) {
            return self.flush();
        }
        Ok(())
    }

    fn flush(&mut self) -> Result<(), DeviceFault> {
        self.texts.flush(self.sink)
    }

    fn finish(&mut self, outcomes: &[Crawled], starts: u64) -> Result<(), DeviceFault> {
        if self.failed {
            return Err(DeviceFault);
        }
        finish_report(&mut self.texts, outcomes, starts, self.sink)
    }

    fn end(&mut self, done: Sums, left: u64) -> Result<(), NotShifted> {
        if self.failed {
            return Err(NotShifted::Device);
        }
        if self.lost {
            self.flush()?;
            return Err(NotShifted::NoMemory);
        }
        end_report(&mut self.texts, done, left, self.sink)?;
        Ok(())
    }
}
