//! A progress line at a terminal, rewritten during the work.
use counted_io::{DeviceFault, Output, Sink};
use crawl_job::{Job, Outcome};
use crawl_workers::Watcher;
use line_text::{Piece, Pieces};
use page_worker::Event;
use std::alloc::{AllocError, Global};
use std::sync::{Mutex, Wait};
use std::time;
use std::time::{Duration, Instant};

// The least milliseconds between two writes.
const PAUSE_MILLISECONDS: u64 = 100;

/// A watcher with a progress line. Its lock is taken only by a worker that holds no other lock.
#[derive(Drop)]
pub struct StatusLine<'a, W: Sink, R: Wait + time::Clock> {
    rt: &'a R,
    status: Mutex<Status<'a, W>>,
}

#[derive(Drop)]
struct Status<'a, W: Sink> {
    // Where it is written, if at all.
    sink: Option<&'a mut W>,
    output: Output,
    written: Option<Instant>,
    counts: ShiftCounts,
}

#[derive(Clone, Copy)]
struct ShiftCounts {
    jobs: u64,
    done: u64,
    // Running fetches of pages and robots.txt files.
    fetches: u64,
    // Robots.txt files that closed their sites.
    closed: u64,
}

impl<'a, W: Sink, R: Wait + time::Clock> StatusLine<'a, W, R> {
    /// A line on this device, or on none.
    pub fn new(
        rt: &'a R,
        alloc: Global,
        sink: Option<&'a mut W>,
    ) -> Result<StatusLine<'a, W, R>, AllocError> {
        let status = Mutex::new(Status {
            sink,
            output: Output::new(alloc)?,
            written: None,
            counts: ShiftCounts {
                jobs: 0,
                done: 0,
                fetches: 0,
                closed: 0,
            },
        });
        Ok(StatusLine { rt, status })
    }

    /// This many jobs are to be done.
    pub(crate) fn expect(&self, jobs: u64) {
        self.status.lock(self.rt).counts.jobs = jobs;
    }

    /// Erases the line.
    pub(crate) fn erase(&self) {
        let mut status = self.status.lock(self.rt);
        if status.written.is_some() {
            status.write(Pieces::whole("\r\x1b[K"), Pieces::whole(""));
        }
    }
}

impl<W: Sink, R: Wait + time::Clock> Watcher for StatusLine<'_, W, R> {
    fn sees(&self, _number: u64, event: Event<'_>) {
        let mut status = self.status.lock(self.rt);
        status.counts.take(event);
        status.show(Instant::now(self.rt).ok());
    }

    fn done(&self, _number: u64, _job: &Job, _outcome: &Outcome) {
        let mut status = self.status.lock(self.rt);
        status.counts.done = status.counts.done.saturating_add(1);
        status.show(Instant::now(self.rt).ok());
    }
}

impl ShiftCounts {
    fn take(&mut self, event: Event<'_>) {
        match event {
            Event::AsksRobots(_) | Event::Fetches => self.fetches = self.fetches.saturating_add(1),
            Event::Fetched(_) => self.fetches = self.fetches.saturating_sub(1),
            Event::Brought(_, closed_by) => {
                self.fetches = self.fetches.saturating_sub(1);
                if closed_by.is_some() {
                    self.closed = self.closed.saturating_add(1);
                }
            }
            Event::Begins { .. } | Event::Answered(_) | Event::Ends(_) => {}
        }
    }
}

impl<W: Sink> Status<'_, W> {
    // Writes the line, unless it was just written.
    fn show(&mut self, now: Option<Instant>) {
        let Some(now) = now else {
            return;
        };
        if let Some(written) = self.written {
            let since = now.saturating_duration_since(written);
            if since < Duration::from_millis(PAUSE_MILLISECONDS) {
                return;
            }
        }
        if self.sink.is_some() {
            self.written = Some(now);
            self.write(self.counts.of_jobs(), self.counts.of_fetches());
        }
    }

    // Writing stops when the terminal is gone.
    fn write(&mut self, first: Pieces<'_>, second: Pieces<'_>) {
        if self.try_write(first, second).is_err() {
            self.sink = None;
        }
    }

    fn try_write(&mut self, first: Pieces<'_>, second: Pieces<'_>) -> Result<(), DeviceFault> {
        let Some(sink) = &mut self.sink else {
            return Ok(());
        };
        first.push(&mut self.output, *sink)?;
        second.push(&mut self.output, *sink)?;
        self.output.flush(*sink)
    }
}

impl ShiftCounts {
    fn of_jobs(self) -> Pieces<'static> {
        Pieces::of(&[
            Piece::Text("\r"),
            Piece::Number(self.done),
            Piece::Text(" of "),
            Piece::Number(self.jobs),
            Piece::Text(" jobs done, "),
        ])
    }

    fn of_fetches(self) -> Pieces<'static> {
        Pieces::of(&[
            Piece::Number(self.fetches),
            Piece::Text(" fetches under way, "),
            Piece::Number(self.closed),
            Piece::Text(" sites closed\x1b[K"),
        ])
    }
}
