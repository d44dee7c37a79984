//! The table of a shift's hops, written during the work: a line for each hop soon after its end.
use crate::flushing::{Flushes, Unwritten};
use crate::hop_row::columns;
use crate::under_way::UnderWay;
use counted_io::{DeviceFault, Output, Sink};
use crawl_job::{Hop, Job, Outcome};
use crawl_workers::Watcher;
use fetchers::{ClosedBy, Fetcher};
use gate_history::Cause;
use page_worker::Event;
use std::alloc::{AllocError, Global};
use std::collections::BTreeMap;
use std::sync::{Mutex, Wait};
use std::time;
use std::time::Instant;

/// A watcher that writes the table. Its lock is taken only by a worker that holds no other lock.
#[derive(Drop)]
pub(crate) struct Table<'a, 's, W: Sink, F: Fetcher, R: Wait + time::Clock> {
    rt: &'a R,
    fetcher: &'a F,
    rows: Mutex<TableRows<'s, W>>,
}

// The output, and what is known for the next lines.
#[derive(Drop)]
struct TableRows<'s, W: Sink> {
    alloc: Global,
    sink: &'s mut W,
    output: Output,
    unwritten: Unwritten,
    under_way: UnderWay,
    // What closed each closed authority, except those without memory.
    closings: BTreeMap<String, ClosedBy>,
    // The result of the writes so far. After a fault nothing is written.
    wrote: Result<(), DeviceFault>,
}

impl<'a, 's, W: Sink, F: Fetcher, R: Wait + time::Clock> Table<'a, 's, W, F, R> {
    /// A table that has its first line.
    pub(crate) fn new(
        rt: &'a R,
        alloc: Global,
        sink: &'s mut W,
        fetcher: &'a F,
    ) -> Result<Table<'a, 's, W, F, R>, AllocError> {
        let mut rows = TableRows {
            alloc,
            sink,
            output: Output::new(alloc)?,
            unwritten: Unwritten::none(),
            under_way: UnderWay::new(alloc)?,
            closings: BTreeMap::new(alloc),
            wrote: Ok(()),
        };
        rows.wrote = rows.name_columns();
        Ok(Table {
            rt,
            fetcher,
            rows: Mutex::new(rows),
        })
    }

    /// Writes the waiting lines. Returns whether all was written.
    pub(crate) fn finish(self) -> Result<(), DeviceFault> {
        let mut rows = self.rows.into_inner();
        rows.wrote?;
        rows.flush()
    }
}

/// Once a write has failed nothing more is fetched.
impl<W: Sink, F: Fetcher, R: Wait + time::Clock> Watcher for Table<'_, '_, W, F, R> {
    fn sees(&self, number: u64, event: Event<'_>) {
        let now = Instant::now(self.rt).ok();
        let mut rows = self.rows.lock(self.rt);
        rows.take(number, event, now);
        if rows.wrote.is_err() {
            self.fetcher.stop();
        }
    }

    fn done(&self, number: u64, _job: &Job, _outcome: &Outcome) {
        self.rows.lock(self.rt).under_way.leave(number);
    }

    fn is_over(&self) -> bool {
        self.rows.lock(self.rt).wrote.is_err()
    }
}

/// Once a write has failed nothing more is fetched.
impl<W: Sink, F: Fetcher, R: Wait + time::Clock> Flushes for Table<'_, '_, W, F, R> {
    fn begin(&self) {
        self.rows.lock(self.rt).unwritten.begin();
    }

    fn flush(&self) {
        let mut rows = self.rows.lock(self.rt);
        if rows.unwritten.take() && rows.wrote.is_ok() {
            rows.wrote = rows.flush();
        }
        if rows.wrote.is_err() {
            self.fetcher.stop();
        }
    }
}

impl<W: Sink> TableRows<'_, W> {
    fn name_columns(&mut self) -> Result<(), DeviceFault> {
        columns().push(&mut self.output, self.sink)?;
        self.output.flush(self.sink)
    }

    fn take(&mut self, job: u64, event: Event<'_>, now: Option<Instant>) {
        match event {
            Event::Begins { before, token, url } => self.under_way.begin(job, before, token, url),
            Event::Fetches => {
                if let Some(place) = self.under_way.at(job) {
                    place.fetch(now);
                }
            }
            Event::Fetched(failure) => {
                if let Some(place) = self.under_way.at(job) {
                    place.end_fetch(now, failure);
                }
            }
            Event::Brought(authority, closed_by) => self.learn(authority, closed_by),
            Event::Ends(hop) => {
                if self.wrote.is_ok() {
                    self.wrote = self.write(job, hop);
                }
            }
            Event::AsksRobots(_) | Event::Answered(_) => {}
        }
    }

    // Notes what closes an authority, if it is closed.
    fn learn(&mut self, authority: &str, closed_by: Option<ClosedBy>) {
        self.closings.remove(authority);
        if let (Some(by), Ok(name)) = (closed_by, String::from_str(self.alloc, authority)) {
            // (without memory for it the cause is `closed`)
            let _ = self.closings.insert(name, by);
        }
    }

    fn write(&mut self, job: u64, hop: &Hop) -> Result<(), DeviceFault> {
        let closed_by = self.closing_of(hop);
        let Some(place) = self.under_way.at(job) else {
            return Ok(());
        };
        place.row(hop, closed_by).push(&mut self.output, self.sink)?;
        if self.unwritten.add(1) {
            return self.flush();
        }
        Ok(())
    }

    fn flush(&mut self) -> Result<(), DeviceFault> {
        self.output.flush(self.sink)
    }

    // What closed the site of a hop denied for that.
    fn closing_of(&self, hop: &Hop) -> Option<ClosedBy> {
        match hop {
            Hop::No(denial) if denial.cause == Cause::Closed => {
                self.closings.get(denial.authority()).copied()
            }
            _ => None,
        }
    }
}
