//! The end of a shift before its jobs are done: whether it is asked for, and which jobs are done by then.
//! `crawlgate shift --until` asks for it.
use crate::flushing::Flushes;
use crate::left_jobs::LeftJobs;
use crate::sums::Sums;
use crawl_job::{Hop, Job, Outcome};
use crawl_workers::Watcher;
use fetchers::Fetcher;
use page_worker::Event;
use std::alloc::{AllocError, Global};
use std::sync::atomic::{AtomicBool, Ordering};
use std::sync::{Mutex, Wait};

/// Whether a shift is to end early, and the jobs that are done. Its lock is taken only by a worker that holds
/// no other lock.
#[derive(Drop)]
pub struct EarlyEnd<'a, R: Wait> {
    rt: &'a R,
    alloc: Global,
    asked: &'a AtomicBool,
    done: Mutex<DoneJobs>,
}

// Which jobs are done, by their numbers from 0, and what they come to.
#[derive(Drop)]
struct DoneJobs {
    are: Vec<bool>,
    sums: Sums,
}

impl<'a, R: Wait> EarlyEnd<'a, R> {
    /// The end of a shift that is to end once this is set, by any thread.
    pub fn new(rt: &'a R, alloc: Global, asked: &'a AtomicBool) -> EarlyEnd<'a, R> {
        let done = Mutex::new(DoneJobs {
            are: Vec::new(alloc),
            sums: Sums::none(),
        });
        EarlyEnd {
            rt,
            alloc,
            asked,
            done,
        }
    }

    /// The jobs of this list that are not done.
    pub fn left<'j>(&self, jobs: &'j [Job]) -> Result<LeftJobs<'j>, AllocError> {
        LeftJobs::of(self.alloc, jobs, self.done.lock(self.rt).are.as_slice())
    }

    /// This many jobs are to be done.
    pub(crate) fn expect(&self, jobs: usize) -> Result<(), AllocError> {
        self.done.lock(self.rt).are = vec![in self.alloc; false; jobs]?;
        Ok(())
    }

    /// What the jobs that are done come to.
    pub(crate) fn sums(&self) -> Sums {
        self.done.lock(self.rt).sums
    }

    fn is_asked(&self) -> bool {
        self.asked.load(Ordering::SeqCst)
    }

    fn note(&self, number: u64, hops: &[Hop]) {
        self.done.lock(self.rt).note(number, hops);
    }
}

impl DoneJobs {
    fn note(&mut self, number: u64, hops: &[Hop]) {
        if let Some(is_done) = self.are.get_mut(number as usize) {
            *is_done = true;
            self.sums.add(hops);
        }
    }
}

/// A watcher of a shift that may end early: it is over then, and the fetches under way are stopped.
#[derive(Drop)]
pub(crate) struct UntilEnd<'a, 'e, F: Fetcher, V: Watcher, R: Wait> {
    pub(crate) early: &'a EarlyEnd<'e, R>,
    pub(crate) fetcher: &'a F,
    pub(crate) watcher: &'a V,
}

impl<F: Fetcher, V: Watcher, R: Wait> UntilEnd<'_, '_, F, V, R> {
    // Stops all fetches if the shift is to end; returns whether it is.
    fn ends(&self) -> bool {
        let ends = self.early.is_asked();
        if ends {
            self.fetcher.stop();
        }
        ends
    }
}

impl<F: Fetcher, V: Watcher, R: Wait> Watcher for UntilEnd<'_, '_, F, V, R> {
    // (what the end cuts off is not told)
    fn sees(&self, number: u64, event: Event<'_>) {
        if !self.early.is_asked() {
            self.watcher.sees(number, event);
        }
    }

    fn done(&self, number: u64, job: &Job, outcome: &Outcome) {
        self.early.note(number, outcome.hops.as_slice());
        self.watcher.done(number, job, outcome);
    }

    fn is_over(&self) -> bool {
        self.ends() || self.watcher.is_over()
    }
}

impl<F: Fetcher, V: Watcher + Flushes, R: Wait> Flushes for UntilEnd<'_, '_, F, V, R> {
    fn begin(&self) {
        self.watcher.begin();
    }

    fn flush(&self) {
        self.ends();
        self.watcher.flush();
    }
}
