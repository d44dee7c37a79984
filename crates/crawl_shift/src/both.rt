//! A pair of watchers.
use crawl_job::{Job, Outcome};
use crawl_workers::Watcher;
use page_worker::Event;

/// Two watchers of each job.
#[derive(Drop)]
pub(crate) struct Both<'a, 'b, A: Watcher, B: Watcher> {
    pub(crate) first: &'a A,
    pub(crate) second: &'b B,
}

impl<A: Watcher, B: Watcher> Watcher for Both<'_, '_, A, B> {
    fn sees(&self, number: u64, event: Event<'_>) {
        self.first.sees(number, event);
        self.second.sees(number, event);
    }

    fn done(&self, number: u64, job: &Job, outcome: &Outcome) {
        self.first.done(number, job, outcome);
        self.second.done(number, job, outcome);
    }

    fn is_over(&self) -> bool {
        self.first.is_over() || self.second.is_over()
    }
}
