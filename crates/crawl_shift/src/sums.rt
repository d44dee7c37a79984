//! What jobs of a shift come to together, for the last line of a report that ends early.
ghost use Rattle.std.specs.Prelude.{◌≡◌, ◌-◌, ◌^◌, min};
ghost use Rattle.page_worker.specs.Outcomes.{fetches_in};

use crawl_job::Hop;

/// How many jobs are done, and how many hops and started fetches they have.
#[derive(Clone, Copy)]
pub(crate) struct Sums {
    pub(crate) jobs: u64,
    pub(crate) hops: u64,
    pub(crate) starts: u64,
}

impl Sums {
    /// Of no jobs.
    pub(crate) fn none() -> Sums {
        Sums {
            jobs: 0,
            hops: 0,
            starts: 0,
        }
    }

    /// Adds a job with these hops.
    pub(crate) fn add(&mut self, hops: &[Hop]) {
        self.jobs = self.jobs.saturating_add(1);
        self.hops = self.hops.saturating_add(hops.len() as u64);
        self.starts = self.starts.saturating_add(starts_in(hops));
    }
}

// How many of the hops are fetches, as far as a number goes.
fn starts_in(hops: &[Hop]) -> u64
    ensures { result ≡ min (fetches_in hops.now) (2 ^ 64 - 1) }
{
    match hops {
        [Hop::Page { .. } | Hop::Fault { .. }, later @ ..] => starts_in(later).saturating_add(1),
        [_, later @ ..] => starts_in(later),
        [] => 0,
    }
}
