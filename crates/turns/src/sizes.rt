//! How many connections a loop serves, and by how many workers.
//! All limits of this are here.
ghost use Rattle.std.specs.Prelude.{◌≡◌, ◌-◌, ◌≤◌, ◌↔◌, max, IfSome};
ghost use Rattle.std.specs.Option.{IsSome};
ghost use Rattle.turns.specs.Limits.{AreSizes, most_places, most_workers};

/// The most places of a loop, so the most connections that are open at a time.
pub const MOST_PLACES: usize = 10_000;

/// The most workers of a loop: sixteen for quick turns, and those that are in slow steps.
pub const MOST_WORKERS: usize = 1_040;

/// The sizes of a loop.
#[derive(Clone, Copy, Debug, PartialEq, Eq)]
pub struct Sizes {
    places: usize,
    workers: usize,
    slow: usize,
    ghost allowed: { AreSizes places workers slow },
}

impl Sizes {
    /// So many places and workers. Slow steps are left to all workers but one, and to a single one too.
    pub fn new(places: usize, workers: usize) -> Option<Sizes>
        ensures allowed { IsSome result
            ↔ (1 ≤ places) × (places ≤ most_places) × (1 ≤ workers) × (workers ≤ most_workers) }
        ensures sizes { IfSome result (λ sizes. (sizes.places ≡ places) × (sizes.workers ≡ workers)
            × (sizes.slow ≡ max 1 (workers - 1))) }
    {
        if places < 1 || MOST_PLACES < places || workers < 1 || MOST_WORKERS < workers {
            return None;
        }
        Some(Sizes {
            places,
            workers,
            slow: (workers - 1).max(1),
        })
    }

    /// The same with slow steps left to so many workers.
    pub fn with_slow(self, slow: usize) -> Option<Sizes>
        ensures allowed { IsSome result ↔ (1 ≤ slow) × (slow ≤ self.workers) }
        ensures sizes { IfSome result (λ sizes. (sizes.places ≡ self.places)
            × (sizes.workers ≡ self.workers) × (sizes.slow ≡ slow)) }
    {
        if slow < 1 || self.workers < slow {
            return None;
        }
        Some(Sizes {
            places: self.places,
            workers: self.workers,
            slow,
        })
    }

    /// How many places there are.
    pub fn places(self) -> usize
        ensures { result ≡ self.places }
    {
        self.places
    }

    /// How many workers serve them.
    pub fn workers(self) -> usize
        ensures { result ≡ self.workers }
    {
        self.workers
    }

    /// How many of these may be in slow steps at a time.
    pub fn slow(self) -> usize
        ensures { result ≡ self.slow }
    {
        self.slow
    }
}
