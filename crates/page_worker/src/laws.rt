//! Laws of outcomes, and of the limits of jobs.
//! RFC 9309, sections 2.2 and 2.3.1.2.
ghost use Rattle.std.specs.Prelude.{◌≡◌};
ghost use Rattle.page_worker.specs.Limits.{max_hops};
ghost use Rattle.page_worker.specs.OutcomeLaws.{FetchesAreCounted, FetchesAreStarted};
ghost use Rattle.page_worker.specs.World.{world_of};

use crate::clock::Clock;
use crate::working::MAX_HOPS;
use fetchers::Fetcher;

/// The limit of jobs is that of the definitions.
pub fn limits_are()
    ensures hops { MAX_HOPS ≡ max_hops }
{}

/// Each page of an outcome was fetched by a permit whose fetch was started for it: the numbers of the
/// started fetches are those of the pages and faults, in order.
pub fn fetches_are_started<F: Fetcher, C: Clock>(_fetcher: &F, _clock: &C)
    ensures started { FetchesAreStarted
        (world_of (F.gives _fetcher.now) (F.follows _fetcher.now) (C.reads _clock.now)) }
    ensures counted { FetchesAreCounted }
{}
