//! The law of the pauses of a shift; those of outcomes and limits are passed on.
//! docs/crawlgate.1.md says what a pause is.
ghost use Rattle.crawl_workers.specs.Pauses.{PausesAreKept};

pub use page_worker::laws::{fetches_are_started, limits_are};

/// Among fetches that come to a site with a delay, in any order, each that waits begins no sooner than the
/// delay after the last begin before it.
pub fn pauses_are_kept()
    ensures { PausesAreKept }
{}
