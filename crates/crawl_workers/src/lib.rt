//! Crawlers' jobs done by several workers, each of them in `page_worker`'s way.
//! RFC 9309, sections 2.2 to 2.4, in the profile of docs/POLICY.md.
#![tactic(auto)]

mod crew;
mod handover;
pub mod laws;
mod order;
mod pace;
mod places;
mod report;
mod shift;
mod site;
mod sites;
mod strangers;
mod turns;

pub use crawl_job::{Hop, Job, Outcome, Refusal};
pub use fetchers::{Fetcher, TcpFetcher};
pub use page_worker::{Clock, refresh, work};
pub use report::{Crawled, Report, ShiftFault, Watcher};
pub use shift::{ShiftCrew, run_shift};
