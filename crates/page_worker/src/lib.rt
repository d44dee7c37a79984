//! One worker: a job's pages fetched hop by hop, and refreshes of robots answers.
//! RFC 9309, sections 2.2 to 2.4, in the profile of docs/POLICY.md.
#![tactic(auto)]

mod clock;
mod closing;
mod event;
pub mod laws;
mod newcomers;
mod refreshing;
mod stale;
mod visiting;
mod way_on;
mod worker;
mod working;

pub use clock::Clock;
pub use event::{Event, EventObserver};
pub use newcomers::is_unknown;
pub use refreshing::{refresh, refresh_within};
pub use visiting::{PageVisit, PageVisitor, Visited};
pub use working::{work, work_observed, work_within};
