//! Crawlers' jobs, their hops and outcomes.
//! RFC 9309, sections 2.2 and 2.3.1.
#![tactic(auto)]

mod hop;
mod job;

pub use hop::{Hop, Refusal};
pub use job::{Job, Outcome};
