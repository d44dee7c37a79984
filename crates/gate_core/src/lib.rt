//! The gate: one history of permits and robots answers, and the calls that extend it
//! (RFC 9309, sections 2.2 to 2.4, in the profile of docs/POLICY.md).
#![tactic(auto)]

mod arrive;
mod ask;
mod begin;
mod book;
mod call;
mod calls;
mod config;
mod decide;
mod end;
mod judged;
mod place_counts;
mod readers;
mod refusal;
mod resume;
pub mod rows;
mod seal;
mod start;
mod state;
mod sweep;
mod turn_names;

pub use book::Book;
pub use call::{Call, Reply};
pub use calls::run;
pub use config::{Config, Limits, MAX_AUTHORITIES, MAX_LOG, MAX_PLACES, limits_are};
pub use judged::Judged;
pub use refusal::{AskRefusal, BeginRefusal, Denial, NoMemory, NotResumed, Started, SweepRefusal};
pub use state::{Standing, State};
