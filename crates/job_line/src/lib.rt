//! The line of jobs: numbers that several workers draw, each once.
//! The workers share one word for each site; no draw waits.
#![tactic(auto)]

mod line;
mod rule;
mod seat;

pub use line::{Drawn, JobLine, MAX_JOBS, MAX_WORKERS, constants_are_the_limits};
pub use seat::JobSeat;
