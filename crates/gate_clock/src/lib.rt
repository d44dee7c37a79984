//! The clock of a gate: the wall clock, but never behind the steady seconds since a moment that was handed
//! in before, also where the wall clock is set back (RFC 9309, section 2.4, limits an answer's life).
#![tactic(auto)]

mod laws;
mod moments;
mod steady_clock;
mod wall_clock;

pub use laws::{an_answer_lasts_a_day, no_answer_of_before_lasts, the_clock_is_steady};
pub use moments::{DAY_PAST, SLACK_SECONDS};
pub use steady_clock::{Beginning, SteadyClock};
