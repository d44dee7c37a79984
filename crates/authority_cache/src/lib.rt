//! What is known of authorities: the robots answer of each, and the turn in flight to fetch its
//! robots.txt (RFC 9309, sections 2.3.1 and 2.4).
#![tactic(auto)]

mod arrive;
mod begin;
mod cache;
mod ends;
mod find;
mod index;
pub mod laws;
mod life;
mod listing;
mod look;
mod refusal;
mod site;
mod standing_answer;
mod sweep;
mod turn;

pub use cache::Cache;
pub use find::FoundSite;
pub use life::{LEAST_LIFE, LIFE, TimedAnswer, life_of};
pub use look::Look;
pub use refusal::{FlightRefusal, Stale};
pub use site::CachedAnswer;
pub use standing_answer::StandingAnswer;
pub use turn::{Turn, TurnNo};
