//! Fetches pages and robots.txt files over TCP, with the leaves needed for it; and why that fails.
#![tactic(auto)]

mod cause_words;
mod closed_by;
mod closing_code;
mod closing_notes;
mod fetch_meter;
mod fetcher;
mod tcp_fetcher;
mod text_room;

pub use cause_words::{CauseWords, closing_words, fault_words};
pub use closed_by::ClosedBy;
pub use fetch_meter::{FetchMeter, RobotsFaults};
pub use fetcher::{Fetcher, PageLeave, RobotsLeave};
pub use tcp_fetcher::{FULL_CLOSURE, PAGE_LIMIT, TcpFetcher};
