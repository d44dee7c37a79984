//! Clients' sessions: the commands of clients and overseers, done by a keeper, and what they are told.
//! docs/FORMATS.md has the lines, the replies and the faults.
#![tactic(auto)]

mod client_lines;
mod client_reply;
mod client_session;
mod first_line;
mod info_text;
mod kept_pages;
mod numbered_clock;
mod server_counters;
mod why_reply;

pub use client_session::{MAX_CLIENT_LINE, serve, serve_from, serve_overseer};
pub use command_lines::{SessionFault, replay};
pub use first_line::FirstLine;
pub use keepers::{BookKeeper, DeskKeeper, Keeper};
pub use numbered_clock::{FetchClock, NumberedClock, next_reading};
pub use server_counters::{DenialCounts, ServerCounters, ServerCounts};
