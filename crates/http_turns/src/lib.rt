//! Clients of HTTP, served in turns: each has a connection of HTTP/1.1, whose requests a service answers that
//! belongs to the worker with the turn. An answer is sent only after what it tells is recorded, and a
//! request that comes too early is asked again.
//! RFC 9112, section 9.
#![tactic(auto)]

mod budget;
mod deferring;
pub mod laws;
mod talk;
mod worker;

pub use budget::{AnswerBudget, MOST_ANSWER_OCTETS};
pub use deferring::{Asker, DeferringService};
pub use talk::{HttpTalk, LATER_MILLISECONDS, MESSAGE_MILLISECONDS};
pub use worker::HttpWorker;
