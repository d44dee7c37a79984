//! One gate for several threads: a lock round the book, desks that share it, and values that must be spent
//! (RFC 9309, sections 2.2 to 2.4, in the profile of docs/POLICY.md).
#![tactic(auto)]

mod ask;
mod awaited;
mod condense;
mod desk;
mod held;
mod linear_values;
mod lock;
mod look;
mod seal;
mod shared_book;
mod spend;
mod turns;

pub use desk::Desk;
pub use gate_ledgers::{Blanks, DesksFull, Gate, MAX_DESKS, Receipts};
pub use gate_marks::{Mark, SealedMarks, marks_fit};
pub use held::{AtRest, Held, vouch};
pub use linear_values::{Fetched, Permit, RobotsTurn, Running};
pub use lock::GateLock;
pub use shared_book::SharedBook;
