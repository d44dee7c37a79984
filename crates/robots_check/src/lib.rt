//! What each line of a robots text says, and whether it allows URLs to a crawler, by which line and why;
//! from any reader to any writer.
//! See docs/FORMATS.md; RFC 9309, section 2.2.
#![tactic(auto)]

mod agents;
mod answering;
mod body;
mod check_outcome;
mod checking;
mod detail;
mod explaining;
mod fault;
mod finding;
mod groups;
mod input;
mod judge;
pub mod laws;
mod lines_text;
mod notes;
mod page;
mod rows;
mod rules;
mod said;
mod token_lines;
mod writing;

pub use body::{MAX_BODY, read_body};
pub use check_outcome::CheckOutcome;
pub use checking::{check, check_input, check_lines};
pub use detail::Detail;
pub use fault::TextFault;
pub use notes::tell_notes;
pub use writing::{lines, lines_of};
