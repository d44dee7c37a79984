//! Histories of the gate: their bases, their entries, and what they say (RFC 9309, sections 2.2.2, 2.3.1
//! and 2.4).
#![tactic(auto)]

mod base;
mod entry;
mod in_order;
pub mod laws;
mod outcome;
pub mod rows;
mod ruling;
mod segment;
mod wording;

pub use base::{Base, LeftOpen, Numbers, SlotGrant};
pub use entry::Entry;
pub use outcome::{Cause, Reason};
pub use ruling::{Ruling, decide};
pub use segment::Segment;
pub use wording::Wording;
