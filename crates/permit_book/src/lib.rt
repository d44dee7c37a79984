//! The permits of a gate: a table of slots, each with its last generation and what is outstanding.
//! Permits make each fetch check the robots answer then in force (RFC 9309, 2.4).
#![tactic(auto)]

mod drafts;
mod ends;
mod free_slots;
mod granted_permit;
pub mod laws;
mod listing;
mod number;
mod out;
mod past_grants;
mod permits;
mod refusal;
mod words;

pub use drafts::Draft;
pub use granted_permit::GrantedPermit;
pub use number::{LAST_GENERATION, MAX_SLOTS, PermitNo, SLOTS_PER_GENERATION};
pub use out::{Fetch, Slot, SlotContent};
pub use permits::Permits;
pub use refusal::{NotOut, PermitsFull};
