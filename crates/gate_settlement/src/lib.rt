//! The settlement of a gate by the receipts of its desks, and a gate that is lent whole.
//! Here is what begins or ends a gate of several threads; no desk makes a call here (RFC 9309, section 2.4).
#![tactic(auto)]

mod fit;
mod settlement;
mod started;
mod visit;

pub use fit::receipts_fit;
pub use settlement::{SettleFault, Settled, settle, settle_in};
pub use visit::{Visit, with_gate};
