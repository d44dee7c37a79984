//! Texts that are written in the order of their numbers, whatever the order in which they become known.
//! The report of a shift is written so.
#![tactic(auto)]

mod in_order;
mod text;

pub use in_order::TextsInOrder;
pub use text::{Text, Texts};
