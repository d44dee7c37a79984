//! Values found by their numbers, in memory that was taken before: for permits and fetches, which no one can
//! drop and which are put in where nothing may fail.
#![tactic(auto)]

mod store;

pub use store::{Numbered, Sought, Spot, Store};
