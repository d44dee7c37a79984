//! What the tests of several crates share: sites in memory, as a network, new books, and a clock that stands
//! still. The product uses none of it: fetching these pages needs the same leave as over TCP.
#![tactic(auto)]

mod books;
mod clock;
mod sites;

pub use books::new_book;
pub use clock::FixedClock;
pub use sites::{ScriptedPage, ScriptedSites};
