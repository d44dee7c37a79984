//! Patterns of robots.txt files, and which paths they match.
//! RFC 9309, section 2.2.3.
#![tactic(auto)]

mod blocks;
mod fronts;
mod kept;
pub mod laws;
mod least;
mod literals;
mod next_places;
mod order;
mod path;
mod pattern;
mod ranks;
mod slots;
mod suffix_array;
mod texts;

pub use kept::empty_room;
pub use literals::has_no_star;
pub use path::Path;
pub use pattern::{Pattern, matches};
pub use suffix_array::SuffixArray;
pub use texts::{compare_texts, front};
