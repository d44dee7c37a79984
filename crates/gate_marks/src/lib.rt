//! Marks of a gate's entries, and whether lists of them are a whole history: each place once, and each mark
//! its entry. Here is no book, no lock and no desk (RFC 9309, section 2.4).
#![tactic(auto)]

mod agree;
mod fit;
mod mark;
mod mark_list;
mod merged_marks;

pub use agree::marks_agree;
pub use fit::{lists_fit, marks_fit};
pub use mark::{Mark, SealedMarks, count_below, starts_among};
pub use mark_list::MarkList;
