//! What keeps the permits of a line server's session: a book alone, or a desk with a bag and a
//! fetcher (RFC 9309, sections 2.2 to 2.4, in the profile of docs/POLICY.md).
#![tactic(auto)]

mod answers;
mod book_keeper;
mod bounds;
mod counts;
mod desk_keeper;
mod fetch_refusal;
mod fetching;
mod fetching_anew;
mod keeper;
mod no_keeper;
mod records;

pub use book_keeper::BookKeeper;
pub use bounds::Bounds;
pub use counts::Counts;
pub use desk_keeper::DeskKeeper;
pub use fetching_anew::fetch_anew;
pub use keeper::Keeper;
pub use no_keeper::NoKeeper;
pub use records::{DeskRecords, NoRecords};
