//! The doors to sites: how many visits of one site may be under way at once, and how long lies between the
//! begins of two. RFC 9309 says nothing on either; RFC 9110, section 10.2.3, lets a site say when to come
//! again.
#![tactic(auto)]

mod admission;
mod asked_pause;
mod door;
mod doors;
pub mod laws;
mod manners;
mod site_doors;
mod table;
mod visit;
mod waiting;

pub use admission::{Admission, NoDoor};
pub use asked_pause::{MOST_PAUSE, retry_after};
pub use doors::Doors;
pub use manners::{AskedPauses, Manners};
pub use site_doors::SiteDoors;
pub use table::MOST_SITES;
pub use visit::SiteVisit;
pub use waiting::Visitor;
