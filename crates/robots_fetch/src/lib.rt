//! The walk over redirects to the answer of a robots.txt, and where a redirect leads.
//! RFC 9309, section 2.3.1.
#![tactic(auto)]

pub mod laws;
mod redirect;
mod reply;
mod status;
mod walk;

pub use redirect::{MAX_REDIRECTS, Nowhere, Stop, redirect_target};
pub use reply::RobotsReply;
pub use status::{StatusClass, class_of};
pub use walk::{Step, Walk};
