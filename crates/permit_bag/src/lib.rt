//! A bag of the permits and started fetches of one desk, found by their numbers, which its clients name
//! (RFC 9309, section 2.2).
#![tactic(auto)]

mod bag;

pub use bag::Bag;
