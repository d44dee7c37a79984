//! Policies, which decide by a line of a robots.txt whether a path is allowed, and answers.
//! RFC 9309, sections 2.2.2 and 2.3.1.
#![tactic(auto)]

mod answer;
mod decision;
mod heads;
mod index;
mod keys;
pub mod laws;
mod normal_text;
mod others;
mod parents;
mod places;
mod plain;
mod policy;
mod ranked_rows;
mod rewritten;
mod rows;
mod rule_row;
mod rules;
mod said;
mod three_octets;
mod weight;

pub use answer::{Answer, Closure, Opening};
pub use decision::{Allowed, Verdict, verdict_on};
pub use policy::{Policy, pays_to_sort};
pub use rules::{Rules, with_index};
pub use said::{PolicyHandle, Said};
pub use weight::{Weight, stronger};
