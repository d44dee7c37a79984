//! Tests of the crates that read texts, from octets and lines to the answer of a robots.txt.
//! A crate of tests only, so that those crates are proved once and not as programs too.
#![tactic(auto)]

#[cfg(test)]
mod tests;
