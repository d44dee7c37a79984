//! Tests of the doors to sites.
#![tactic(auto)]

#[cfg(test)]
mod tests;
