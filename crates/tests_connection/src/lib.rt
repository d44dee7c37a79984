//! Tests of clients over TCP.
#![tactic(auto)]

#[cfg(test)]
mod tests;
