//! Tests of loops over many connections.
#![tactic(auto)]

#[cfg(test)]
mod tests;
