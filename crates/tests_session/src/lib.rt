//! Tests of a client's sessions with keepers: a book alone, and a desk of a gate.
//! Sessions of the built program are cases of checks/serve.
#![tactic(auto)]

#[cfg(test)]
mod tests;
