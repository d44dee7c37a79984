//! Tests of journals: tapes that fail at each call, and what a start reads of a folder. What a server leaves
//! there is a case of checks/serve.
#![tactic(auto)]

#[cfg(test)]
mod tests;
