//! Tests of the HTTP front: requests as octets, over a keeper with written visits, and over a gate.
//! Clients of the built server are cases of checks/serve.
#![tactic(auto)]

#[cfg(test)]
mod tests;
