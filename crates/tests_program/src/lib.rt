//! Tests of sessions of lines and of robots texts: a fault at each read and write, and a list of calls.
//! Rows of the built program are under checks/rows.
#![tactic(auto)]

#[cfg(test)]
mod tests;
