//! Tests of what is fetched over TCP, and of lines of jobs. Fetches of the built program are under
//! checks/crawls and checks/rows.
#![tactic(auto)]

#[cfg(test)]
mod tests;
