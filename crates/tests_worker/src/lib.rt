//! Tests of workers at clocks of their own. Shifts of the built program are under checks/rows and
//! checks/crawls.
#![tactic(auto)]

#[cfg(test)]
mod tests;
