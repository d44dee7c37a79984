//! Tests of the gate: permits, answers, histories, the book and its calls, the lock with its desks and
//! bags, and the audit of a history's text. Test crates are proved separately.
#![tactic(auto)]

#[cfg(test)]
mod tests;
