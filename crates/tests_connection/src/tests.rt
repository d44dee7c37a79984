//! Tests beyond the clauses: waits for clients, by a clock set by hand. Real connections are cases of
//! checks/serve.

mod accepts;
mod partings;
mod patience;
mod scripted;
mod seats;
mod turns;

use std::test::Fail;

// Fails with the row's name unless it holds.
fn demand(holds: bool, name: &str) -> Result<(), Fail> {
    if holds { Ok(()) } else { Err(Fail::new(name)) }
}
