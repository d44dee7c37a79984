//! Tests beyond the clauses, which the built program can't show.

mod blocks;
mod interrupts;
mod line;
mod reaches;
mod servers;
mod tls_headers;
mod unsent;

use std::test::Fail;

// Fails with the row's name unless it holds.
fn demand(holds: bool, name: &str) -> Result<(), Fail> {
    if holds { Ok(()) } else { Err(Fail::new(name)) }
}
