//! What only code can show of texts, answers and messages; rows of the built program show what they are
//! read as.
//! RFC 9309, section 2; RFC 9112.

mod answers;
mod devices;
mod failures;
mod http;
mod line_ends;
mod octets;
mod policies;
mod ratios;
mod schemes;

use std::test::Fail;

// Fails with the row's name unless it holds.
fn demand(holds: bool, name: &str) -> Result<(), Fail> {
    if holds { Ok(()) } else { Err(Fail::new(name)) }
}
