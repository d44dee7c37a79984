//! Requests and responses as octets. In a row's text `|` stands for CR LF, and `~` for the octet FF.

mod answers;
mod asking;
mod dialogue;
mod framing;
mod gate;
mod later;
mod script;

use std::test::Fail;

// Fails with the row's name unless the condition holds.
fn demand(holds: bool, name: &str, told: &str) -> Result<(), Fail> {
    if holds {
        Ok(())
    } else {
        Err(Fail::new(format_args!("{name}: {told}")))
    }
}
