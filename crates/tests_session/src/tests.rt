//! Sessions of clients over memory, at a fixed clock or one that the row moves.

mod books;
mod faults;
mod sweeps;

use scripted_sites::ScriptedPage;
use std::test::Fail;

// The site of the lines: it has no robots.txt.
const PAGES: [ScriptedPage<'static>; 1] = [ScriptedPage {
    url: "http://a.example/robots.txt",
    response: b"HTTP/1.1 404 Not Found\r\nContent-Length: 0\r\n\r\n",
}];

// Fails with the row's name unless the condition holds.
fn demand(holds: bool, name: &str, at: u64) -> Result<(), Fail> {
    if holds {
        Ok(())
    } else {
        Err(Fail::new(format_args!("{name}, at {at}")))
    }
}
