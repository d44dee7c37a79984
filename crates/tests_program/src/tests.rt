//! Sessions and lines over memory.
//! Each value has one owner, which makes one call: this keeps its check short.
ghost use Rattle.std.specs.Prelude.{◌<◌};

mod calls;
mod faults;
mod lines;

use counted_io::FailAt;
use gate_core::{Book, Config, Limits};
use std::alloc::{AllocError, Global};
use std::hash::RandomState;
use std::random::RandomSource;
use std::test::Fail;

// A book with the usual limits.
fn new_book<R: AllocGlobal + RandomSource>(rt: &R) -> Result<Book, Fail> {
    let config = Config {
        limits: Limits::usual(),
        keys: RandomState::new(rt)?,
    };
    Ok(Book::new(rt.alloc(), config)?)
}

// A reader of so many octets a read, one of which fails.
fn reader_of(
    alloc: Global,
    octets: &[u8],
    per_read: usize,
    fails_at: Option<u64>,
) -> Result<FailAt, AllocError>
    requires { 0 < per_read }
{
    Ok(FailAt::new(octets.to_vec(alloc)?, per_read, fails_at))
}

fn new_writer(alloc: Global) -> FailAt {
    FailAt::new(Vec::new(alloc), 65_536, None)
}

// Fails with the row's name unless the condition holds.
fn demand(holds: bool, name: &str, at: usize) -> Result<(), Fail> {
    if holds {
        Ok(())
    } else {
        Err(Fail::new(format_args!("{name}, at {at}")))
    }
}
