//! Tests of the doors to sites: rows of calls, a full table, and doors that are shared.

mod pauses;
mod shared;
mod table;
mod visits;

use std::test::Fail;

fn demand(holds: bool, name: &str) -> Result<(), Fail> {
    if holds { Ok(()) } else { Err(Fail::new(name)) }
}
