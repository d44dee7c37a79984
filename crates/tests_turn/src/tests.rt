//! Tests beyond the clauses: that turns come, over real sockets of the loopback.

mod client;
mod dials;
mod ends;
mod house;
mod patience;
mod queues;
mod scenes;
mod talk;

use std::alloc::{AllocError, AllocFailed};
use std::io;

/// What fails in a test.
#[derive(Debug, Drop)]
enum Fault {
    /// What this says does not hold.
    Row(&'static str),
    /// A call of the system.
    Io(io::Error),
    /// No memory.
    Memory,
}

impl From<io::Error> for Fault {
    fn from(error: io::Error) -> Fault {
        Fault::Io(error)
    }
}

impl From<AllocError> for Fault {
    fn from(_: AllocError) -> Fault {
        Fault::Memory
    }
}

impl<T: Drop> From<AllocFailed<T>> for Fault {
    fn from(_: AllocFailed<T>) -> Fault {
        Fault::Memory
    }
}

// Fails with this name unless it holds.
fn demand(holds: bool, name: &'static str) -> Result<(), Fault> {
    if holds { Ok(()) } else { Err(Fault::Row(name)) }
}
