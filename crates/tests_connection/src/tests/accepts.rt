//! Listeners that accept no connection.
//! The numbers are those of errno(3) of Linux. Times are in milliseconds.

use super::demand;
use super::scripted::HandClock;
use client_connections::{AcceptFault, Accepts, accept_from};
use std::cell::Cell;
use std::io;
use std::io::ErrorKind;
use std::test::Fail;

#[derive(Drop)]
struct Accepted;

// A listener that fails with this number so many times, and then accepts.
#[derive(Drop)]
struct Failing {
    number: i32,
    left: Cell<u32>,
    calls: Cell<u32>,
}

impl Accepts for Failing {
    type Stream = Accepted;

    fn accept_next(&self) -> io::Result<Accepted> {
        self.calls.set(self.calls.get().saturating_add(1));
        match self.left.get().checked_sub(1) {
            Some(left) => {
                self.left.set(left);
                Err(io::Error::from_raw_os_error(self.number))
            }
            None => Ok(Accepted),
        }
    }
}

// A name, a number, how often it comes, whether a connection then is accepted, and the calls and time.
const FAULTS: &[(&str, i32, u32, bool, u32, u128)] = &[
    ("none", 0, 0, true, 1, 0),
    ("ECONNABORTED", 103, 1, true, 2, 0),
    ("ECONNABORTED often", 103, 899, true, 900, 0),
    ("ECONNABORTED too often", 103, 900, false, 900, 0),
    ("EPROTO", 71, 7, true, 8, 0),
    ("EPERM", 1, 1, true, 2, 0),
    ("EMFILE", 24, 1, true, 2, 200),
    ("EMFILE often", 24, 899, true, 900, 179_800),
    ("EMFILE too often", 24, 900, false, 900, 179_800),
    ("ENFILE", 23, 2, true, 3, 400),
    ("ENOBUFS", 105, 1, true, 2, 200),
    ("ENOMEM", 12, 1, true, 2, 200),
    ("EBADF", 9, 1, false, 1, 0),
    ("EINVAL", 22, 1, false, 1, 0),
];

#[test]
fn faults(_rt: HostRuntime) -> Result<(), Fail> {
    check_faults(FAULTS)?;
    // Errors without a system number are the device's.
    let error = io::Error::from(ErrorKind::ConnectionAborted);
    demand(AcceptFault::of(&error) == AcceptFault::Device, "no number")
}

fn check_faults(rows: &[(&str, i32, u32, bool, u32, u128)]) -> Result<(), Fail> {
    for (name, number, times, holds, calls, time) in rows {
        let given = result_of(*number, *times);
        demand(given == (*holds, *calls, *time), name)?;
    }
    Ok(())
}

// Whether a connection is accepted, and the calls and time.
fn result_of(number: i32, times: u32) -> (bool, u32, u128) {
    let clock = HandClock::new();
    let listener = Failing {
        number,
        left: Cell::new(times),
        calls: Cell::new(0),
    };
    let holds = accept_from(&clock, &listener).is_ok();
    (holds, listener.calls.get(), clock.milliseconds())
}
