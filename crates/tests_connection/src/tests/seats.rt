//! Clients who are served one at a time, while another one waits or not.
//! docs/FORMATS.md, overseers. Times are in milliseconds.

use super::demand;
use super::scripted::{HandClock, ScriptStep, Scripted};
use client_connections::{ClientStream, PATIENCE_SECONDS, Queue, Seated, Waiting};
use std::cell::Cell;
use std::io::Read;
use std::test::Fail;

// The most reads.
const MOST_CALLS: u32 = 1_000;

// Nobody waits for as long as a test takes.
const NEVER: u128 = 1_000_000_000_000;

// Another client waits from this time on.
#[derive(Drop)]
struct From<'a> {
    clock: &'a HandClock,
    time: u128,
}

impl<'a> Queue for From<'a> {
    fn has_next(&self) -> bool {
        self.time <= self.clock.milliseconds()
    }
}

// A name, what the client does repeatedly, from when on another one waits, how many reads succeed, and the
// time of these and the first that fails.
const ROWS: &[(&str, &[ScriptStep], u128, u32, u128)] = &[
    (
        "silent, and nobody waits",
        &[ScriptStep::Moves(900_000, "a")],
        NEVER,
        0,
        300_000,
    ),
    (
        "silent, and another one waits",
        &[ScriptStep::Moves(900_000, "a")],
        0,
        0,
        5_000,
    ),
    (
        "silent for long when another one comes",
        &[ScriptStep::Moves(900_000, "a")],
        100_500,
        0,
        101_000,
    ),
    (
        "half a line, and another one waits",
        &[
            ScriptStep::Moves(1_000, "a"),
            ScriptStep::Moves(900_000, "b"),
        ],
        0,
        1,
        5_000,
    ),
    (
        "an octet a second, and another one waits",
        &[ScriptStep::Moves(1_000, "a")],
        0,
        5,
        5_000,
    ),
    (
        "a line just in time, and another one waits",
        &[ScriptStep::Moves(5_000, "a\n")],
        0,
        1_000,
        5_000_000,
    ),
    (
        "a line just too late, and another one waits",
        &[ScriptStep::Moves(5_001, "a\n")],
        0,
        0,
        5_000,
    ),
    (
        "a line after long silence, and nobody waits",
        &[ScriptStep::Moves(200_000, "a\n")],
        NEVER,
        1_000,
        200_000_000,
    ),
];

#[test]
fn seats(_rt: HostRuntime) -> Result<(), Fail> {
    check_rows(ROWS)
}

fn check_rows(rows: &[(&str, &[ScriptStep], u128, u32, u128)]) -> Result<(), Fail> {
    for (name, script, from, count, time) in rows {
        demand(read_by(script, *from) == (*count, *time), name)?;
    }
    Ok(())
}

// How many reads succeed, and the time.
fn read_by(script: &[ScriptStep], time: u128) -> (u32, u128) {
    let clock = HandClock::new();
    let queue = From {
        clock: &clock,
        time,
    };
    let waiting = Cell::new(Waiting::of_seconds(PATIENCE_SECONDS));
    let seated = Seated::new(&clock, Scripted::new(&clock, script), &queue);
    let mut client = ClientStream::new(&clock, seated, &waiting);
    (reads_of(&mut client), clock.milliseconds())
}

fn reads_of<R: Read>(client: &mut R) -> u32 {
    for count in 0..MOST_CALLS {
        if client.read(&mut [0; 8]).is_err() {
            return count;
        }
    }
    MOST_CALLS
}
