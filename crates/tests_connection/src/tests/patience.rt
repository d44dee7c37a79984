//! How long reads and writes wait for a client.
//! docs/FORMATS.md, limits. Times are in milliseconds.

use super::demand;
use super::scripted::{HandClock, ScriptStep, Scripted};
use client_connections::{ClientStream, PATIENCE_SECONDS, Waiting};
use std::cell::Cell;
use std::io::{Read, Write};
use std::test::Fail;

// The most reads.
const MOST_CALLS: u32 = 1_000;

// A name, what the client does repeatedly, how many reads succeed, and the time of these and the first that
// fails.
const READS: &[(&str, &[ScriptStep], u32, u128)] = &[
    (
        "nothing comes",
        &[ScriptStep::Moves(900_000, "a")],
        0,
        300_000,
    ),
    (
        "an octet a second",
        &[ScriptStep::Moves(1_000, "a")],
        300,
        300_000,
    ),
    (
        "an octet in less than a second",
        &[ScriptStep::Moves(700, "a")],
        428,
        300_000,
    ),
    (
        "a line just in time",
        &[ScriptStep::Moves(300_000, "a\n")],
        1_000,
        300_000_000,
    ),
    (
        "a line just too late",
        &[ScriptStep::Moves(300_001, "a\n")],
        0,
        300_000,
    ),
    (
        "half lines, and their ends just in time",
        &[
            ScriptStep::Moves(200_000, "a"),
            ScriptStep::Moves(100_000, "b\nc"),
        ],
        1_000,
        150_000_000,
    ),
    (
        "a line without its end",
        &[
            ScriptStep::Moves(0, "a\nb"),
            ScriptStep::Moves(900_000, "c"),
        ],
        1,
        300_000,
    ),
    (
        "a signal each second",
        &[ScriptStep::Interrupts(1_000)],
        0,
        300_000,
    ),
    (
        "a reset",
        &[ScriptStep::Moves(1_000, "a"), ScriptStep::Resets(1_000)],
        1,
        2_000,
    ),
];

#[test]
fn reads(_rt: HostRuntime) -> Result<(), Fail> {
    check_reads(READS)?;
    // The patience may be another.
    let given = read_by(2, &[ScriptStep::Moves(500, "a")]);
    demand(given == (4, 2_000), "two seconds")
}

fn check_reads(rows: &[(&str, &[ScriptStep], u32, u128)]) -> Result<(), Fail> {
    for (name, script, count, time) in rows {
        demand(read_by(PATIENCE_SECONDS, script) == (*count, *time), name)?;
    }
    Ok(())
}

// How many reads succeed, and the time.
fn read_by(patience: u64, script: &[ScriptStep]) -> (u32, u128) {
    let clock = HandClock::new();
    let waiting = Cell::new(Waiting::of_seconds(patience));
    let mut client = ClientStream::new(&clock, Scripted::new(&clock, script), &waiting);
    (reads_of(&mut client), clock.milliseconds())
}

fn reads_of<R: Read>(client: &mut R) -> u32 {
    for count in 0..MOST_CALLS {
        if client.read(&mut [0; 8]).is_err() {
            return count;
        }
    }
    MOST_CALLS
}

// How many writes succeed before one fails. They end lines, but the client doesn't.
const WRITES: &[(&str, &[ScriptStep], u32, u128)] = &[
    (
        "nothing is taken",
        &[ScriptStep::Moves(900_000, "a")],
        0,
        300_000,
    ),
    (
        "an octet a second",
        &[ScriptStep::Moves(1_000, "\n")],
        300,
        300_000,
    ),
    (
        "a signal each second",
        &[ScriptStep::Interrupts(1_000)],
        0,
        300_000,
    ),
    (
        "a reset",
        &[ScriptStep::Moves(0, "a"), ScriptStep::Resets(7)],
        1,
        7,
    ),
];

#[test]
fn writes(_rt: HostRuntime) -> Result<(), Fail> {
    check_writes(WRITES)
}

fn check_writes(rows: &[(&str, &[ScriptStep], u32, u128)]) -> Result<(), Fail> {
    for (name, script, count, time) in rows {
        demand(written_by(script) == (*count, *time), name)?;
    }
    Ok(())
}

fn written_by(script: &[ScriptStep]) -> (u32, u128) {
    let clock = HandClock::new();
    let waiting = Cell::new(Waiting::of_seconds(PATIENCE_SECONDS));
    let mut client = ClientStream::new(&clock, Scripted::new(&clock, script), &waiting);
    (writes_of(&mut client), clock.milliseconds())
}

fn writes_of<W: Write>(client: &mut W) -> u32 {
    for count in 0..MOST_CALLS {
        if client.write(b"\n\n").is_err() {
            return count;
        }
    }
    MOST_CALLS
}

// A name, the client's steps for reads and for writes, and the calls in order: `r` and `w`, in capitals if
// they fail.
const BOTH: &[(&str, &[ScriptStep], &[ScriptStep], &str)] = &[
    (
        "the waiting of both sides adds up",
        &[ScriptStep::Moves(100_000, "a")],
        &[ScriptStep::Moves(150_000, "b")],
        "rwRW",
    ),
    (
        "a line that is read begins it again",
        &[ScriptStep::Moves(100_000, "a\n")],
        &[ScriptStep::Moves(200_000, "b")],
        "rwrw",
    ),
    (
        "nothing succeeds any more, though all is there",
        &[ScriptStep::Moves(400_000, "a"), ScriptStep::Moves(0, "b\n")],
        &[ScriptStep::Moves(0, "c")],
        "RWRW",
    ),
    (
        "a write that fails has all fail",
        &[ScriptStep::Moves(0, "a\n")],
        &[ScriptStep::Moves(300_001, "b")],
        "rWRW",
    ),
];

#[test]
fn both_sides(_rt: HostRuntime) -> Result<(), Fail> {
    for (name, read, written, want) in BOTH {
        demand(are_so(read, written, want), name)?;
    }
    Ok(())
}

fn are_so(read: &[ScriptStep], written: &[ScriptStep], want: &str) -> bool {
    let clock = HandClock::new();
    let waiting = Cell::new(Waiting::of_seconds(PATIENCE_SECONDS));
    let mut reader = ClientStream::new(&clock, Scripted::new(&clock, read), &waiting);
    let mut writer = ClientStream::new(&clock, Scripted::new(&clock, written), &waiting);
    want.bytes()
        .all(|call| is_so(&mut reader, &mut writer, call))
}

// Whether this call succeeds, or fails, as its letter says.
fn is_so<R: Read, W: Write>(reader: &mut R, writer: &mut W, call: u8) -> bool {
    match call {
        b'r' => reader.read(&mut [0; 8]).is_ok(),
        b'R' => reader.read(&mut [0; 8]).is_err(),
        b'w' => writer.write(b"b").is_ok(),
        _ => writer.write(b"b").is_err(),
    }
}
