//! What is read from closing connections.
//! docs/FORMATS.md, limits. Times are in milliseconds.

use super::demand;
use super::scripted::{HandClock, ScriptStep, Scripted};
use client_connections::read_out;
use std::test::Fail;

const SIXTEEN: &str = "0123456789abcdef";

// A name, what the client does repeatedly, and the octets and time of reading.
const PARTINGS: &[(&str, &[ScriptStep], usize, u128)] = &[
    ("it closes", &[], 0, 0),
    (
        "it closes behind a few octets",
        &[ScriptStep::Moves(10, "abc"), ScriptStep::Moves(10, "")],
        3,
        20,
    ),
    (
        "it sends without end",
        &[ScriptStep::Moves(0, SIXTEEN)],
        65_536,
        0,
    ),
    ("it is silent", &[ScriptStep::Moves(900_000, "a")], 0, 1_000),
    ("it sends slowly", &[ScriptStep::Moves(300, "a")], 3, 1_000),
    (
        "it resets",
        &[ScriptStep::Moves(0, "a"), ScriptStep::Resets(7)],
        1,
        7,
    ),
    (
        "a signal comes",
        &[
            ScriptStep::Interrupts(1),
            ScriptStep::Moves(1, "a"),
            ScriptStep::Interrupts(1),
            ScriptStep::Moves(1, ""),
        ],
        1,
        4,
    ),
];

#[test]
fn partings(_rt: HostRuntime) -> Result<(), Fail> {
    check_partings(PARTINGS)?;
    // Nothing is read from a client that is gone.
    let gone = read_of(&[ScriptStep::Moves(0, SIXTEEN)], false);
    demand(gone == (0, 0), "it is gone")
}

fn check_partings(rows: &[(&str, &[ScriptStep], usize, u128)]) -> Result<(), Fail> {
    for (name, script, octets, time) in rows {
        demand(read_of(script, true) == (*octets, *time), name)?;
    }
    Ok(())
}

// The octets that are read from a client, and the time.
fn read_of(script: &[ScriptStep], is_there: bool) -> (usize, u128) {
    let clock = HandClock::new();
    let mut client = Scripted::new(&clock, script);
    client.is_there = is_there;
    read_out(&clock, &mut client);
    (client.moved, clock.milliseconds())
}
