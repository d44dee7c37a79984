//! How long the gate fetches for lines sent ahead, and which lines are read together.
//! docs/crawlgate.1.md, `--ahead`.

use super::demand;
use super::scripted::{HandClock, ScriptStep, Scripted};
use client_connections::{AtHand, ClientStream, FetchedAhead, LinesInTurn, RepliesInTurn, Waiting};
use std::alloc::Global;
use std::cell::Cell;
use std::io;
use std::io::{Read, Write};
use std::test::Fail;
use std::time::{Clock, Duration};
use stream_waits::Waits;

// The patience, and the limit of fetching for lines sent ahead, in seconds.
const PATIENCE: u64 = 300;

const AHEAD: u64 = 2;

/// A scripted client that knows whether it has sent ahead.
#[derive(Drop)]
struct Watched<'a> {
    script: Scripted<'a>,
    at_hand: &'a Cell<bool>,
}

impl<'a> Read for Watched<'a> {
    fn read(&mut self, buf: &mut [u8]) -> io::Result<usize> {
        self.script.read(buf)
    }
}

impl<'a> Write for Watched<'a> {
    fn write(&mut self, buf: &[u8]) -> io::Result<usize> {
        self.script.write(buf)
    }

    fn flush(&mut self) -> io::Result<()> {
        self.script.flush()
    }
}

impl<'a> Waits for Watched<'a> {
    fn limit_reads(&self, most: Duration) -> io::Result<()> {
        self.script.limit_reads(most)
    }

    fn limit_writes(&self, most: Duration) -> io::Result<()> {
        self.script.limit_writes(most)
    }
}

impl<'a> AtHand for Watched<'a> {
    fn is_at_hand(&self) -> io::Result<bool> {
        Ok(self.at_hand.get())
    }
}

// A name, what each read of the connection brings, and the events: `r` a read, `w` a write, in capitals if
// they fail, a number of seconds of work, and `+` or `-` if the client has sent something ahead or not.
const TURNS: &[(&str, &str, &str)] = &[
    ("fetches sent ahead, a second for each", "F\n", "+r1r1R"),
    ("refreshes sent ahead", "R\n", "+r1r1R"),
    ("other lines", "S\n", "+r9r9r"),
    (
        "a line that is waited for begins it again",
        "F\n",
        "+r1r1-r1+r1R",
    ),
    (
        "a client that waits for each reply",
        "F\n",
        "+r3-w+r3-w+r3-w+r",
    ),
    ("a line that was there before the reply", "F\n", "+r3wR"),
    (
        "a line behind the first part of a reply",
        "F\n",
        "+r3-w+wwr1r1R",
    ),
    (
        "a line that was read with the one before",
        "F\nS\n",
        "-r3wR",
    ),
    (
        "what was read whole is waited for again",
        "F\nS\n",
        "-r1r3-wr",
    ),
    ("a line in two parts", "Fabcdefgh\n", "+r1r1R"),
];

#[test]
fn turns(rt: HostRuntime) -> Result<(), Fail> {
    check_turns(rt.alloc(), TURNS)
}

fn check_turns(alloc: Global, rows: &[(&str, &'static str, &str)]) -> Result<(), Fail> {
    for (name, brought, calls) in rows {
        demand(are_in_turn(alloc, brought, calls), name)?;
    }
    Ok(())
}

fn are_in_turn(alloc: Global, brought: &'static str, calls: &str) -> bool {
    let (clock, at_hand) = (HandClock::new(), Cell::new(false));
    let waiting = Cell::new(Waiting::of_seconds(PATIENCE));
    let turn = Cell::new(FetchedAhead::new(Duration::from_secs(AHEAD)));
    let script = [ScriptStep::Moves(0, brought)];
    let read = ClientStream::new(&clock, client_of(&clock, &script, &at_hand), &waiting);
    let written = ClientStream::new(&clock, client_of(&clock, &script, &at_hand), &waiting);
    match LinesInTurn::new(alloc, read, &turn) {
        Ok(mut lines) => {
            let mut replies = RepliesInTurn::new(written, &turn);
            are_so(&mut lines, &mut replies, &clock, &at_hand, calls)
        }
        Err(_) => false,
    }
}

fn client_of<'a>(
    clock: &'a HandClock,
    script: &'a [ScriptStep],
    at_hand: &'a Cell<bool>,
) -> Watched<'a> {
    Watched {
        script: Scripted::new(clock, script),
        at_hand,
    }
}

fn are_so<L: Read, W: Write>(
    lines: &mut L,
    replies: &mut W,
    clock: &HandClock,
    at_hand: &Cell<bool>,
    calls: &str,
) -> bool {
    for call in calls.bytes() {
        if !is_so(lines, replies, clock, at_hand, call) {
            return false;
        }
    }
    true
}

fn is_so<L: Read, W: Write>(
    lines: &mut L,
    replies: &mut W,
    clock: &HandClock,
    at_hand: &Cell<bool>,
    call: u8,
) -> bool {
    match call {
        b'+' | b'-' => {
            at_hand.set(call == b'+');
            true
        }
        b'1'..=b'9' => {
            clock.sleep(Duration::from_secs(u64::from(call - b'0')));
            true
        }
        b'r' | b'R' => lines.read(&mut [0; 8]).is_ok() == (call == b'r'),
        _ => replies.write(b"b").is_ok() == (call == b'w'),
    }
}

// A name, what the connection brings at once, the octets of a read, and those that each read returns.
const LINES: &[(&str, &str, usize, &[usize])] = &[
    ("other lines together", "a\nbc\n\nd", 8, &[7]),
    ("a fetch by itself", "F\nS\n", 8, &[2, 2]),
    ("up to a fetch", "S\nR\nF\n", 8, &[2, 2, 2]),
    ("a fetch in parts", "Fab\nS\n", 2, &[2, 2, 2]),
    ("a letter within a line", "SF\nS\n", 8, &[5]),
    ("no room", "F\n", 0, &[0, 0]),
];

#[test]
fn together(rt: HostRuntime) -> Result<(), Fail> {
    check_lines(rt.alloc(), LINES)
}

fn check_lines(alloc: Global, rows: &[(&str, &'static str, usize, &[usize])]) -> Result<(), Fail> {
    for (name, brought, room, counts) in rows {
        demand(come_together(alloc, brought, *room, counts), name)?;
    }
    Ok(())
}

fn come_together(alloc: Global, brought: &'static str, room: usize, counts: &[usize]) -> bool {
    let (clock, at_hand) = (HandClock::new(), Cell::new(true));
    let waiting = Cell::new(Waiting::of_seconds(PATIENCE));
    let turn = Cell::new(FetchedAhead::new(Duration::from_secs(AHEAD)));
    let script = [ScriptStep::Moves(0, brought)];
    let read = ClientStream::new(&clock, client_of(&clock, &script, &at_hand), &waiting);
    match LinesInTurn::new(alloc, read, &turn) {
        Ok(mut lines) => are_read(&mut lines, room, counts),
        Err(_) => false,
    }
}

fn are_read<L: Read>(lines: &mut L, room: usize, counts: &[usize]) -> bool {
    for count in counts {
        match lines.read(&mut [0; 8][..room.min(8)]) {
            Ok(read) if read == *count => {}
            _ => return false,
        }
    }
    true
}
