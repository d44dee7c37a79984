//! A journal whose tape fails at each call in turn, and what a recovery keeps of what a crash then leaves.
//! A line is told if its commit returned Ok.

use counted_io::FailAt;
use crawl_audit::{RecoverFault, recover};
use journal::{Journal, MemoryTape, Tape};
use std::alloc::Global;
use std::hash::RandomState;
use std::test::Fail;

const LINES: [&[u8]; 4] = [
    b"V 2\n",
    b"B 1 a.example 1\n",
    b"A 2 a.example 1 C network\n",
    b"B 3 b.example 2\n",
];

const TEXT: &[u8] = b"V 2\nB 1 a.example 1\nA 2 a.example 1 C network\nB 3 b.example 2\n";

// Where the text of no line, of one, and so on ends.
const ENDS: [u64; 5] = [0, 4, 20, 46, 62];

// The most tape calls for the lines, at three octets a call.
const CALLS: u64 = 27;

#[test]
fn what_was_told_is_left(rt: HostRuntime) -> Result<(), Fail> {
    let kept = kept_of_fronts(&rt)?;
    for fails_at in 0..CALLS {
        for more in 0..32 {
            if !leaves_what_was_told(rt.alloc(), kept.as_slice(), fails_at, more) {
                return Err(Fail::new(format_args!("{fails_at} {more}")));
            }
        }
    }
    Ok(())
}

#[test]
fn all_is_told_where_nothing_fails(rt: HostRuntime) -> Result<(), Fail> {
    let mut journal = Journal::new(MemoryTape::new(Vec::new(rt.alloc()), 3, None));
    let told = told_lines(&mut journal);
    if told == LINES.len() && journal.tape().left(0) == TEXT {
        Ok(())
    } else {
        Err(Fail::new("the lines"))
    }
}

// How many octets a recovery keeps of each front of the text, the shortest first.
fn kept_of_fronts(rt: &HostRuntime) -> Result<Vec<u64>, Fail> {
    let mut kept = Vec::new(rt.alloc());
    let mut front = Vec::new(rt.alloc());
    kept.push(kept_octets(rt, &[])?)?;
    for octet in TEXT {
        front.push(*octet)?;
        kept.push(kept_octets(rt, front.as_slice())?)?;
    }
    Ok(kept)
}

// How many octets of this a recovery keeps.
fn kept_octets(rt: &HostRuntime, left: &[u8]) -> Result<u64, Fail> {
    let alloc = rt.alloc();
    let mut reader = FailAt::new(left.to_vec(alloc)?, 64, None);
    match recover(alloc, RandomState::new(rt)?, &mut reader) {
        Ok(found) => Ok(found.whole),
        // No line is whole.
        Err(RecoverFault::NoEntries(1)) => Ok(0),
        Err(_) => Err(Fail::new("a front is refused")),
    }
}

// Whether a crash after the first fault leaves the told lines, and then a prefix of lines.
fn leaves_what_was_told(alloc: Global, kept: &[u64], fails_at: u64, more: usize) -> bool {
    let mut journal = Journal::new(MemoryTape::new(Vec::new(alloc), 3, Some(fails_at)));
    let told = told_lines(&mut journal);
    has_told(kept, journal.tape().left(more), told) && journal.has_failed()
}

// Whether the whole lines of this, by what is kept of each front, are so many lines or more.
fn has_told(kept: &[u64], left: &[u8], told: usize) -> bool {
    let whole = kept.get(left.len());
    TEXT.starts_with(left) && ENDS.iter().skip(told).any(|end| whole == Some(end))
}

// Commits the lines one by one, even after a fault, and counts the Ok ones.
fn told_lines(journal: &mut Journal<MemoryTape>) -> usize {
    let mut told: usize = 0;
    for line in LINES {
        if journal.commit(line).is_ok() {
            told = told.saturating_add(1);
        }
    }
    told
}
