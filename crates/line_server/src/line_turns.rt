//! Turns of the sessions whose clients send several lines at once. A gate's lock is cheap for the thread that had
//! it last, and several times as dear after another one: so such a session answers all these lines in a row.
//! A turn is no lock. Nobody waits for it for long, and who keeps it, as in a fetch, loses it to the next one.

use counted_io::{DeviceFault, Sink, Source};
use std::cell::Cell;
use std::hint::spin_loop;
use std::sync::atomic::{AtomicU64, Ordering};

// How often a session looks whether the turn is free, before it takes the turn from the one that has it: in all
// about a millisecond.
const LOOKS: u32 = 100;

// The pauses of the processor between two looks: some microseconds.
const PAUSES: u32 = 128;

// The number of no session.
const NOBODY: u64 = 0;

/// Whose turn it is.
#[derive(Drop)]
pub(crate) struct LineTurns {
    whose: AtomicU64,
    // How many sessions have a number.
    drawn: AtomicU64,
}

impl LineTurns {
    /// It is nobody's turn.
    pub(crate) fn new() -> LineTurns {
        LineTurns {
            whose: AtomicU64::new(NOBODY),
            drawn: AtomicU64::new(0),
        }
    }

    /// One more session.
    pub(crate) fn session(&self) -> SessionTurn<'_> {
        SessionTurn {
            turns: self,
            number: self.drawn.fetch_add(1, Ordering::Relaxed).wrapping_add(1),
            has: Cell::new(false),
        }
    }

    // Takes the turn for a session if it is nobody's.
    fn try_take(&self, number: u64) -> bool {
        self.whose.load(Ordering::Relaxed) == NOBODY && self.pass(NOBODY, number)
    }

    // Passes the turn on, if it is still that session's.
    fn pass(&self, from: u64, to: u64) -> bool {
        self.whose
            .compare_exchange(from, to, Ordering::Relaxed, Ordering::Relaxed)
            .is_ok()
    }
}

/// A session among the others.
#[derive(Drop)]
pub(crate) struct SessionTurn<'t> {
    turns: &'t LineTurns,
    number: u64,
    // Whether it has taken the turn, which another one may have by now.
    has: Cell<bool>,
}

impl SessionTurn<'_> {
    // Takes the turn as soon as it is free, or after a while.
    fn take(&self) {
        self.has.set(true);
        for _ in 0..LOOKS {
            if self.turns.try_take(self.number) {
                return;
            }
            pause();
        }
        self.turns.whose.store(self.number, Ordering::Relaxed);
    }

    /// Gives the turn back, if it has it.
    pub(crate) fn give_back(&self) {
        if self.has.get() {
            self.has.set(false);
            self.turns.pass(self.number, NOBODY);
        }
    }
}

fn pause() {
    for _ in 0..PAUSES {
        spin_loop();
    }
}

/// A session's lines. It takes the turn for several that were read at once.
#[derive(Drop)]
pub(crate) struct LinesInARow<'t, I> {
    pub(crate) turn: &'t SessionTurn<'t>,
    pub(crate) lines: I,
}

impl<I: Source> Source for LinesInARow<'_, I> {
    ghost left = { λ s. I.left s.lines };

    ghost failures = { λ s. I.failures s.lines };

    fn read(&mut self, buffer: &mut [u8]) -> Result<usize, DeviceFault> {
        self.turn.give_back();
        let taken = self.lines.read(buffer)?;
        if are_several(&buffer[..taken]) {
            self.turn.take();
        }
        Ok(taken)
    }
}

// Whether octets follow the first line.
fn are_several(octets: &[u8]) -> bool {
    match octets.iter().position(|octet| *octet == b'\n') {
        Some(end) => end < octets.len() - 1,
        None => false,
    }
}

/// A session's replies. It gives the turn back before they are written, for which it may have to wait.
#[derive(Drop)]
pub(crate) struct RepliesInARow<'t, O> {
    pub(crate) turn: &'t SessionTurn<'t>,
    pub(crate) replies: O,
}

impl<O: Sink> Sink for RepliesInARow<'_, O> {
    ghost written = { λ s. O.written s.replies };

    ghost failures = { λ s. O.failures s.replies };

    fn write(&mut self, bytes: &[u8]) -> Result<usize, DeviceFault> {
        self.turn.give_back();
        self.replies.write(bytes)
    }
}
