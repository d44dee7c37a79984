//! When the lines of a report or a table are written: at once, or, behind others, after a short time, with
//! many in a write. Used by `progress` and `table`; `shifting` and `later` run the thread that flushes them
//! in time.
use std::sync::{Condvar, Mutex, Wait};
use std::time;
use std::time::Duration;

// The most lines that wait for a write: some 4 KiB.
const MOST_LINES: u64 = 64;

// The longest that a line waits, in milliseconds.
const MOST_MILLISECONDS: u64 = 100;

/// A watcher with buffered lines.
pub(crate) trait Flushes {
    /// From now on lines may wait, since something calls `flush` in time.
    fn begin(&self);

    /// Writes the waiting lines.
    fn flush(&self);
}

// When the next lines are written.
#[derive(Clone, Copy)]
enum WritePace {
    // At once, and so are those after them: nothing calls `flush` in time.
    Each,
    // At once, since no lines were written of late.
    Next,
    // With others, in time.
    Shared,
}

/// Has no lines.
impl Flushes for () {
    fn begin(&self) {}

    fn flush(&self) {}
}

/// How many lines wait, and when the next ones are written.
#[derive(Clone, Copy)]
pub(crate) struct Unwritten {
    lines: u64,
    pace: WritePace,
}

impl Unwritten {
    /// No waiting lines, and none allowed.
    pub(crate) fn none() -> Unwritten {
        Unwritten {
            lines: 0,
            pace: WritePace::Each,
        }
    }

    /// Lets lines wait.
    pub(crate) fn begin(&mut self) {
        self.pace = WritePace::Next;
    }

    /// Adds lines. Returns whether all waiting lines must be written now.
    pub(crate) fn add(&mut self, lines: u64) -> bool {
        self.lines = self.lines.saturating_add(lines);
        let is_full = self.lines >= MOST_LINES;
        let is_due = match self.pace {
            WritePace::Each => true,
            WritePace::Next => {
                self.pace = WritePace::Shared;
                true
            }
            WritePace::Shared => is_full,
        };
        if is_due {
            self.lines = 0;
        }
        is_due
    }

    /// A flush in time. Returns whether there are lines to write; if not, the next ones are written at once.
    pub(crate) fn take(&mut self) -> bool {
        if self.lines > 0 {
            self.lines = 0;
            return true;
        }
        if let WritePace::Shared = self.pace {
            self.pace = WritePace::Next;
        }
        false
    }
}

// How far the work of a shift is.
#[derive(Clone, Copy, PartialEq, Eq)]
enum WorkPhase {
    NotBegun,
    UnderWay,
    Ended,
}

/// The work of a shift, whose lines are flushed in time.
#[derive(Drop)]
pub(crate) struct ShiftWork {
    phase: Mutex<WorkPhase>,
    changed: Condvar,
}

impl ShiftWork {
    pub(crate) fn not_begun() -> ShiftWork {
        ShiftWork {
            phase: Mutex::new(WorkPhase::NotBegun),
            changed: Condvar::new(),
        }
    }

    pub(crate) fn begin<R: Wait>(&self, rt: &R) {
        *self.phase.lock(rt) = WorkPhase::UnderWay;
        self.changed.notify_all();
    }

    pub(crate) fn end<R: Wait>(&self, rt: &R) {
        *self.phase.lock(rt) = WorkPhase::Ended;
        self.changed.notify_all();
    }

    // Waits until this phase is over, but not longer than a line may wait. Returns the phase.
    fn wait<R: Wait + time::Clock>(&self, rt: &R, phase: WorkPhase) -> WorkPhase {
        let now = self.phase.lock(rt);
        if *now != phase {
            return *now;
        }
        let most = Duration::from_millis(MOST_MILLISECONDS);
        *self.changed.wait_timeout(rt, now, most).0
    }
}

/// Flushes the lines again and again until the work has ended, and then once more. Without a second thread
/// this may run before the work: then it returns, and no line waits.
pub(crate) fn flush_in_time<L: Flushes, R: Wait + time::Clock>(
    rt: &R,
    lines: &L,
    work: &ShiftWork,
) {
    if work.wait(rt, WorkPhase::NotBegun) == WorkPhase::NotBegun {
        return;
    }
    lines.begin();
    for _ in rt.forever() {
        let phase = work.wait(rt, WorkPhase::UnderWay);
        lines.flush();
        if phase == WorkPhase::Ended {
            return;
        }
    }
}
