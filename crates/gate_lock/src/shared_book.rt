//! The book of a gate under its lock, for all that share it.
ghost use Rattle.std.specs.Prelude.{◌≡◌};
ghost use Rattle.gate_core.specs.Gate.{history};
ghost use Rattle.gate_lock.specs.Awaiting.{IsMet};
ghost use Rattle.gate_lock.specs.Desks.{IsGateOf};

use crate::awaited::Awaited;
use crate::held::Held;
use crossbeam_utils::Backoff;
use gate_core::Limits;
use gate_ledgers::{CountedBook, Gate};
use std::marker::Model;
use std::sync::{Condvar, Mutex, MutexGuard, Wait};

// How often the lock is tried before its caller sleeps. It is held for about a microsecond, and a sleep
// takes tens of these.
const TRIES: usize = 12;

/// The book of a gate under its lock. Desks and journals have this much of a `GateLock`. It opens no desk,
/// so whoever has only this can read the book, and change it at the desk that it has.
#[derive(Drop)]
pub struct SharedBook<G: Gate> {
    counted: Mutex<CountedBook<G>>,
    limits: Limits,
    // Notified of each answer that arrives, for callers that wait until a turn is over.
    moved: Condvar,
}

impl<G: Gate> Model for SharedBook<G> {
    ghost use Rattle.gate_core.specs.declared.config.Limits.{Limits};

    ghost Value = { Limits };

    ghost view = { λ shared. shared.limits };
}

impl<G: Gate> SharedBook<G> {
    pub(crate) fn new(counted: CountedBook<G>) -> SharedBook<G>
        ensures { result ≡ counted.limits }
    {
        let limits = counted.book().limits();
        SharedBook {
            counted: Mutex::new(counted),
            limits,
            moved: Condvar::new(),
        }
    }

    /// The lock, until it is dropped. Its holder must not take it again.
    pub fn lend<R: Wait>(&self, rt: &R) -> Held<'_, G>
        ensures { IsGateOf self.now 0 result }
    {
        self.lend_when(rt, 0, &Awaited::Nothing)
    }

    // The lock, once the history has this many entries and the awaited condition holds.
    pub(crate) fn lend_when<'b, R: Wait>(
        &self,
        rt: &R,
        seen: u64,
        awaited: &'b Awaited<'b>,
    ) -> Held<'_, G>
        ensures gate { IsGateOf self.now seen result }
        ensures met { IsMet awaited.now (history result) }
    {
        let limits = self.limits;
        let counted = self.take(rt);
        let guard = self.moved.wait_while(rt, counted, |counted| {
            let book = counted.book();
            book.limits() != limits || book.entry_count() < seen || !awaited.is_met(book)
        });
        let held = Held { guard };
        let _legal = held.book();
        held
    }

    // The guard of the lock. It is tried for a while even if others sleep, unlike by `Mutex::lock`: as soon as
    // one sleeps, every later caller would. The tries become rarer, since each slows the holder down.
    fn take<R: Wait>(&self, rt: &R) -> MutexGuard<'_, CountedBook<G>> {
        let backoff = Backoff::new();
        for _ in 0..TRIES {
            if let Some(counted) = self.counted.try_lock() {
                return counted;
            }
            backoff.spin();
        }
        self.counted.lock(rt)
    }

    // Wakes all callers that wait until a turn is over.
    pub(crate) fn tell(&self) {
        self.moved.notify_all();
    }
}
