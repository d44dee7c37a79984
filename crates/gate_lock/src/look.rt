//! `Desk::sweep`, and what a desk may know of an authority: `state_of` and `wait_answer`.
//! RFC 9309, section 2.4.
ghost use Rattle.std.specs.Prelude.{◌≡◌, ◌≤◌, Err, false};
ghost use Rattle.gate_history.specs.History.{entry_count};
ghost use Rattle.gate_core.specs.Gate.{history};
ghost use Rattle.gate_core.specs.Replies.{Sweeps};
ghost use Rattle.gate_lock.specs.Desks.{KeepsOut};
ghost use Rattle.gate_lock.specs.Steps.{DeskReads, DeskSweeps, Somewhere};

use crate::awaited::Awaited;
use crate::desk::{Desk, make_room};
use crate::held::Held;
use gate_core::{Book, State, SweepRefusal};
use gate_ledgers::Gate;
use std::sync::Wait;

#[tactic(auto)]
impl<'a, G: Gate> Desk<'a, G> {
    /// Drops the answers that are older than their lifetimes, and returns how many.
    pub fn sweep<R: Wait>(&mut self, rt: &R, moment: u64) -> Result<u64, SweepRefusal>
        ensures step { Somewhere self.old
            (λ old new. DeskSweeps self.old old moment result new self.new) }
        ensures no { self.new.no ≡ self.old.no }
        ensures out { KeepsOut self.old self.new }
    {
        let promised = self.promised();
        let _ = make_room(&mut self.account, promised, 1);
        let mut held = self.lend(rt);
        self.sweep_in(&mut held, moment)
    }

    /// Like `sweep`, while the lock is held.
    pub fn sweep_in(&mut self, held: &mut Held<'_, G>, moment: u64) -> Result<u64, SweepRefusal>
        requires { self.old.seen ≤ entry_count (history held.old) }
        ensures { DeskSweeps self.old held.old moment result held.new self.new }
    {
        let counted = &mut *held.guard;
        let promised = self.promised();
        if make_room(&mut self.account, promised, 1).is_err() {
            self.seen = counted.entry_count();
            return Err(refused_sweep(counted.book(), moment));
        }
        let result = counted.sweep(moment, &mut self.account);
        self.seen = counted.entry_count();
        result
    }

    /// What is known of an authority at this moment. Takes no memory.
    pub fn state_of<R: Wait>(&mut self, rt: &R, authority: &str, moment: u64) -> State
        ensures step { Somewhere self.old
            (λ old new. DeskReads self.old old authority.now moment result new self.new) }
        ensures no { self.new.no ≡ self.old.no }
        ensures out { KeepsOut self.old self.new }
    {
        let mut held = self.lend(rt);
        self.state_in(&mut held, authority, moment)
    }

    /// Like `state_of`, while the lock is held.
    pub fn state_in(&mut self, held: &mut Held<'_, G>, authority: &str, moment: u64) -> State
        requires { self.old.seen ≤ entry_count (history held.old) }
        ensures { DeskReads self.old held.old authority.now moment result held.new self.new }
    {
        self.seen = held.guard.entry_count();
        held.guard.book().state_of(authority, moment)
    }

    /// Waits while a turn of the authority is in flight, then returns what is known of it. The lock is free
    /// meanwhile; each arrival wakes all that wait.
    pub fn wait_answer<R: Wait>(&mut self, rt: &R, authority: &str, moment: u64) -> State
        ensures step { Somewhere self.old
            (λ old new. DeskReads self.old old authority.now moment result new self.new) }
        ensures no { self.new.no ≡ self.old.no }
        ensures out { KeepsOut self.old self.new }
        ensures idle { result.fetching ≡ false }
    {
        let mut held = self.lend_when(rt, &Awaited::Idle { authority });
        self.state_in(&mut held, authority, moment)
    }
}

// The refusal of a sweep that ran out of memory before it was made.
fn refused_sweep(book: &Book, moment: u64) -> SweepRefusal
    ensures { Sweeps book.now moment (Err result) book.now }
{
    if book.has_room(1) {
        return SweepRefusal::NoMemory;
    }
    SweepRefusal::LogFull
}
