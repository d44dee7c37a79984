//! `Desk::condense`: of sealed entries a desk keeps only the places.
ghost use Rattle.std.specs.Prelude.{◌≡◌};
ghost use Rattle.gate_lock.specs.Desks.{Condenses, out_of};
ghost use Rattle.gate_lock.specs.Steps.{Somewhere};

use crate::desk::Desk;
use gate_ledgers::Gate;
use std::sync::Wait;

#[tactic(auto)]
impl<'a, G: Gate> Desk<'a, G> {
    /// Whether the next call may allocate for marks: the time to condense.
    pub fn is_full(&self) -> bool {
        self.account.room() - self.account.marks().len() < self.promised() as usize + 3
    }

    /// Of the first marks whose entries were sealed, keeps only the place (eight octets) and the count of
    /// started fetches. The work is bounded: all marks stay whole if fewer than half are sealed, or if
    /// memory runs out. Makes no entry.
    pub fn condense<R: Wait>(&mut self, rt: &R)
        ensures step { Somewhere self.old
            (λ old new. (new ≡ old) × Condenses self.old old self.new) }
        ensures no { self.new.no ≡ self.old.no }
        ensures out { out_of self.new ≡ out_of self.old }
    {
        let sealed = {
            let held = self.lend(rt);
            self.seen = held.guard.entry_count();
            held.sealed_count()
        };
        self.account.condense(sealed);
    }
}
