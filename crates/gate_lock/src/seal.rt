//! `Desk::seal` hands out the entries since the last seal.
//! RFC 9309, sections 2.3.1 and 2.4: what they left open still holds.
ghost use Rattle.std.specs.Prelude.{◌≤◌};
ghost use Rattle.gate_history.specs.History.{entry_count};
ghost use Rattle.gate_core.specs.Gate.{history};
ghost use Rattle.gate_ledgers.specs.Entered.{handed_by};
ghost use Rattle.gate_lock.specs.Desks.{HandsOutMore};
ghost use Rattle.gate_lock.specs.Steps.{DeskSeals, Somewhere};

use crate::desk::Desk;
use crate::held::Held;
use gate_core::NoMemory;
use gate_history::Segment;
use gate_ledgers::Gate;
use std::sync::Wait;

#[tactic(auto)]
impl<'a, G: Gate> Desk<'a, G> {
    /// Hands out the entries of all desks since the last seal, with what they follow. The gate continues
    /// from what they left open; its places, and what is out, stay. Makes no entry and brings no moment. If
    /// memory runs out nothing changes. This desk counts what it handed out, so settling a sealed gate
    /// needs the receipts of the desks that sealed it.
    pub fn seal<R: Wait>(&mut self, rt: &R) -> Result<Segment, NoMemory>
        ensures step { Somewhere self.old
            (λ old new. DeskSeals self.old old result new self.new) }
        ensures hands { HandsOutMore self.old (handed_by result) self.new }
    {
        let mut held = self.lend(rt);
        self.seal_in(&mut held)
    }

    /// Like `seal`, while the lock is held.
    pub fn seal_in(&mut self, held: &mut Held<'_, G>) -> Result<Segment, NoMemory>
        requires { self.old.seen ≤ entry_count (history held.old) }
        ensures { DeskSeals self.old held.old result held.new self.new }
    {
        self.seen = held.guard.entry_count();
        held.guard.seal(&mut self.account)
    }
}
