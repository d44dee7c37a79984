//! What stands beside a keeper's desk: a journal of its gate, or nothing.
//! Asked by `DeskKeeper` for room before it makes entries, and for its seals.

use gate_core::NoMemory;
use gate_history::Segment;
use gate_lock::{Desk, Gate};
use std::sync::Wait;

/// What records a gate beside the desks of its keepers.
pub trait DeskRecords {
    ghost use Rattle.std.specs.Prelude.{Bool, Result};
    ghost use Rattle.gate_history.specs.Segment.{Sealed};
    ghost use Rattle.gate_core.specs.declared.refusal.NoMemory.{NoMemory};
    ghost use Rattle.gate_lock.specs.Desks.{DeskView};
    ghost use Rattle.gate_lock.specs.Steps.{DeskSeals, Somewhere};

    /// What it may answer when it is asked for room.
    ghost rooms: { Self → Bool → Type 0 };

    /// What its seal does to a desk, and the seal's result.
    ghost seals: { Self → DeskView → Result Sealed NoMemory → DeskView → Type 0 };

    /// Whether there is room for the records of more entries.
    fn has_room(&self) -> bool
        ensures { rooms self.now result };

    /// Seals at this desk.
    fn seal<G: Gate, R: Wait>(&self, rt: &R, desk: &mut Desk<'_, G>) -> Result<Segment, NoMemory>
        ensures seals { seals self.now desk.old result desk.new }
        ensures desk { Somewhere desk.old
            (λ old new. DeskSeals desk.old old result new desk.new) };
}

/// No records: there is always room, and a seal is the desk's.
#[derive(Clone, Copy, Debug)]
pub struct NoRecords;

impl DeskRecords for NoRecords {
    ghost use Rattle.std.specs.Prelude.{◌≡◌, true};
    ghost use Rattle.gate_lock.specs.Steps.{DeskSeals, Somewhere};

    ghost rooms = { λ _ has. has ≡ true };

    ghost seals = { λ _ d result d2. Somewhere d (λ old new. DeskSeals d old result new d2) };

    fn has_room(&self) -> bool {
        true
    }

    fn seal<G: Gate, R: Wait>(&self, rt: &R, desk: &mut Desk<'_, G>) -> Result<Segment, NoMemory> {
        desk.seal(rt)
    }
}
