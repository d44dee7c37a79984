//! A gate's journal beside the desks of its keepers: their seals end its file, and begin the next.
//! Without room for the journal's files a keeper makes no entry but for what is out, and no file.
//! docs/SEALING.md has what a seal hands out.

use crate::lent_desk::LentDesk;
use gate_core::NoMemory;
use gate_history::Segment;
use gate_lock::{Desk, Gate};
use journal::{Chronicle, Recorder};
use keepers::DeskRecords;
use std::sync::Wait;

/// A gate's journal, as its keepers see it.
#[derive(Clone, Copy)]
pub struct JournalRecords<'a, H, J> {
    /// The gate.
    pub chronicle: &'a H,
    /// Its journal.
    pub journal: &'a J,
}

impl<'a, H: Chronicle, J: Recorder> DeskRecords for JournalRecords<'a, H, J> {
    ghost use Rattle.std.specs.Prelude.{⊤};
    ghost use Rattle.gate_lock.specs.Steps.{DeskSeals, Somewhere};

    ghost rooms = { λ _ _. ⊤ };

    ghost seals = { λ _ d result d2. Somewhere d (λ old new. DeskSeals d old result new d2) };

    fn has_room(&self) -> bool {
        self.journal.has_room()
    }

    fn seal<G: Gate, R: Wait>(&self, rt: &R, desk: &mut Desk<'_, G>) -> Result<Segment, NoMemory> {
        let mut lent = LentDesk { rt, desk };
        self.journal.seal(rt, &mut lent)
    }
}
