//! A keeper's desk that ends a journal's file: the file ends with what its seal hands out.
//! Used by `JournalRecords`.

use counted_io::{DeviceFault, Output, Sink};
use gate_core::NoMemory;
use gate_history::Segment;
use gate_journal::{base_entries_of, rest_of, write_base_of};
use gate_lock::{Desk, Gate};
use journal::{JournalFault, JournalPosition, Rest, Sealer};
use std::sync::Wait;

/// A desk that is lent for a seal.
#[derive(Drop)]
pub(crate) struct LentDesk<'r, 'd, 'g, G: Gate, R: Wait> {
    pub(crate) rt: &'r R,
    pub(crate) desk: &'d mut Desk<'g, G>,
}

impl<'r, 'd, 'g, G: Gate, R: Wait> Sealer for LentDesk<'r, 'd, 'g, G, R> {
    ghost use Rattle.std.specs.Prelude.{◌≡◌};
    ghost use Rattle.gate_lock.specs.Steps.{DeskSeals, Somewhere};
    ghost use Rattle.gate_journal.specs.Follows.{BaseNumber, BaseText, EndsFile, HandsNothing, PartOf};

    type Sealed = Result<Segment, NoMemory>;

    ghost seals = { λ s sealed s2. (s2.desk.ghost_name ≡ s.desk.ghost_name)
        × Somewhere s.desk.now (λ old new. DeskSeals s.desk.now old sealed new s2.desk.now) };

    ghost parts = { PartOf };

    ghost ends = { EndsFile };

    ghost nothing = { HandsNothing };

    ghost numbers = { BaseNumber };

    ghost bases = { BaseText };

    fn seal(&mut self) -> Result<Segment, NoMemory> {
        self.desk.seal(self.rt)
    }

    fn rest(
        sealed: &Result<Segment, NoMemory>,
        output: &mut Output,
        place: JournalPosition,
        room: Vec<u8>,
    ) -> Result<Rest, JournalFault> {
        rest_of(sealed, output, place, room)
    }

    fn base_entries(sealed: &Result<Segment, NoMemory>) -> Option<u64> {
        base_entries_of(sealed)
    }

    fn write_base<W: Sink>(
        sealed: &Result<Segment, NoMemory>,
        output: &mut Output,
        sink: &mut W,
    ) -> Result<(), DeviceFault> {
        write_base_of(sealed, output, sink)
    }
}
