//! `DeskSealer`: a desk that ends a journal's file.
//! The file ends with what its seal hands out.
ghost use Rattle.std.specs.Prelude.{◌≡◌, IfOk};
ghost use Rattle.gate_lock.specs.Desks.{IsNew, out_of, receipt_of};

use crate::spelling::{base_entries_of, rest_of, write_base_of};
use counted_io::{DeviceFault, Output, Sink};
use gate_core::NoMemory;
use gate_history::Segment;
use gate_lock::{Desk, DesksFull, Gate, GateLock, Receipts};
use journal::{JournalFault, JournalPosition, Rest, Sealer};
use std::alloc::Global;
use std::sync::Wait;

/// A desk that only seals, with nothing outstanding. It has no `Drop`: `close` makes its receipts.
#[must_use]
pub struct DeskSealer<'a, 'g, G: Gate, R: Wait> {
    rt: &'a R,
    desk: Desk<'g, G>,
    ghost rests: { out_of desk ≡ 0 },
}

impl<'a, 'g, G: Gate, R: Wait> DeskSealer<'a, 'g, G, R> {
    /// A new desk for it.
    pub fn open(
        rt: &'a R,
        alloc: Global,
        gate: &'g GateLock<G>,
    ) -> Result<DeskSealer<'a, 'g, G, R>, DesksFull>
        ensures { IfOk result (λ sealer. IsNew gate.now sealer.desk) }
    {
        let desk = gate.desk(rt, alloc)?;
        Ok(DeskSealer { rt, desk })
    }

    /// Closes the desk.
    pub fn close(self) -> Receipts<G>
        ensures { result ≡ receipt_of self.entry.desk }
    {
        let DeskSealer { rt: _, desk } = self;
        desk.close()
    }
}

impl<'a, 'g, G: Gate, R: Wait> Sealer for DeskSealer<'a, 'g, G, R> {
    ghost use Rattle.gate_lock.specs.Steps.{DeskSeals, Somewhere};
    ghost use Rattle.gate_journal.specs.Follows.{BaseNumber, BaseText, EndsFile, HandsNothing, PartOf};

    type Sealed = Result<Segment, NoMemory>;

    ghost seals = { λ s sealed s2. Somewhere s.desk
        (λ old new. DeskSeals s.desk old sealed new s2.desk) };

    ghost parts = { PartOf };

    ghost ends = { EndsFile };

    ghost nothing = { HandsNothing };

    ghost numbers = { BaseNumber };

    ghost bases = { BaseText };

    fn seal(&mut self) -> Result<Segment, NoMemory> {
        self.desk.seal(self.rt)
    }

    fn rest(
        sealed: &Result<Segment, NoMemory>,
        output: &mut Output,
        place: JournalPosition,
        room: Vec<u8>,
    ) -> Result<Rest, JournalFault> {
        rest_of(sealed, output, place, room)
    }

    fn base_entries(sealed: &Result<Segment, NoMemory>) -> Option<u64> {
        base_entries_of(sealed)
    }

    fn write_base<W: Sink>(
        sealed: &Result<Segment, NoMemory>,
        output: &mut Output,
        sink: &mut W,
    ) -> Result<(), DeviceFault> {
        write_base_of(sealed, output, sink)
    }
}
