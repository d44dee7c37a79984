//! The clerk of a gate: it records entries that no reply waits for, begins new files, and has bases put before
//! them.
//! The warden has one, at its own desk. docs/FORMATS.md has the files of a journal.

use crate::recorded::Recorded;
use crate::warden::Alarm;
use counted_io::DeviceFault;
use gate_core::NoMemory;
use gate_history::Segment;
use gate_journal::DeskSealer;
use gate_lock::{DesksFull, Gate, Receipts};
use journal::{Recorder, Renewal};
use journal_keepers::Looks;
use std::alloc::Global;
use std::sync::Wait;

// After this many looks, recorded entries are synced, if that happens once a second.
const SYNC_LOOKS: u64 = 10;

// After a base that could not be put, the looks before the next try: a minute.
const BASE_LOOKS: u64 = 600;

/// The recording, the desk that seals, the looks, and the base that could not be put, if any. It has no `Drop`:
/// `close` makes its receipts.
#[must_use]
pub(crate) struct Clerk<'a, 'g, G: Gate, J: Recorder, R: Wait> {
    recorded: &'g Recorded<'a, G, J, R>,
    sealer: DeskSealer<'a, 'a, G, R>,
    looks: Looks,
    // What was sealed and lacks its base, and the looks before that is tried again.
    lacking: Option<Renewal<Result<Segment, NoMemory>>>,
    rests: u64,
}

impl<'a, 'g, G: Gate, J: Recorder, R: Wait> Clerk<'a, 'g, G, J, R> {
    /// A clerk at its own desk.
    pub(crate) fn open(
        alloc: Global,
        recorded: &'g Recorded<'a, G, J, R>,
    ) -> Result<Clerk<'a, 'g, G, J, R>, DesksFull> {
        let sealer = DeskSealer::open(recorded.chronicle.rt, alloc, recorded.gate)?;
        Ok(Clerk {
            recorded,
            sealer,
            looks: Looks::new(SYNC_LOOKS),
            lacking: None,
            rests: 0,
        })
    }

    /// Records what is entered, begins a new file if it is due, and has a base put if that is.
    pub(crate) fn look<A: Alarm>(&mut self, alarm: &A) -> Result<(), DeviceFault> {
        let Recorded {
            chronicle,
            journal,
            ..
        } = self.recorded;
        self.looks.look(chronicle.rt, chronicle, *journal, false)?;
        if journal.is_due(chronicle.rt, chronicle) {
            // If memory ran out, the next try finds it too; a fault of the journal ends each session.
            let _ = journal.seal(chronicle.rt, &mut self.sealer);
        }
        self.see_to_bases(alarm);
        Ok(())
    }

    // Has a base put, unless one has failed within the last minute. The first failure is told.
    fn see_to_bases<A: Alarm>(&mut self, alarm: &A) {
        if self.rests > 0 {
            self.rests -= 1;
            return;
        }
        let is_again = self.lacking.is_some();
        let Some(renewal) = self.renewal() else {
            return;
        };
        let Recorded {
            chronicle,
            journal,
            ..
        } = self.recorded;
        let put = journal.put_base::<_, _, DeskSealer<'_, '_, G, R>>(
            chronicle.rt,
            chronicle,
            &renewal,
        );
        if let Err(fault) = put {
            if !is_again {
                alarm.base_failed(fault);
            }
            self.lacking = Some(renewal);
            self.rests = BASE_LOOKS;
        }
    }

    // What lacks its base: what failed before, or what is sealed now if a base is due.
    fn renewal(&mut self) -> Option<Renewal<Result<Segment, NoMemory>>> {
        if let Some(renewal) = self.lacking.take() {
            return Some(renewal);
        }
        let Recorded {
            chronicle,
            journal,
            ..
        } = self.recorded;
        if !journal.is_base_due(chronicle.rt) {
            return None;
        }
        Some(journal.renew(chronicle.rt, &mut self.sealer))
    }

    pub(crate) fn close(self) -> Receipts<G> {
        let Clerk {
            recorded: _,
            sealer,
            looks: _,
            lacking: _,
            rests: _,
        } = self;
        sealer.close()
    }
}
