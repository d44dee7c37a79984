//! A journal's next base: what is recorded is sealed, and then the base before it is put in front of its log,
//! while entries go on.
//! docs/FORMATS.md has the files of a journal.
ghost use Rattle.std.specs.Prelude.{◌≡◌, IfOk, ⊤};
ghost use Rattle.journal.specs.Shelves.{IfKnown};

use crate::base_shelf::BaseShelf;
use crate::chronicle::{Chronicle, Sealer};
use crate::distance::Distance;
use crate::fault::JournalFault;
use crate::group::{GroupJournal, WriterAccess};
use crate::journaled_sink::CatchesUp;
use crate::shelf::Shelf;
use counted_io::DeviceFault;
use std::sync::Wait;

/// What was sealed, and is to get its base: then a start reads no file before it.
#[derive(Drop)]
pub struct Renewal<S> {
    /// The result of the seal.
    pub sealed: S,
    // How far the beginning of what was sealed is from the base before. None if no file has it: then a base
    // would stand where entries before it are missing.
    there: Option<Distance>,
}

impl<S> Renewal<S> {
    /// What was sealed, this far from the last base, if a file has it.
    pub(crate) fn new(sealed: S, there: Option<Distance>) -> Renewal<S>
        ensures { result.sealed ≡ sealed }
    {
        Renewal { sealed, there }
    }
}

// After so many pieces of a base, written entries are synced, if that happens once a second.
const SYNC_PIECES: u64 = 32;

// Records entries between the pieces of a base.
#[derive(Drop)]
struct BetweenPieces<'a, H: Chronicle, S: Shelf, R: Wait> {
    rt: &'a R,
    chronicle: &'a H,
    journal: &'a GroupJournal<S>,
}

impl<'a, H: Chronicle, S: Shelf + Drop, R: Wait> CatchesUp for BetweenPieces<'a, H, S, R> {
    ghost comes = { λ _ _ _. ⊤ };

    fn catch_up(&self, number: u64) -> Result<(), DeviceFault> {
        self.journal.catch_up(self.rt, self.chronicle)?;
        if number.is_multiple_of(SYNC_PIECES) {
            self.journal.tend(self.rt)?;
        }
        Ok(())
    }
}

impl<S: Shelf + Drop> GroupJournal<S> {
    /// Seals the entries, and begins a new file, as `rotate` does. `put_base` then puts the base before them.
    pub fn renew<R: Wait, K: Sealer>(&self, rt: &R, sealer: &mut K) -> Renewal<K::Sealed>
        ensures { K.seals sealer.old result.sealed sealer.new }
    {
        let (sealed, there) = self.rotate_from(rt, sealer);
        Renewal::new(sealed, there)
    }

    /// Puts the base before what was sealed in front of its log, if something was sealed and is in the log.
    /// Entries are recorded meanwhile, and the writer is not taken. If that fails, the journal goes on
    /// without that base, and it can be tried again. One at a time, since others wait here; the newest
    /// renewal is the one to try.
    pub fn put_base<H: Chronicle, R: Wait, K: Sealer>(
        &self,
        rt: &R,
        chronicle: &H,
        renewal: &Renewal<K::Sealed>,
    ) -> Result<(), JournalFault> {
        let (Some(there), Some(entries)) = (renewal.there, K::base_entries(&renewal.sealed)) else {
            return Ok(());
        };
        let between = BetweenPieces {
            rt,
            chronicle,
            journal: self,
        };
        let octets = {
            let mut bases = self.bases.lock(rt);
            bases.put_base::<K, _>(&renewal.sealed, entries, &between)?
        };
        self.note_base(rt, there, octets);
        Ok(())
    }

    // A base of so many octets stands now, this far from the one before.
    fn note_base<R: Wait>(&self, rt: &R, there: Distance, octets: u64) {
        match self.take_writer(rt, u64::MAX) {
            WriterAccess::Taken(writer) => {
                let mut writer = writer;
                writer.note_base(there, octets);
                let _ = self.put_back(rt, writer, Ok(()));
            }
            WriterAccess::Reached | WriterAccess::Failed => {}
        }
    }
}
