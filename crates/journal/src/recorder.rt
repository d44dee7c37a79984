//! Recording before replying: a chronicle and its journal, which records before each write.
//! A server has one for each client's stream, and one for its fetcher.
ghost use Rattle.std.specs.Prelude.{⊤};

use crate::chronicle::{Chronicle, Sealer};
use crate::fault::JournalFault;
use crate::group::GroupJournal;
use crate::journaled_sink::CatchesUp;
use crate::meter::JournalMeter;
use crate::renewal::Renewal;
use crate::shelf::Shelf;
use counted_io::DeviceFault;
use std::sync::Wait;

/// Records a chronicle, or does nothing.
pub trait Recorder {
    /// Waits until all entries may be sent.
    fn catch_up<H: Chronicle, R: Wait>(&self, rt: &R, chronicle: &H) -> Result<(), DeviceFault>;

    /// Seals, and begins a new file.
    fn seal<R: Wait, K: Sealer>(&self, rt: &R, sealer: &mut K) -> K::Sealed
        ensures { K.seals sealer.old result sealer.new };

    /// Whether to seal by `renew`, and to put the base before what that seals.
    fn is_base_due<R: Wait>(&self, rt: &R) -> bool;

    /// Seals, and begins a new file; the base before what was sealed is to be put by `put_base`.
    fn renew<R: Wait, K: Sealer>(&self, rt: &R, sealer: &mut K) -> Renewal<K::Sealed>
        ensures { K.seals sealer.old result.sealed sealer.new };

    /// Puts the base before what was sealed, and records entries meanwhile. If it fails, the records go on
    /// without, and the caller tries again later.
    fn put_base<H: Chronicle, R: Wait, K: Sealer>(
        &self,
        rt: &R,
        chronicle: &H,
        renewal: &Renewal<K::Sealed>,
    ) -> Result<(), JournalFault>;

    /// Whether entries may come: the records may grow. It waits for nothing.
    fn has_room(&self) -> bool;

    /// Whether to seal and begin a new file.
    fn is_due<H: Chronicle, R: Wait>(&self, rt: &R, chronicle: &H) -> bool;

    /// Records all, and syncs it if the policy is `Second`. Fails if the place of the records is no longer
    /// there. To be called once a second.
    fn see_to<H: Chronicle, R: Wait>(&self, rt: &R, chronicle: &H) -> Result<(), DeviceFault>;

    /// What counts what it writes, if anything does.
    fn meter(&self) -> Option<&JournalMeter> {
        None
    }
}

/// Records nothing: all may be sent at once.
#[derive(Clone, Copy, Debug)]
pub struct Unrecorded;

impl Recorder for Unrecorded {
    fn catch_up<H: Chronicle, R: Wait>(&self, _rt: &R, _chronicle: &H) -> Result<(), DeviceFault> {
        Ok(())
    }

    fn seal<R: Wait, K: Sealer>(&self, _rt: &R, sealer: &mut K) -> K::Sealed {
        sealer.seal()
    }

    fn is_base_due<R: Wait>(&self, _rt: &R) -> bool {
        false
    }

    fn renew<R: Wait, K: Sealer>(&self, _rt: &R, sealer: &mut K) -> Renewal<K::Sealed> {
        Renewal::new(sealer.seal(), None)
    }

    fn put_base<H: Chronicle, R: Wait, K: Sealer>(
        &self,
        _rt: &R,
        _chronicle: &H,
        _renewal: &Renewal<K::Sealed>,
    ) -> Result<(), JournalFault> {
        Ok(())
    }

    fn has_room(&self) -> bool {
        true
    }

    fn is_due<H: Chronicle, R: Wait>(&self, _rt: &R, _chronicle: &H) -> bool {
        false
    }

    fn see_to<H: Chronicle, R: Wait>(&self, _rt: &R, _chronicle: &H) -> Result<(), DeviceFault> {
        Ok(())
    }
}

impl<S: Shelf + Drop> Recorder for GroupJournal<S> {
    fn catch_up<H: Chronicle, R: Wait>(&self, rt: &R, chronicle: &H) -> Result<(), DeviceFault> {
        GroupJournal::catch_up(self, rt, chronicle)
    }

    fn seal<R: Wait, K: Sealer>(&self, rt: &R, sealer: &mut K) -> K::Sealed {
        self.rotate(rt, sealer)
    }

    fn is_base_due<R: Wait>(&self, rt: &R) -> bool {
        GroupJournal::is_base_due(self, rt)
    }

    fn renew<R: Wait, K: Sealer>(&self, rt: &R, sealer: &mut K) -> Renewal<K::Sealed> {
        GroupJournal::renew(self, rt, sealer)
    }

    fn put_base<H: Chronicle, R: Wait, K: Sealer>(
        &self,
        rt: &R,
        chronicle: &H,
        renewal: &Renewal<K::Sealed>,
    ) -> Result<(), JournalFault> {
        GroupJournal::put_base::<H, R, K>(self, rt, chronicle, renewal)
    }

    fn has_room(&self) -> bool {
        GroupJournal::has_room(self)
    }

    fn is_due<H: Chronicle, R: Wait>(&self, rt: &R, chronicle: &H) -> bool {
        GroupJournal::is_due(self, rt, chronicle)
    }

    fn see_to<H: Chronicle, R: Wait>(&self, rt: &R, chronicle: &H) -> Result<(), DeviceFault> {
        GroupJournal::catch_up(self, rt, chronicle)?;
        self.tend(rt)
    }

    fn meter(&self) -> Option<&JournalMeter> {
        GroupJournal::meter(self)
    }
}

/// A chronicle and its recorder.
#[derive(Drop)]
pub struct CaughtUp<'a, H: Chronicle, J: Recorder, R: Wait> {
    pub rt: &'a R,
    pub chronicle: &'a H,
    pub journal: &'a J,
}

impl<'a, H: Chronicle, J: Recorder, R: Wait> CatchesUp for CaughtUp<'a, H, J, R> {
    ghost comes = { λ _ _ _. ⊤ };

    fn catch_up(&self, _number: u64) -> Result<(), DeviceFault> {
        self.journal.catch_up(self.rt, self.chronicle)
    }
}
