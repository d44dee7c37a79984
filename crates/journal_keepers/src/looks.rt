//! Looks at a journal, for entries that no reply waits for.
//! A server has them beside its clients, and a shift beside its jobs.

use counted_io::DeviceFault;
use journal::{Chronicle, Recorder};
use std::sync::Wait;

/// The looks at a journal so far. After so many, recorded entries are synced, if that happens once a second.
#[derive(Clone, Copy, Debug)]
pub struct Looks {
    count: u64,
    per_sync: u64,
}

impl Looks {
    /// None so far.
    pub fn new(per_sync: u64) -> Looks {
        Looks { count: 0, per_sync }
    }

    /// Records what is entered. The last look syncs it too.
    pub fn look<H: Chronicle, J: Recorder, R: Wait>(
        &mut self,
        rt: &R,
        chronicle: &H,
        journal: &J,
        is_last: bool,
    ) -> Result<(), DeviceFault> {
        self.count = self.count.wrapping_add(1);
        if is_last || self.count.is_multiple_of(self.per_sync) {
            journal.see_to(rt, chronicle)
        } else {
            journal.catch_up(rt, chronicle)
        }
    }
}
