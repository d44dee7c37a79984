//! Fetches robots.txt files anew for a gate that continues, beside its clients.

use crate::fault::ServeFault;
use crate::recorded::Recorded;
use crate::server::Server;
use crate::warden::Alarm;
use command_server::{FetchClock, NumberedClock};
use fetchers::Fetcher;
use gate_lock::{Gate, Receipts};
use journal::Recorder;
use keepers::fetch_anew;
use path_normal::Authority;
use std::sync::Wait;
use std::sync::atomic::AtomicU64;
use std::time;

impl<F: Fetcher, C: NumberedClock, A: Alarm, R: Wait + time::Clock> Server<'_, F, C, A, R> {
    /// Fetches these sites' robots.txt files in order, at its own desk, until no worker is left.
    pub(crate) fn fetch_begun<G: Gate, J: Recorder>(
        &self,
        recorded: &Recorded<'_, G, J, R>,
        left: &AtomicU64,
        sites: &[Authority],
    ) -> Result<Receipts<G>, ServeFault> {
        let (gate, fetcher) = (recorded.gate, recorded.journaled(self.fetcher));
        let clock = FetchClock {
            clock: self.clock,
            number: 0,
        };
        let fetched = fetch_anew(self.rt, self.alloc, gate, &fetcher, &clock, sites, left)?;
        Ok(fetched)
    }
}
