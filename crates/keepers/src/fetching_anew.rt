//! Robots.txt files fetched anew for a gate that continues: those whose fetches an earlier process left.
//! Their turns ended as network faults, which would close their sites for a day (RFC 9309, section
//! 2.3.1.4).

use crate::desk_keeper::DeskKeeper;
use crate::keeper::Keeper;
use crate::no_keeper::NoKeeper;
use fetchers::Fetcher;
use gate_lock::{Gate, GateLock, Receipts};
use page_worker::Clock;
use path_normal::Authority;
use std::alloc::Global;
use std::sync::Wait;
use std::sync::atomic::{AtomicU64, Ordering};

/// Fetches these sites' robots.txt files in order, at its own desk, until nobody is left who wants them. The
/// results go to the gate.
pub fn fetch_anew<G: Gate, F: Fetcher, C: Clock, R: Wait>(
    rt: &R,
    alloc: Global,
    gate: &GateLock<G>,
    fetcher: &F,
    clock: &C,
    sites: &[Authority],
    left: &AtomicU64,
) -> Result<Receipts<G>, NoKeeper> {
    let mut keeper = DeskKeeper::open(rt, alloc, gate, fetcher)?;
    for site in sites {
        if left.load(Ordering::SeqCst) == 0 {
            break;
        }
        // (a client may be fetching it; without room in the history its old answer stays)
        let _ = keeper.refresh(alloc, site, clock);
    }
    Ok(keeper.close())
}
