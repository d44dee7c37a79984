//! A shift at a gate that another desk has used: its receipts are not the whole history.
ghost use Rattle.std.specs.Prelude.{◌≡◌, []};
ghost use Rattle.gate_history.specs.Base.{empty_base};
ghost use Rattle.gate_lock.specs.Desks.{KeepsOut};

use crawl_workers::{ShiftFault, run_shift};
use gate_core::{Book, Limits};
use gate_lock::{Blanks, Desk, Gate, GateLock};
use gate_settlement::SettleFault;
use scripted_sites::{FixedClock, ScriptedSites, new_book};
use std::alloc::Global;
use std::marker::Brand;
use std::sync::Wait;
use std::test::Fail;
use std::thread::Threads;
use std::time;

// A shift without jobs at a gate that a desk has swept.
fn sweep_new<G: Gate + Send + Sync, R: Threads + Wait + time::Clock + Sync>(
    rt: &R,
    alloc: Global,
    book: Book,
    blanks: Blanks,
) -> Result<Option<ShiftFault>, Fail>
    requires book { (book.base ≡ empty_base) × (book.entries ≡ []) }
    requires blanks { blanks ≡ G.ledgers }
{
    let gate: GateLock<G> = GateLock::new(book, blanks);
    shift_behind_a_sweep(rt, alloc, &gate)
}

fn shift_behind_a_sweep<G: Gate + Send + Sync, R: Threads + Wait + time::Clock + Sync>(
    rt: &R,
    alloc: Global,
    gate: &GateLock<G>,
) -> Result<Option<ShiftFault>, Fail> {
    let mut desk = gate.desk(rt, alloc)?;
    let swept = sweep(rt, &mut desk);
    desk.close();
    if !swept {
        return Err(Fail::new("a sweep"));
    }
    Ok(shift_of_nothing(rt, alloc, gate))
}

fn shift_of_nothing<G: Gate + Send + Sync, R: Threads + Wait + time::Clock + Sync>(
    rt: &R,
    alloc: Global,
    gate: &GateLock<G>,
) -> Option<ShiftFault> {
    let sites = ScriptedSites { alloc, pages: &[] };
    run_shift(rt, alloc, &[], 1, gate, &sites, &FixedClock(100), &()).err()
}

fn sweep<G: Gate, R: Wait>(rt: &R, desk: &mut Desk<'_, G>) -> bool
    ensures { KeepsOut desk.old desk.new }
{
    match desk.sweep(rt, 100) {
        Ok(_) => true,
        Err(_) => false,
    }
}

#[test]
fn another_desk_has_swept(rt: HostRuntime) -> Result<(), Fail> {
    let book = new_book(&rt, rt.alloc(), Limits::usual())?;
    match sweep_new::<Brand, HostRuntime>(&rt, rt.alloc(), book, Blanks::new())? {
        Some(ShiftFault::Unsettled(SettleFault::Mismatch)) => Ok(()),
        _ => Err(Fail::new("settled by others' receipts")),
    }
}
