//! `receipts_fit`: whether the receipts of all desks are a history.
//! Used by `settle`.
ghost use Rattle.std.specs.Prelude.{◌+◌, ◌^◌, ◌<◌, ◌↔◌, IfOk, IsTrue, length};
ghost use Rattle.gate_marks.specs.Fitting.{MarksFit};

use gate_history::Entry;
use gate_lock::{Gate, Receipts};
use gate_marks::lists_fit;
use std::alloc::{AllocError, Global};

/// Whether the receipts of all desks ascend and fit the history. Of sealed entries they may have the places
/// only.
pub fn receipts_fit<G: Gate>(
    alloc: Global,
    sealed: u64,
    history: &[Entry],
    all: &[Receipts<G>],
) -> Result<bool, AllocError>
    requires { sealed + length history.now < 2 ^ 64 }
    ensures { IfOk result (λ fit. IsTrue fit ↔ MarksFit sealed history.now all.now) }
{
    lists_fit(alloc, sealed, history, all)
}
