//! `settle`: the end of a gate, when all its desks are closed.
//! Nothing is out, and the receipts are the whole history. For programs that end a gate of several threads.
ghost use Rattle.std.specs.Prelude.{◌≡◌, IfOk};
ghost use Rattle.gate_marks.specs.Marks.{starts_of_all};
ghost use Rattle.gate_settlement.specs.Settling.{IsWholeUnlessSealed, Settles, SettlesSome};

use crate::fit::receipts_fit;
use crate::started::{has_handed, has_starts};
use gate_lock::{AtRest, Gate, GateLock, Held, Receipts};
use std::alloc::{AllocError, Global};
use std::marker::Model;
use std::sync::Wait;

/// A settled gate. Only a hold of its own lock at which nothing was out makes one.
#[derive(Drop)]
pub struct Settled<G: Gate> {
    rest: AtRest<G>,
}

impl<G: Gate> Model for Settled<G> {
    ghost use Rattle.gate_lock.specs.Resting.{Totals};

    ghost Value = { Totals };

    ghost view = { λ settled. settled.rest };
}

impl<G: Gate> Settled<G> {
    /// How many entries its history has, since the first one of all.
    pub fn events(&self) -> u64
        ensures { result ≡ self.now.events }
    {
        self.rest.events()
    }

    /// How many of them are started fetches.
    pub fn starts(&self) -> u64
        ensures { result ≡ self.now.starts }
    {
        self.rest.starts()
    }
}

/// Why a gate is not settled, in the order of the tests. Nothing has changed.
#[derive(Clone, Copy, Debug, PartialEq, Eq)]
pub enum SettleFault {
    /// An unspent permit, a running fetch or a turn is out.
    StillOut,
    /// The receipts are not the history: some are missing (perhaps those of a desk that sealed it), or
    /// belong to another gate.
    Mismatch,
    /// Out of memory.
    NoMemory,
}

impl From<AllocError> for SettleFault {
    ghost use Rattle.std.specs.Prelude.{◌≡◌};
    ghost use Rattle.gate_settlement.specs.declared.settlement.SettleFault.{SettleFault};

    ghost from_gives = { λ _ fault. fault ≡ SettleFault.NoMemory };

    fn from(_: AllocError) -> SettleFault {
        SettleFault::NoMemory
    }
}

/// Settles a gate by the receipts of its desks. Holds the lock meanwhile, and allocates a few words for
/// each desk.
pub fn settle<G: Gate, R: Wait>(
    rt: &R,
    alloc: Global,
    gate: &GateLock<G>,
    all: &[Receipts<G>],
) -> Result<Settled<G>, SettleFault>
    ensures settles { SettlesSome all.now result }
    ensures starts { IfOk result (λ settled. settled.starts ≡ starts_of_all all.now) }
    ensures whole { IfOk result (IsWholeUnlessSealed all.now) }
{
    let held = gate.lend(rt);
    let _book = held.book();
    settle_in(alloc, &held, all)
}

/// Settles the gate whose lock is held.
pub fn settle_in<G: Gate>(
    alloc: Global,
    held: &Held<'_, G>,
    all: &[Receipts<G>],
) -> Result<Settled<G>, SettleFault>
    ensures settles { Settles held.now all.now result }
    ensures starts { IfOk result (λ settled. settled.starts ≡ starts_of_all all.now) }
{
    let Some(rest) = held.at_rest() else {
        return Err(SettleFault::StillOut);
    };
    let book = held.book();
    let sealed = book.base().entries();
    if !receipts_fit(alloc, sealed, book.history(), all)?
        || !has_starts(all, rest.starts())
        || !has_handed(all, sealed)
    {
        return Err(SettleFault::Mismatch);
    }
    Ok(Settled { rest })
}
