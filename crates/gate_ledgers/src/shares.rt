//! Shares of the ledgers that desks and values have.
//! They take no memory; only proofs see what they count.
ghost use Rattle.std.specs.Prelude.{◌≡◌};

use crate::ledgers::{EntryLedger, Gate, HandedLedger, StartLedger};
use std::marker::Model;
use std::sync::ledger::{Ledger, Share};

/// The share of a value that must be spent: it counts as one. It has no `Drop`, so that none is lost; only
/// a change of the book makes one or takes it back.
pub struct One<L: Ledger> {
    pub(crate) share: Share<L>,
}

impl<L: Ledger> Model for One<L> {
    ghost use Rattle.std.specs.Prelude.{◌≡◌};

    ghost Value = { Unit {0} };

    ghost view = { λ _. tt };

    ghost invariant = { λ one. (one.share.amount ≡ 1) × (one.share.parts ≡ 1) };
}

// The shares of a desk, or of all before the desks. A clause sees how many entries and started fetches they
// count, and how many entries were handed out.
pub(crate) struct Mine<G: Gate> {
    pub entries: Share<EntryLedger<G>>,
    pub starts: Share<StartLedger<G>>,
    pub handed: Share<HandedLedger<G>>,
}

impl<G: Gate> Model for Mine<G> {
    ghost use Rattle.std.specs.Prelude.{◌≡◌};
    ghost use Rattle.gate_ledgers.specs.Accounts.{Shares};

    ghost Value = { Shares };

    ghost view = { λ mine. record {
      entries = mine.entries.amount;
      starts = mine.starts.amount;
      handed = mine.handed.amount;
    } };

    ghost invariant = { λ mine. (mine.entries.parts ≡ 1) × (mine.starts.parts ≡ 1)
        × (mine.handed.parts ≡ 1) };
}

impl<G: Gate> Mine<G> {
    // Ends shares that count nothing.
    pub fn let_go(self)
        requires { (self.entries ≡ 0) × (self.starts ≡ 0) × (self.handed ≡ 0) }
    {
        self.end();
    }

    // Ends shares whatever they count: a gate whose entries they count can't be settled any more.
    pub fn end(self) {
        let Mine {
            entries: _,
            starts: _,
            handed: _,
        } = self;
    }
}
