//! The accounts that the desks of a gate may still open.
//! Whoever has no account can change no book.
ghost use Rattle.std.specs.Prelude.{◌≡◌, ◌+◌, IfOk, OnErr};
ghost use Rattle.gate_ledgers.specs.Accounts.{IsNewAccount};
ghost use Rattle.gate_ledgers.specs.Balance.{all_desk_parts, most_desks};

use crate::account::Account;
use crate::ledgers::{EntryLedger, Gate, HandedLedger, StartLedger};
use crate::shares::Mine;
use std::alloc::Global;
use std::marker::Model;
use std::sync::ledger::Share;

/// The most desks of one gate.
pub const MAX_DESKS: u64 = 65_536;

/// The gate has made the most desks that it may.
#[derive(Clone, Copy, Debug, PartialEq, Eq)]
pub struct DesksFull;

/// The accounts that desks may still open. A clause sees how many were opened.
#[derive(Drop)]
pub struct Accounts<G: Gate> {
    entries: Share<EntryLedger<G>>,
    starts: Share<StartLedger<G>>,
    handed: Share<HandedLedger<G>>,
    opened: u64,
}

impl<G: Gate> Model for Accounts<G> {
    ghost use Rattle.std.specs.Prelude.{◌≡◌, ℕ};
    ghost use Rattle.gate_ledgers.specs.Balance.{AreDeskParts};

    ghost Value = { ℕ };

    ghost view = { λ accounts. accounts.opened };

    ghost invariant = { λ accounts. AreDeskParts accounts.opened accounts.entries.parts
        accounts.starts.parts accounts.handed.parts
        × (accounts.entries.amount ≡ 0) × (accounts.starts.amount ≡ 0)
        × (accounts.handed.amount ≡ 0) };
}

impl<G: Gate> Accounts<G> {
    // The accounts of these parts, of which none was opened.
    pub(crate) fn of(
        entries: Share<EntryLedger<G>>,
        starts: Share<StartLedger<G>>,
        handed: Share<HandedLedger<G>>,
    ) -> Accounts<G>
        requires parts { (entries.parts + 1 ≡ all_desk_parts) × (starts.parts + 1 ≡ all_desk_parts)
            × (handed.parts + 1 ≡ all_desk_parts) }
        requires none { (entries.amount ≡ 0) × (starts.amount ≡ 0) × (handed.amount ≡ 0) }
        ensures { result ≡ 0 }
    {
        Accounts {
            entries,
            starts,
            handed,
            opened: 0,
        }
    }

    /// The account of a new desk, numbered from 1. Takes no memory.
    pub fn open(&mut self, alloc: Global) -> Result<Account<G>, DesksFull>
        ensures ok { IfOk result (λ account. IsNewAccount (self.old + 1) account
            × (self.new ≡ self.old + 1)) }
        ensures full { OnErr result ((self.old ≡ most_desks) × (self.new ≡ self.old)) }
    {
        if self.opened >= MAX_DESKS {
            return Err(DesksFull);
        }
        self.opened += 1;
        let mine = Mine {
            entries: self.entries.split_off(1, 0),
            starts: self.starts.split_off(1, 0),
            handed: self.handed.split_off(1, 0),
        };
        Ok(Account::new(alloc, self.opened, mine))
    }
}
