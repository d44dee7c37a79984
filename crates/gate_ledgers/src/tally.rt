//! The ledgers of a gate with their totals, and the parts for what will be out.
//! They take no memory: a share has no octets, and only proofs see its amount.
ghost use Rattle.std.specs.Prelude.{◌≡◌, ◌+◌, ◌<◌, ◌≤◌};
ghost use Rattle.gate_ledgers.specs.Balance.{Loses, all_out_parts, nothing_counted};

use crate::accounts::Accounts;
use crate::ledgers::{
    Blanks, EntryLedger, Gate, HandedLedger, RunningLedger, StartLedger, TurnLedger, UnspentLedger,
};
use crate::shares::{Mine, One};
use std::marker::Model;
use std::sync::ledger::{Book, Share};

// The totals of the ledgers, and the parts of permits, runs and turns that are not out.
#[derive(Drop)]
pub(crate) struct Tally<G: Gate> {
    entries: Book<EntryLedger<G>>,
    starts: Book<StartLedger<G>>,
    handed: Book<HandedLedger<G>>,
    unspent: Book<UnspentLedger<G>>,
    running: Book<RunningLedger<G>>,
    turns: Book<TurnLedger<G>>,
    unspent_parts: Share<UnspentLedger<G>>,
    running_parts: Share<RunningLedger<G>>,
    turn_parts: Share<TurnLedger<G>>,
}

impl<G: Gate> Model for Tally<G> {
    ghost use Rattle.std.specs.Prelude.{◌≡◌, ◌+◌};
    ghost use Rattle.gate_ledgers.specs.Balance.{AreOutParts, Balance};

    ghost Value = { Balance };

    ghost view = { λ t. record {
      entries = t.entries.total;
      starts = t.starts.total;
      handed = t.handed.total;
      unspent = t.unspent.total;
      running = t.running.total;
      turns = t.turns.total;
    } };

    ghost invariant = { λ t. AreOutParts t.unspent.total t.unspent_parts.parts t.running.total
        t.running_parts.parts t.turns.total t.turn_parts.parts
        × (t.unspent_parts.amount ≡ 0) × (t.running_parts.amount ≡ 0)
        × (t.turn_parts.amount ≡ 0) };
}

impl<G: Gate> Tally<G> {
    // New ledgers that count nothing yet, the accounts that desks may open, and the shares of all before the
    // desks.
    pub fn open(blanks: Blanks) -> (Tally<G>, Accounts<G>, Mine<G>)
        requires { blanks ≡ G.ledgers }
        ensures total { result.0 ≡ nothing_counted }
        ensures share { result.2 ≡ record { entries = 0; starts = 0; handed = 0 } }
    {
        let Blanks {
            entries,
            starts,
            handed,
            unspent,
            running,
            turns,
        } = blanks;
        let (entries, mut entry_parts) = entries.open::<EntryLedger<G>>();
        let (starts, mut start_parts) = starts.open::<StartLedger<G>>();
        let (handed, mut handed_parts) = handed.open::<HandedLedger<G>>();
        let (unspent, unspent_parts) = unspent.open::<UnspentLedger<G>>();
        let (running, running_parts) = running.open::<RunningLedger<G>>();
        let (turns, turn_parts) = turns.open::<TurnLedger<G>>();
        let past = Mine {
            entries: entry_parts.split_off(1, 0),
            starts: start_parts.split_off(1, 0),
            handed: handed_parts.split_off(1, 0),
        };
        let tally = Tally {
            entries,
            starts,
            handed,
            unspent,
            running,
            turns,
            unspent_parts,
            running_parts,
            turn_parts,
        };
        (
            tally,
            Accounts::of(entry_parts, start_parts, handed_parts),
            past,
        )
    }

    // Counts entries and started fetches made before, all handed out.
    pub fn count_past(&mut self, past: &mut Mine<G>, entries: u64, starts: u64)
        ensures total { self.new ≡ record self.old {
          entries = self.old.entries + entries;
          starts = self.old.starts + starts;
          handed = self.old.handed + entries;
        } }
        ensures share { past.new ≡ record {
          entries = past.old.entries + entries;
          starts = past.old.starts + starts;
          handed = past.old.handed + entries;
        } }
    {
        self.entries.add(&mut past.entries, entries);
        self.starts.add(&mut past.starts, starts);
        self.handed.add(&mut past.handed, entries);
    }

    pub fn enter(&mut self, mine: &mut Mine<G>)
        ensures total { self.new ≡ record self.old { entries = self.old.entries + 1 } }
        ensures share { mine.new ≡ record mine.old { entries = mine.old.entries + 1 } }
    {
        self.entries.add(&mut mine.entries, 1);
    }

    pub fn hand(&mut self, mine: &mut Mine<G>, count: u64)
        ensures total { self.new ≡ record self.old { handed = self.old.handed + count } }
        ensures share { mine.new ≡ record mine.old { handed = mine.old.handed + count } }
        ensures bound { mine.new.handed ≤ self.new.handed }
    {
        self.handed.add(&mut mine.handed, count);
        self.handed.audit(&mut mine.handed);
    }

    pub fn grant(&mut self) -> One<UnspentLedger<G>>
        requires { self.old.unspent + 1 < all_out_parts }
        ensures { self.new ≡ record self.old { unspent = self.old.unspent + 1 } }
    {
        let mut share = self.unspent_parts.split_off(1, 0);
        self.unspent.add(&mut share, 1);
        One { share }
    }

    // The share of an unspent permit proves that one is counted.
    pub fn vouch(&mut self, one: &mut One<UnspentLedger<G>>)
        ensures same { self.new ≡ self.old }
        ensures some { 0 < self.old.unspent }
    {
        self.unspent.audit(&mut one.share);
    }

    pub fn spend(&mut self, one: One<UnspentLedger<G>>)
        ensures { Loses self.old self.new 1 0 0 }
    {
        let One { mut share } = one;
        self.unspent.sub(&mut share, 1);
        self.unspent_parts.merge(share);
    }

    pub fn start(&mut self, mine: &mut Mine<G>) -> One<RunningLedger<G>>
        requires { self.old.running + 1 < all_out_parts }
        ensures total { self.new ≡ record self.old {
          starts = self.old.starts + 1;
          running = self.old.running + 1;
        } }
        ensures share { mine.new ≡ record mine.old { starts = mine.old.starts + 1 } }
    {
        self.starts.add(&mut mine.starts, 1);
        let mut share = self.running_parts.split_off(1, 0);
        self.running.add(&mut share, 1);
        One { share }
    }

    pub fn finish(&mut self, one: One<RunningLedger<G>>)
        ensures { Loses self.old self.new 0 1 0 }
    {
        let One { mut share } = one;
        self.running.sub(&mut share, 1);
        self.running_parts.merge(share);
    }

    pub fn begin(&mut self) -> One<TurnLedger<G>>
        requires { self.old.turns + 1 < all_out_parts }
        ensures { self.new ≡ record self.old { turns = self.old.turns + 1 } }
    {
        let mut share = self.turn_parts.split_off(1, 0);
        self.turns.add(&mut share, 1);
        One { share }
    }

    pub fn arrive(&mut self, one: One<TurnLedger<G>>)
        ensures { Loses self.old self.new 0 0 1 }
    {
        let One { mut share } = one;
        self.turns.sub(&mut share, 1);
        self.turn_parts.merge(share);
    }
}
