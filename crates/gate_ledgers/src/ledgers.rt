//! The six ledgers of a gate, which count what desks and unspent values have.
//! Each is a type, so that values of different gates can't be confused.

use std::marker::{Brand, Model, PhantomData};
use std::sync::ledger::{Blank, Ledger};

/// A gate, as a type. It names the ledgers that count its entries, its started fetches, the entries handed
/// out, its unspent permits, its running fetches and its turns in flight.
pub trait Gate {
    ghost use Rattle.gate_ledgers.specs.Balance.{Ledgers};

    /// Its ledgers.
    ghost ledgers: { Ledgers };
}

impl Gate for Brand {
    ghost use Rattle.gate_ledgers.specs.Balance.{no_ledgers};

    ghost ledgers = { no_ledgers };
}

/// The ledgers of a future gate. They count nothing yet.
pub struct Blanks {
    pub(crate) entries: Blank,
    pub(crate) starts: Blank,
    pub(crate) handed: Blank,
    pub(crate) unspent: Blank,
    pub(crate) running: Blank,
    pub(crate) turns: Blank,
}

impl Model for Blanks {
    ghost use Rattle.std.specs.Prelude.{◌≡◌};
    ghost use Rattle.gate_ledgers.specs.Balance.{Ledgers, all_desk_parts, all_out_parts};

    ghost Value = { Ledgers };

    ghost view = { λ blanks. record {
      entries = blanks.entries.name;
      starts = blanks.starts.name;
      handed = blanks.handed.name;
      unspent = blanks.unspent.name;
      running = blanks.running.name;
      turns = blanks.turns.name;
    } };

    ghost invariant = { λ blanks. (blanks.entries.parts ≡ all_desk_parts)
        × (blanks.starts.parts ≡ all_desk_parts) × (blanks.handed.parts ≡ all_desk_parts)
        × (blanks.unspent.parts ≡ all_out_parts)
        × (blanks.running.parts ≡ all_out_parts) × (blanks.turns.parts ≡ all_out_parts) };
}

impl Blanks {
    /// New ledgers, which no gate has.
    pub fn new() -> Blanks {
        Blanks {
            entries: Blank::new(65_538),
            starts: Blank::new(65_538),
            handed: Blank::new(65_538),
            unspent: Blank::new(1_099_511_627_776),
            running: Blank::new(1_099_511_627_776),
            turns: Blank::new(1_099_511_627_776),
        }
    }
}

// Counts the entries; each desk has a share, later its receipts.
pub(crate) struct EntryLedger<G> {
    gate: PhantomData<G>,
}

impl<G: Gate> Ledger for EntryLedger<G> {
    ghost use Rattle.gate_ledgers.specs.Balance.{all_desk_parts};

    ghost name = { G.ledgers.entries };

    ghost parts = { all_desk_parts };
}

// Counts the started fetches; each desk has a share, later its receipts.
pub(crate) struct StartLedger<G> {
    gate: PhantomData<G>,
}

impl<G: Gate> Ledger for StartLedger<G> {
    ghost use Rattle.gate_ledgers.specs.Balance.{all_desk_parts};

    ghost name = { G.ledgers.starts };

    ghost parts = { all_desk_parts };
}

// Counts the entries handed out; each desk has a share, later its receipts.
pub(crate) struct HandedLedger<G> {
    gate: PhantomData<G>,
}

impl<G: Gate> Ledger for HandedLedger<G> {
    ghost use Rattle.gate_ledgers.specs.Balance.{all_desk_parts};

    ghost name = { G.ledgers.handed };

    ghost parts = { all_desk_parts };
}

/// Counts the unspent permits; each permit has a share of 1.
pub struct UnspentLedger<G> {
    gate: PhantomData<G>,
}

impl<G: Gate> Ledger for UnspentLedger<G> {
    ghost use Rattle.gate_ledgers.specs.Balance.{all_out_parts};

    ghost name = { G.ledgers.unspent };

    ghost parts = { all_out_parts };
}

/// Counts the running fetches; each has a share of 1, spent or not.
pub struct RunningLedger<G> {
    gate: PhantomData<G>,
}

impl<G: Gate> Ledger for RunningLedger<G> {
    ghost use Rattle.gate_ledgers.specs.Balance.{all_out_parts};

    ghost name = { G.ledgers.running };

    ghost parts = { all_out_parts };
}

/// Counts the turns in flight; each turn has a share of 1.
pub struct TurnLedger<G> {
    gate: PhantomData<G>,
}

impl<G: Gate> Ledger for TurnLedger<G> {
    ghost use Rattle.gate_ledgers.specs.Balance.{all_out_parts};

    ghost name = { G.ledgers.turns };

    ghost parts = { all_out_parts };
}
