//! The guard of a gate's lock, which can be lent, and what a gate says of itself at rest.
ghost use Rattle.std.specs.Prelude.{◌≡◌, ◌^◌, ◌<◌, IfSome, length};
ghost use Rattle.gate_history.specs.Base.{empty_base};
ghost use Rattle.gate_history.specs.Outstanding.{unspent};
ghost use Rattle.gate_core.specs.Gate.{HasLegalHistory, history};
ghost use Rattle.gate_lock.specs.Resting.{Rests};

use crate::linear_values::Permit;
use gate_core::Book;
use gate_ledgers::{CountedBook, Gate};
use std::marker::{Model, PhantomData};
use std::sync::MutexGuard;

/// The guard of the lock. A clause sees it as the locked book.
#[derive(Drop)]
pub struct Held<'a, G: Gate> {
    pub(crate) guard: MutexGuard<'a, CountedBook<G>>,
}

impl<'a, G: Gate> Model for Held<'a, G> {
    ghost use Rattle.std.specs.Sync.Mutex.{mutex_guard_value};
    ghost use Rattle.gate_core.specs.Gate.{Gate};

    ghost Value = { Gate };

    ghost view = { λ held. mutex_guard_value held.guard };
}

/// What a gate counted at a hold of its lock at which no permit, running fetch or turn was out. Only
/// `Held::at_rest` makes one, so whoever has it took the lock of this very gate.
#[derive(Drop)]
pub struct AtRest<G: Gate> {
    events: u64,
    starts: u64,
    gate: PhantomData<G>,
}

impl<G: Gate> Model for AtRest<G> {
    ghost use Rattle.gate_lock.specs.Resting.{Totals};

    ghost Value = { Totals };

    ghost view = { λ rest. record {
      events = rest.events;
      starts = rest.starts;
    } };
}

impl<G: Gate> AtRest<G> {
    /// How many entries its history had, since the first one of all.
    pub fn events(&self) -> u64
        ensures { result ≡ self.now.events }
    {
        self.events
    }

    /// How many of them were started fetches.
    pub fn starts(&self) -> u64
        ensures { result ≡ self.now.starts }
    {
        self.starts
    }
}

impl<'a, G: Gate> Held<'a, G> {
    /// The book.
    pub fn book(&self) -> &Book
        ensures value { result.now ≡ self.now }
        ensures legal { HasLegalHistory self.now }
        ensures start { self.now.base.entries ≡ 0 → self.now.base ≡ empty_base }
    {
        let book = self.guard.book();
        let _legal = book.history();
        book
    }

    /// How many entries of the gate were sealed.
    pub fn sealed_count(&self) -> u64
        ensures { result ≡ self.now.base.entries }
    {
        self.book().base().entries()
    }

    /// What the gate counts, if no permit, running fetch or turn is out. Takes no memory.
    pub fn at_rest(&self) -> Option<AtRest<G>>
        ensures rests { Rests self.now result }
        ensures bound { IfSome result (λ rest. rest.events < 2 ^ 64) }
    {
        let book = self.book();
        if book.unspent_count() > 0 || book.running_count() > 0 || book.flight_count() > 0 {
            return None;
        }
        Some(AtRest {
            events: book.entry_count(),
            starts: book.started_count(),
            gate: PhantomData,
        })
    }
}

/// A permit proves that one is unspent in its gate: while it is kept, the gate can't be settled. Changes
/// neither.
pub fn vouch<G: Gate>(held: &mut Held<'_, G>, permit: &mut Permit<G>)
    ensures same { (held.new ≡ held.old) × (permit.new ≡ permit.old) }
    ensures some { 0 < length (unspent (history held.old)) }
{
    held.guard.vouch(&mut permit.one);
}
