//! The base of a history: what earlier entries left open, and their numbers.
//! RFC 9309, sections 2.3.1 and 2.4.
ghost use Rattle.std.specs.Prelude.{◌≡◌, All, IsPermutation};
ghost use Rattle.gate_history.specs.declared.base.Numbers.{Numbers};
ghost use Rattle.gate_history.specs.Base.{IsBase, empty_base};
ghost use Rattle.gate_history.specs.Grants.{IsSlotGrant};
ghost use Rattle.gate_history.specs.Kept.{base_with};
ghost use Rattle.gate_history.specs.Order.{GrantsRise, IsInOrder, PermitsRise, Reorders, TurnsRise};

use authority_cache::{StandingAnswer, Turn};
use permit_book::GrantedPermit;
use std::alloc::Global;
use std::marker::Model;

/// A slot's greatest granted generation.
#[derive(Clone, Copy, Debug, PartialEq, Eq)]
pub struct SlotGrant {
    /// The slot.
    pub slot: u64,
    /// The generation.
    pub generation: u64,
}

/// What a history left open.
#[derive(Drop)]
pub struct LeftOpen {
    /// The valid answers.
    pub standing: Vec<StandingAnswer>,
    /// The turns in flight.
    pub in_flight: Vec<Turn>,
    /// The permits that are not used yet.
    pub unspent: Vec<GrantedPermit>,
    /// The permits whose fetch runs.
    pub running: Vec<GrantedPermit>,
    /// The greatest generation of each granted slot.
    pub grants: Vec<SlotGrant>,
}

impl LeftOpen {
    /// Sorts each list: answers by their authorities' octets, turns and permits by number, grants by slot.
    /// It allocates nothing.
    pub fn put_in_order(&mut self)
        ensures same { (numbers : Numbers)
            → Reorders (base_with self.old numbers) (base_with self.new numbers) }
        ensures order { (numbers : Numbers) → IsInOrder (base_with self.new numbers) }
    {
        self.standing.sort_unstable_by(|one, other| one
            .authority
            .text()
            .cmp(other.authority.text()));
        self.put_numbers_in_order();
    }

    // Sorts the lists that have numbers. It allocates nothing, and compares no text.
    fn put_numbers_in_order(&mut self)
        ensures standing { self.new.standing ≡ self.old.standing }
        ensures same { (numbers : Numbers)
            → Reorders (base_with self.old numbers) (base_with self.new numbers) }
        ensures turns { TurnsRise self.new.in_flight.items }
        ensures permits { PermitsRise self.new.unspent.items }
        ensures runs { PermitsRise self.new.running.items }
        ensures grants { GrantsRise self.new.grants.items }
    {
        self.in_flight
            .sort_unstable_by_key(|turn| turn.turn.number());
        self.unspent
            .sort_unstable_by_key(|permit| permit.number.number());
        self.running
            .sort_unstable_by_key(|permit| permit.number.number());
        self.grants.sort_unstable_by_key(|grant| grant.slot);
    }
}

/// A history's numbers.
#[derive(Clone, Copy, Debug, PartialEq, Eq)]
pub struct Numbers {
    /// Its begins.
    pub begins: u64,
    /// Its greatest moment, in seconds.
    pub moment: u64,
    /// Its entries.
    pub entries: u64,
    /// Its started fetches.
    pub started: u64,
}

/// Where a history continues, in place of sealed entries: what they left open, in order, and their numbers.
///
/// The answers are kept as they were listed. Who spells them puts them in order: to sort as many texts as
/// there are sites takes too long for a seal, for which others wait.
#[derive(Drop)]
pub struct Base {
    pub(crate) left: LeftOpen,
    numbers: Numbers,
}

impl Model for Base {
    ghost use Rattle.std.specs.Prelude.{All};
    ghost use Rattle.gate_history.specs.Base.{Base, IsBase};
    ghost use Rattle.gate_history.specs.Grants.{IsSlotGrant};
    ghost use Rattle.gate_history.specs.Kept.{ordered_with};
    ghost use Rattle.gate_history.specs.Order.{IsInOrder};

    ghost Value = { Base };

    ghost view = { λ base. ordered_with base.left base.numbers };

    ghost invariant = { λ base. IsBase (ordered_with base.left base.numbers)
        × (IsInOrder (ordered_with base.left base.numbers) × All IsSlotGrant base.left.grants.items) };
}

impl Base {
    /// The base of a history without sealed entries.
    pub fn empty(alloc: Global) -> Base
        ensures value { result ≡ empty_base }
        ensures base { IsBase result }
    {
        let left = LeftOpen {
            standing: Vec::new(alloc),
            in_flight: Vec::new(alloc),
            unspent: Vec::new(alloc),
            running: Vec::new(alloc),
            grants: Vec::new(alloc),
        };
        let numbers = Numbers {
            begins: 0,
            moment: 0,
            entries: 0,
            started: 0,
        };
        Base { left, numbers }
    }

    /// The base of what was left open, with these numbers. It allocates nothing and compares no text.
    pub fn of(left: LeftOpen, numbers: Numbers) -> Base
        requires base { IsBase (base_with left numbers) }
        requires grants { All IsSlotGrant left.grants.items }
        ensures same { Reorders (base_with left numbers) result }
        ensures order { IsInOrder result }
    {
        let mut left = left;
        left.put_numbers_in_order();
        Base { left, numbers }
    }

    /// The valid answers, in any order: see `answers_in_order`.
    pub fn standing(&self) -> &[StandingAnswer]
        ensures { IsPermutation result.now self.now.standing }
    {
        self.left.standing.as_slice()
    }

    /// The turns in flight.
    pub fn in_flight(&self) -> &[Turn]
        ensures { result.now ≡ self.now.in_flight }
    {
        self.left.in_flight.as_slice()
    }

    /// The permits that are not used yet.
    pub fn unspent(&self) -> &[GrantedPermit]
        ensures { result.now ≡ self.now.unspent }
    {
        self.left.unspent.as_slice()
    }

    /// The permits whose fetch runs.
    pub fn running(&self) -> &[GrantedPermit]
        ensures { result.now ≡ self.now.running }
    {
        self.left.running.as_slice()
    }

    /// The greatest generation of each granted slot.
    pub fn grants(&self) -> &[SlotGrant]
        ensures value { result.now ≡ self.now.grants }
        ensures fits { All IsSlotGrant self.now.grants }
        ensures order { IsInOrder self.now }
    {
        self.left.grants.as_slice()
    }

    /// Sealed begins.
    pub fn begins(&self) -> u64
        ensures { result ≡ self.now.begins }
    {
        self.numbers.begins
    }

    /// The greatest sealed moment, in seconds.
    pub fn moment(&self) -> u64
        ensures { result ≡ self.now.moment }
    {
        self.numbers.moment
    }

    /// Sealed entries.
    pub fn entries(&self) -> u64
        ensures { result ≡ self.now.entries }
    {
        self.numbers.entries
    }

    /// Sealed started fetches.
    pub fn started(&self) -> u64
        ensures { result ≡ self.now.started }
    {
        self.numbers.started
    }
}
