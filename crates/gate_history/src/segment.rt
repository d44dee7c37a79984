//! A segment of a history: sealed entries, and the base before them.
//! RFC 9309, sections 2.3.1 and 2.4.
ghost use Rattle.std.specs.Prelude.{◌≡◌};
ghost use Rattle.gate_history.specs.History.{followed_by, from};
ghost use Rattle.gate_history.specs.Legal.{AllRise, IsLegal};
ghost use Rattle.gate_history.specs.Segment.{history_in, nothing_sealed};

use crate::base::Base;
use crate::entry::Entry;
use std::alloc::Global;
use std::marker::Model;

/// Sealed entries and the base before them: a legal history that can be read alone. Each grant in it has a
/// generation above all earlier ones of its slot.
#[derive(Drop)]
pub struct Segment {
    base: Base,
    entries: Vec<Entry>,
}

impl Model for Segment {
    ghost use Rattle.gate_history.specs.Legal.{AllRise, IsLegal};
    ghost use Rattle.gate_history.specs.History.{followed_by, from};
    ghost use Rattle.gate_history.specs.Segment.{Sealed};

    ghost Value = { Sealed };

    ghost view = { λ segment. record {
      base = segment.base;
      entries = segment.entries.items;
    } };

    ghost invariant = { λ segment. IsLegal (followed_by (from segment.base) segment.entries.items)
        × AllRise (from segment.base) segment.entries.items };
}

impl Segment {
    /// The segment without entries.
    pub fn empty(alloc: Global) -> Segment
        ensures { result ≡ nothing_sealed }
    {
        Segment {
            base: Base::empty(alloc),
            entries: Vec::new(alloc),
        }
    }

    /// The segment of these entries, oldest first, after the base. It takes ownership and allocates
    /// nothing.
    pub fn of(base: Base, entries: Vec<Entry>) -> Segment
        requires legal { IsLegal (followed_by (from base) entries.items) }
        requires rises { AllRise (from base) entries.items }
        ensures { result ≡ record { base = base; entries = entries.items } }
    {
        Segment { base, entries }
    }

    /// The base before them.
    pub fn base(&self) -> &Base
        ensures { result.now ≡ self.now.base }
    {
        &self.base
    }

    /// The entries, oldest first.
    pub fn entries(&self) -> &[Entry]
        ensures value { result.now ≡ self.now.entries }
        ensures legal { IsLegal (history_in self.now) }
        ensures rises { AllRise (from self.now.base) self.now.entries }
    {
        self.entries.as_slice()
    }
}
