//! The permits of a history by number: outstanding ones, and granted ones.
//! Used by `OpenState` to decide each entry of a text.
ghost use Rattle.std.specs.Prelude.{◌≡◌, ◌≤◌, ℕ, None, OnOk, Some, false};
ghost use Rattle.std.specs.Option.{option_copied};
ghost use Rattle.permit_book.specs.Numbers.{generation_of, last_generation, slot_of};
ghost use Rattle.crawl_audit.specs.Tables.{GivesUnspent, Grants, Notes, Puts, Raises, StartsRun};
ghost use Rattle.crawl_audit.specs.Tables.{greatest_with, is_new, is_noted, is_running_in, lasts_of, phases_of};

use indexmap::IndexMap;
use permit_book::{Fetch, PermitNo};
use std::alloc::{AllocError, Global};
use std::hash::RandomState;

/// The phase of an outstanding permit.
#[derive(Drop)]
pub(crate) enum Phase {
    Unspent(Fetch),
    /// Its fetch was started and has not ended.
    Running(Fetch),
}

/// The outstanding numbers with their phases, and the granted ones.
#[derive(Drop)]
pub(crate) struct PermitNumbers {
    pub(crate) out: IndexMap<u64, Phase, RandomState>,
    // The greatest generation of each slot in which something was granted.
    pub(crate) by_slot: IndexMap<u64, u64, RandomState>,
    // Whether each grant must have a generation above all earlier ones of its slot. If not, every granted
    // number is kept.
    pub(crate) rising: bool,
    pub(crate) granted: IndexMap<u64, (), RandomState>,
}

impl PermitNumbers {
    /// No number was granted, and any may be.
    pub(crate) fn new(alloc: Global, keys: RandomState) -> PermitNumbers
        ensures phases { (number : ℕ) → phases_of result number ≡ None }
        ensures lasts { (slot : ℕ) → lasts_of result slot ≡ None }
        ensures noted { (number : ℕ) → is_noted result number ≡ false }
        ensures any { result.rising ≡ false }
    {
        PermitNumbers {
            out: IndexMap::with_hasher(alloc, keys),
            by_slot: IndexMap::with_hasher(alloc, keys),
            rising: false,
            granted: IndexMap::with_hasher(alloc, keys),
        }
    }

    /// Whether the number may be granted.
    pub(crate) fn is_new(&self, number: PermitNo) -> bool
        ensures { result ≡ is_new self.now number }
    {
        if !self.rising {
            return self.granted.get(&number.number()).is_none();
        }
        match self.by_slot.get(&number.slot()) {
            Some(last) => *last < number.generation(),
            None => true,
        }
    }

    pub(crate) fn unspent(&self, number: PermitNo) -> Option<&Fetch>
        ensures { GivesUnspent (phases_of self.now number) result }
    {
        match self.get(number) {
            Some(Phase::Unspent(fetch)) => Some(fetch),
            Some(Phase::Running(_)) => None,
            None => None,
        }
    }

    pub(crate) fn is_running(&self, number: PermitNo) -> bool
        ensures { result ≡ is_running_in (phases_of self.now number) }
    {
        match self.get(number) {
            Some(Phase::Running(_)) => true,
            Some(Phase::Unspent(_)) => false,
            None => false,
        }
    }

    // The phase of the number's permit, if outstanding.
    pub(crate) fn get(&self, number: PermitNo) -> Option<&Phase>
        ensures { option_copied result ≡ phases_of self.now number }
    {
        self.out.get(&number.number())
    }

    pub(crate) fn grant(&mut self, number: PermitNo, fetch: Fetch) -> Result<(), AllocError>
        ensures { OnOk result (Grants self.old number fetch self.new) }
    {
        self.raise(number)?;
        self.note(number)?;
        self.put(number, Phase::Unspent(fetch))
    }

    fn raise(&mut self, number: PermitNo) -> Result<(), AllocError>
        ensures { OnOk result (Raises self.old number self.new) }
    {
        let greatest = self.greatest_with(number);
        match self.by_slot.insert(number.slot(), greatest) {
            Ok(_) => Ok(()),
            Err(_) => Err(AllocError),
        }
    }

    // The greater of the number's generation and the greatest of its slot.
    fn greatest_with(&self, number: PermitNo) -> u64
        ensures value { result
            ≡ greatest_with (generation_of number) (lasts_of self.now (slot_of number)) }
        ensures bound { generation_of number ≤ last_generation }
    {
        match self.by_slot.get(&number.slot()) {
            Some(last) => number.generation().max(*last),
            None => number.generation(),
        }
    }

    fn note(&mut self, number: PermitNo) -> Result<(), AllocError>
        ensures { OnOk result (Notes self.old number self.new) }
    {
        if self.rising {
            return Ok(());
        }
        match self.granted.insert(number.number(), ()) {
            Ok(_) => Ok(()),
            Err(_) => Err(AllocError),
        }
    }

    pub(crate) fn start(&mut self, number: PermitNo) -> Result<(), AllocError>
        ensures { OnOk result (StartsRun self.old number self.new) }
    {
        match self.out.swap_remove(&number.number()) {
            Some(Phase::Unspent(fetch)) => self.put(number, Phase::Running(fetch)),
            Some(Phase::Running(_)) => Ok(()),
            None => Ok(()),
        }
    }

    // Sets the number's phase, replacing an earlier one.
    pub(crate) fn put(&mut self, number: PermitNo, phase: Phase) -> Result<(), AllocError>
        ensures { OnOk result (Puts self.old number (Some phase) self.new) }
    {
        match self.out.insert(number.number(), phase) {
            Ok(_) => Ok(()),
            Err(_) => Err(AllocError),
        }
    }

    /// Removes the number from the outstanding ones.
    pub(crate) fn end(&mut self, number: PermitNo)
        ensures { Puts self.old number None self.new }
    {
        let _ = self.out.swap_remove(&number.number());
    }
}
