//! Counts of each authority's outstanding permits, so that an ask looks at no slot.
//! Used by `Book::ask`, and wherever a permit or a fetch ends; `--places` is its limit.
ghost use Rattle.std.specs.Prelude.{◌≡◌, ◌^◌, ◌<◌, ℕ, IfSome, List, None, OnErr, OnOk};
ghost use Rattle.std.specs.HashMap.{get_by_text};
ghost use Rattle.permit_book.specs.Table.{out_under};
ghost use Rattle.gate_core.specs.PlaceCounts.{AddsOne, held_by, IsCount, LeavesPlace, TakesOne};

use indexmap::IndexMap;
use permit_book::{PermitNo, Permits};
use std::alloc::{AllocError, Global};
use std::cell::Cell;
use std::hash::RandomState;

// Up to this many authorities keep their names when nothing is out for them: the next permit is then counted
// without memory.
const MOST_KEPT: usize = 64;

/// The counts by authority.
#[derive(Drop)]
pub(crate) struct PlaceCounts {
    by_authority: IndexMap<String, u64, RandomState>,
    // The place of the authority that was found last: successive calls are mostly about one site.
    last: Cell<usize>,
}

/// An authority's index in the counts, until they change, and its outstanding permits.
#[derive(Clone, Copy)]
pub(crate) struct Count {
    pub index: Option<usize>,
    pub count: u64,
}

impl PlaceCounts {
    pub(crate) fn new(alloc: Global, keys: RandomState) -> PlaceCounts
        ensures { (authority : List ℕ) → held_by result authority ≡ 0 }
    {
        PlaceCounts {
            by_authority: IndexMap::with_hasher(alloc, keys),
            last: Cell::new(0),
        }
    }

    pub(crate) fn find(&self, authority: &str) -> Count
        ensures { IsCount self.now authority.now result }
    {
        match self.find_again(authority) {
            Some(held) => held,
            None => self.search(authority),
        }
    }

    // The authority, if it is the one that was found last: no hash is needed.
    fn find_again(&self, authority: &str) -> Option<Count>
        ensures { IfSome result (IsCount self.now authority.now) }
    {
        let index = self.last.get();
        match self.by_authority.get_index(index) {
            Some((name, count)) if name.as_str() == authority => Some(Count {
                index: Some(index),
                count: *count,
            }),
            _ => None,
        }
    }

    // The authority among all.
    fn search(&self, authority: &str) -> Count
        ensures { IsCount self.now authority.now result }
    {
        match self.by_authority.get_full(authority) {
            Some((index, _authority, count)) => {
                self.last.set(index);
                Count {
                    index: Some(index),
                    count: *count,
                }
            }
            None => Count {
                index: None,
                count: 0,
            },
        }
    }

    /// Counts a permit of the authority that was found.
    pub(crate) fn add(&mut self, held: Count, authority: &str) -> Result<(), AllocError>
        requires few { held.count < 2 ^ 32 }
        requires held { IsCount self.old authority.now held }
        ensures ok { OnOk result (AddsOne (held_by self.old) authority.now (held_by self.new)) }
        ensures err { OnErr result (held_by self.new ≡ held_by self.old) }
    {
        let Some(index) = held.index else {
            return self.enter(authority);
        };
        match self.by_authority.get_index_mut(index) {
            Some(count) => *count = held.count + 1,
            None => unreachable!(),
        }
        Ok(())
    }

    /// Uncounts the numbered permit, which ends. It allocates nothing.
    pub(crate) fn leave(&mut self, permits: &Permits, number: PermitNo)
        ensures { LeavesPlace (held_by self.old) (out_under permits.now number) (held_by self.new) }
    {
        if let Some(url) = permits.url_of(number) {
            self.release(url.authority());
        }
    }

    // The first permit of an authority.
    fn enter(&mut self, authority: &str) -> Result<(), AllocError>
        requires { get_by_text self.old.by_authority authority.now ≡ None }
        ensures ok { OnOk result (AddsOne (held_by self.old) authority.now (held_by self.new)) }
        ensures err { OnErr result (held_by self.new ≡ held_by self.old) }
    {
        let name = String::from_str(*self.by_authority.allocator(), authority)?;
        match self.by_authority.insert(name, 1) {
            Ok(_) => Ok(()),
            Err(_) => Err(AllocError),
        }
    }

    // Gives back a place of the authority.
    fn release(&mut self, authority: &str)
        ensures { TakesOne (held_by self.old) authority.now (held_by self.new) }
    {
        let held = self.find(authority);
        let Some(index) = held.index else {
            return;
        };
        if held.count <= 1 && self.by_authority.len() > MOST_KEPT {
            self.by_authority.swap_remove_index(index);
            return;
        }
        match self.by_authority.get_index_mut(index) {
            Some(count) => *count = held.count.saturating_sub(1),
            None => unreachable!(),
        }
    }
}
