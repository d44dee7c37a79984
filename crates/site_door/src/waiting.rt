//! Who waits for a site: of those who came to its door in vain, the one who has waited longest.
//! If nobody is kept, for want of memory, whoever comes first is let in.

use crate::table::MOST_SITES;
use indexmap::IndexMap;
use std::alloc::Global;
use std::hash::RandomState;

// How long somebody who waits is waited for, in milliseconds: they come again ten times a second.
const GRACE: u64 = 200;

/// Who comes to a door.
#[derive(Clone, Copy, Debug, PartialEq, Eq)]
pub struct Visitor {
    /// The number by which it can be called.
    pub place: usize,
    /// Until when it waits, by a clock that all visitors have. Whoever has waited longest has the least.
    pub until: u64,
}

// Somebody who waits at a door, and when it last came.
#[derive(Clone, Copy, Debug, PartialEq, Eq)]
struct FirstInLine {
    visitor: Visitor,
    came: u64,
}

impl FirstInLine {
    // Whether it is before this visitor in the line. It is no more if it has not come for a while.
    fn is_before(&self, visitor: Visitor, now: u64) -> bool {
        self.visitor.place != visitor.place
            && self.visitor.until <= visitor.until
            && now <= self.came.saturating_add(GRACE)
    }
}

/// For each site the visitor who has waited longest.
#[derive(Drop)]
pub(crate) struct WaitingLine {
    first: IndexMap<String, FirstInLine, RandomState>,
}

impl WaitingLine {
    /// Nobody waits.
    pub(crate) fn new(alloc: Global, keys: RandomState) -> WaitingLine {
        WaitingLine {
            first: IndexMap::with_hasher(alloc, keys),
        }
    }

    /// Whether another visitor is to be let in before this one.
    pub(crate) fn is_behind(&self, site: &str, visitor: Visitor, now: u64) -> bool {
        match self.first.get(site) {
            Some(first) => first.is_before(visitor, now),
            None => false,
        }
    }

    /// A visitor came in vain.
    pub(crate) fn wait(&mut self, site: &str, visitor: Visitor, now: u64) {
        let waits = FirstInLine { visitor, came: now };
        match self.first.get_mut(site) {
            Some(first) => {
                if !first.is_before(visitor, now) {
                    *first = waits;
                }
            }
            None => self.add(site, waits),
        }
    }

    fn add(&mut self, site: &str, waits: FirstInLine) {
        if self.first.len() >= MOST_SITES {
            self.first.clear();
        }
        if let Ok(name) = String::from_str(*self.first.allocator(), site) {
            let _ = self.first.insert(name, waits);
        }
    }

    /// A visitor was let in.
    pub(crate) fn let_in(&mut self, site: &str, visitor: Visitor) {
        let is_first =
            matches!(self.first.get(site), Some(it) if it.visitor.place == visitor.place);
        if is_first {
            let _ = self.first.swap_remove(site);
        }
    }

    /// The place of the visitor who is to be let in next.
    pub(crate) fn next(&self, site: &str) -> Option<usize> {
        self.first.get(site).map(|first| first.visitor.place)
    }
}
