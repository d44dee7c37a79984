//! When answers end: a heap from which a sweep takes what is past, earliest first.
//! RFC 9309, section 2.4.
ghost use Rattle.std.specs.Prelude.{◌≡◌, ◌+◌, ◌<◌, ◌≤◌, [], IfNone, IfSome, OnOk, length};
ghost use Rattle.authority_cache.specs.Ends.{Adds, KeepsEnd, NoneBefore, Takes};

use crate::cache::Sites;
use std::alloc::{AllocError, Global};
use std::cmp::Reverse;
use std::collections::BinaryHeap;
use std::marker::Model;

// For each answer the last moment in force, in seconds, and the index of its site. Entries of replaced
// answers or moved sites are obsolete.
#[derive(Drop)]
pub struct Ends {
    heap: BinaryHeap<Reverse<(u64, usize)>>,
}

impl Model for Ends {
    ghost use Rattle.authority_cache.specs.Ends.{KeptEnds};

    ghost Value = { KeptEnds };

    ghost use Rattle.authority_cache.specs.Ends.{IsOrdered, kept_of};

    ghost view = { kept_of };

    ghost invariant = { IsOrdered };
}

impl Ends {
    pub fn new(alloc: Global) -> Ends
        ensures { result.ends ≡ [] }
    {
        Ends {
            heap: BinaryHeap::new(alloc),
        }
    }

    pub fn len(&self) -> usize
        ensures { result ≡ length self.now.ends }
    {
        self.heap.len()
    }

    pub fn reserve(&mut self, more: usize) -> Result<(), AllocError>
        ensures ends { self.new.ends ≡ self.old.ends }
        ensures room { self.old.room ≤ self.new.room }
        ensures ok { OnOk result (length self.new.ends + more ≤ self.new.room) }
    {
        self.heap.reserve(more)
    }

    // Keeps the end of the site's answer. Takes no memory.
    pub fn push(&mut self, last: u64, site: usize)
        requires { length self.old.ends < self.old.room }
        ensures { Adds self.old (last, site) self.new }
    {
        let _ = self.heap.push(Reverse((last, site)));
    }

    // Takes an end before this moment, if any, and returns its site.
    pub fn pop_before(&mut self, moment: u64) -> Option<usize>
        ensures some { IfSome result (λ site. Takes moment self.old site self.new) }
        ensures none { IfNone result (NoneBefore moment self.old) }
        ensures same { IfNone result (self.new ≡ self.old) }
    {
        match self.heap.peek() {
            Some(Reverse((last, _site))) if *last < moment => {}
            _ => return None,
        }
        match self.heap.pop() {
            Some(Reverse((_last, site))) => Some(site),
            None => None,
        }
    }

    // Drops all ends, and keeps the memory.
    pub fn clear(&mut self)
        ensures ends { self.new.ends ≡ [] }
        ensures room { self.new.room ≡ self.old.room }
    {
        self.heap.clear();
    }
}

// Keeps the end of the answer of the site at this index, if it has one. Takes no memory.
pub fn keep_end(sites: &Sites, ends: &mut Ends, index: usize)
    requires { length ends.old.ends < ends.old.room }
    ensures { KeepsEnd sites.now.entries index ends.old ends.new }
{
    let Some((_authority, site)) = sites.get_index(index) else {
        return;
    };
    if let Some(standing) = &site.standing {
        ends.push(standing.last_moment(), index);
    }
}
