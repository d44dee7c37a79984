//! The turns of sites: a queue that holds each site at most once.
//! Called by the table of sites, under its lock.
ghost use Rattle.std.specs.Prelude.{◌≤◌, ◌+◌};
ghost use Rattle.std.specs.VecDeque.{deque_capacity, deque_len};
ghost use Rattle.crawl_workers.specs.Orders.{how_many_false};

use std::alloc::{AllocError, Global};
use std::collections::VecDeque;

/// The sites in order of their turns. There is room for every site.
#[derive(Drop)]
pub(crate) struct Turns {
    line: VecDeque<usize>,
    // Whether a site is in the queue.
    stands: Vec<bool>,
    ghost room: { deque_len line + how_many_false stands.items ≤ deque_capacity line },
}

impl Turns {
    /// No turns yet.
    pub(crate) fn with_room(alloc: Global, sites: usize) -> Result<Turns, AllocError> {
        Ok(Turns {
            line: VecDeque::with_capacity(alloc, sites)?,
            stands: vec![in alloc; false; sites]?,
        })
    }

    pub(crate) fn is_empty(&self) -> bool {
        self.line.is_empty()
    }

    /// Gives a site a turn after the others; returns whether it had none.
    pub(crate) fn line_up(&mut self, site: usize) -> bool {
        if site >= self.stands.len() || self.stands[site] {
            return false;
        }
        self.stands[site] = true;
        self.line.push_back_reserved(site);
        true
    }

    pub(crate) fn take(&mut self) -> Option<usize> {
        let site = self.line.pop_front()?;
        if site < self.stands.len() {
            self.stands[site] = false;
        }
        Some(site)
    }
}
