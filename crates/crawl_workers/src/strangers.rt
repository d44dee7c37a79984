//! The sites that no job names but redirects lead to: when the last fetch began there.
//! Called by the table of sites, for `shift --delay`.

use crate::pace::LastBegin;
use std::alloc::Global;
use std::collections::BTreeMap;
use std::time::{Duration, Instant};

#[derive(Drop)]
pub(crate) struct Strangers {
    alloc: Global,
    sites: BTreeMap<String, LastBegin>,
    // Shared by those for which there was no memory.
    others: LastBegin,
}

impl Strangers {
    pub(crate) fn new(alloc: Global) -> Strangers {
        Strangers {
            alloc,
            sites: BTreeMap::new(alloc),
            others: LastBegin::never(),
        }
    }

    /// Begins a fetch unless it must wait. Returns how long it must wait.
    pub(crate) fn begin(&mut self, authority: &str, delay: Duration, now: Instant) -> Duration {
        self.know(authority);
        match self.sites.get_mut(authority) {
            Some(begun) => begun.begin(delay, now),
            None => self.others.begin(delay, now),
        }
    }

    /// Notes that a fetch at the authority begins now, without waiting.
    pub(crate) fn note(&mut self, authority: &str, now: Instant) {
        self.know(authority);
        match self.sites.get_mut(authority) {
            Some(begun) => begun.note(now),
            None => self.others.note(now),
        }
    }

    // Makes room for an authority, which may have been sharing so far.
    fn know(&mut self, authority: &str) {
        if self.sites.contains_key(authority) {
            return;
        }
        if let Ok(name) = String::from_str(self.alloc, authority) {
            // (without memory it keeps sharing)
            let _ = self.sites.insert(name, self.others);
        }
    }
}
