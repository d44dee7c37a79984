//! The doors of all sites: how visits enter and leave.
//! Moments are in milliseconds and may be any; a visit that comes before the latest one is told to come later.
ghost use Rattle.std.specs.Prelude.{◌≡◌, ◌+◌, ◌≤◌, if◌then◌else◌};
ghost use Rattle.site_door.specs.Doors.{Enters, IsNew, Leaves, is_left_idle, kept_count};
ghost use Rattle.site_door.specs.Limits.{most_sites};

use crate::admission::{Admission, NoDoor};
use crate::door::DoorState;
use crate::manners::Manners;
use crate::table::{DoorTable, door_at, reset, set};
use indexmap::IndexMap;
use path_normal::Authority;
use std::alloc::Global;
use std::hash::RandomState;
use std::marker::Model;

/// The doors of all sites.
#[derive(Drop)]
pub struct Doors {
    manners: Manners,
    table: DoorTable,
    // The latest moment of a call. An idle door is forgotten only because nothing begins before it.
    latest: u64,
    // The entry to look at next for one that is idle.
    hand: usize,
}

impl Model for Doors {
    ghost use Rattle.std.specs.Prelude.{◌≤◌, length};
    ghost use Rattle.site_door.specs.Doors.{DoorsView, sites_in};
    ghost use Rattle.site_door.specs.Limits.{most_sites};

    ghost Value = { DoorsView };

    ghost view = { λ doors. record {
      manners = doors.manners;
      latest = doors.latest;
      sites = sites_in doors.table;
    } };

    ghost invariant = { λ doors. length doors.table.entries ≤ most_sites };
}

impl Doors {
    /// No visit was let in yet. The keys are those of the hasher.
    pub fn new(alloc: Global, manners: Manners, keys: RandomState) -> Doors
        ensures { IsNew manners result }
    {
        Doors {
            manners,
            table: IndexMap::with_hasher(alloc, keys),
            latest: 0,
            hand: 0,
        }
    }

    /// Lets a visit in, or not now.
    pub fn enter(&mut self, site: &Authority, now: u64) -> Result<Admission, NoDoor>
        ensures { Enters self.old site.now now result self.new }
    {
        let door = door_at(&self.table, self.latest, site.text());
        self.latest = self.latest.max(now);
        match self.manners.admission(door, now) {
            Admission::Admitted => {
                let door = door.enter(&self.manners, now);
                match set(
                    &mut self.table,
                    &mut self.hand,
                    self.latest,
                    site.text(),
                    door,
                ) {
                    Ok(()) => Ok(Admission::Admitted),
                    Err(none) => Err(none),
                }
            }
            refusal => Ok(refusal),
        }
    }

    /// Ends a visit that was let in, with the milliseconds of the pause that the site asks for, if any. If no
    /// visit of the site is under way, nothing changes. Takes no memory, and gives it back with an idle door.
    pub fn leave(&mut self, site: &Authority, now: u64, pause: Option<u64>)
        ensures leaves { Leaves self.old site.now now pause self.new }
        ensures idle { (if is_left_idle self.old site.now now pause then 1 else 0)
            + kept_count self.new ≡ kept_count self.old }
    {
        let door = door_at(&self.table, self.latest, site.text());
        self.latest = self.latest.max(now);
        if door.under_way > 0 {
            let left = door.leave(&self.manners, now, pause);
            reset(&mut self.table, self.latest, site.text(), left);
        }
    }

    /// Whether no more than one further visit of a site may be under way, or visits are kept apart.
    pub(crate) fn has_last_place(&self, site: &Authority) -> bool {
        let door = door_at(&self.table, self.latest, site.text());
        self.manners.delay > 0 || self.manners.most <= door.under_way.saturating_add(1)
    }

    /// How many sites take memory.
    pub fn kept_count(&self) -> usize
        ensures count { result ≡ kept_count self.now }
        ensures bound { result ≤ most_sites }
    {
        self.table.len()
    }
}
