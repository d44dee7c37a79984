//! The door of one site: its visits under way, and when the next may begin.
//! Used by the table of doors.
ghost use Rattle.std.specs.Prelude.{◌≡◌, ◌<◌, ◌+◌, ◌-◌, ◌^◌, max};
ghost use Rattle.site_door.specs.Doors.{entered_by, is_idle, later, left_by, no_door};
ghost use Rattle.site_door.specs.Limits.{never};

use crate::manners::Manners;

/// The moment that never comes, in milliseconds: no visit begins then.
pub(crate) const NEVER: u64 = u64::MAX;

/// The door of one site.
#[derive(Clone, Copy, Debug, PartialEq, Eq)]
pub(crate) struct DoorState {
    pub(crate) under_way: u64,
    pub(crate) next: u64,
}

impl DoorState {
    /// The door of a site of which nothing is known.
    pub(crate) fn unused() -> DoorState
        ensures { result ≡ no_door }
    {
        DoorState {
            under_way: 0,
            next: 0,
        }
    }

    /// The door at which nothing begins before this moment.
    pub(crate) fn later(self, now: u64) -> DoorState
        ensures { result ≡ later now self }
    {
        DoorState {
            under_way: self.under_way,
            next: self.next.max(now),
        }
    }

    /// The door after a visit was let in.
    pub(crate) fn enter(self, manners: &Manners, now: u64) -> DoorState
        requires { self.under_way < manners.now.most }
        ensures { result ≡ entered_by manners.now now self }
    {
        DoorState {
            under_way: self.under_way + 1,
            next: now.saturating_add(manners.delay),
        }
    }

    /// The door after a visit has left, if one was under way.
    pub(crate) fn leave(self, manners: &Manners, now: u64, pause: Option<u64>) -> DoorState
        ensures { result ≡ left_by manners.now now pause self }
    {
        if self.under_way == 0 {
            return self;
        }
        DoorState {
            under_way: self.under_way - 1,
            next: self.next.max(manners.end_of(now, pause)),
        }
    }

    /// Whether nothing is under way and the next visit may begin: such a door needs no memory.
    pub(crate) fn is_idle(&self, now: u64) -> bool
        ensures { result ≡ is_idle now self.now }
    {
        self.under_way == 0 && self.next <= now
    }
}
