//! How sites are visited: how many visits at once, how far apart, and whether a site's own pauses are kept.
//! RFC 9110, section 10.2.3, for the pauses.
ghost use Rattle.std.specs.Prelude.{◌≡◌, ◌^◌, ◌/◌, max};
ghost use Rattle.site_door.specs.Doors.{admission_of, pause_end, sum_or_never};

use crate::admission::Admission;
use crate::door::{DoorState, NEVER};

/// Whether the pauses that sites ask for are kept.
#[derive(Clone, Copy, Debug, PartialEq, Eq)]
pub enum AskedPauses {
    Kept,
    Ignored,
}

/// How sites are visited.
#[derive(Clone, Copy, Debug, PartialEq, Eq)]
pub struct Manners {
    /// How many visits of one site may be under way at once.
    pub most: u64,
    /// The least milliseconds between the begins of two visits of one site.
    pub delay: u64,
    /// Whether pauses that a site asks for are kept.
    pub pauses: AskedPauses,
}

impl Manners {
    /// At most half of the fetchers, and at least one, at one site.
    pub fn of_fetchers(fetchers: u64, delay: u64, pauses: AskedPauses) -> Manners
        ensures { result ≡ record { most = max 1 (fetchers / 2); delay = delay; pauses = pauses } }
    {
        Manners {
            most: (fetchers / 2).max(1),
            delay,
            pauses,
        }
    }

    /// What a door answers at this moment.
    pub(crate) fn admission(&self, door: DoorState, now: u64) -> Admission
        ensures { result ≡ admission_of self.now door now }
    {
        if now < door.next || now == NEVER {
            Admission::Later {
                at: door.next.max(now),
            }
        } else if door.under_way < self.most {
            Admission::Admitted
        } else {
            Admission::Full
        }
    }

    /// When a pause of so many milliseconds ends: at once, if pauses are ignored.
    pub(crate) fn end_of(&self, now: u64, pause: Option<u64>) -> u64
        ensures { result ≡ pause_end self.now now pause }
    {
        match (self.pauses, pause) {
            (AskedPauses::Kept, Some(pause)) => now.saturating_add(pause),
            _ => 0,
        }
    }
}
