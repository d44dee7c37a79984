//! The laws of doors, and their limits.
//! They hold of any calls on `Doors`, by the contracts of `enter` and `leave`.
ghost use Rattle.std.specs.Prelude.{◌≡◌};
ghost use Rattle.site_door.specs.Limits.{most_pause, most_sites, never};
ghost use Rattle.site_door.specs.Visits.{FewAreUnderWay, PausesAreKept};

use crate::asked_pause::MOST_PAUSE;
use crate::door::NEVER;
use crate::table::MOST_SITES;

/// Whatever is called at whatever moments: two visits of a site that were let in begin at least the delay
/// apart.
pub fn pauses_are_kept()
    ensures { PausesAreKept }
{}

/// After any calls, no more visits of a site are under way than may be.
pub fn few_are_under_way()
    ensures { FewAreUnderWay }
{}

/// The limits are those of the definitions.
pub fn limits_are()
    ensures sites { MOST_SITES ≡ most_sites }
    ensures never { NEVER ≡ never }
    ensures pause { MOST_PAUSE ≡ most_pause }
{}
