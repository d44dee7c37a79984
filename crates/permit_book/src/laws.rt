//! The limits, and the agreement of a table of permits with a history's lists: each change of the table is
//! one of the lists, and both say the same. RFC 9309, 2.4, is why there are permits.
ghost use Rattle.std.specs.Prelude.{◌≡◌};
ghost use Rattle.permit_book.specs.Numbers.{last_generation, most_slots, numbers_of_generation};
ghost use Rattle.permit_book.specs.Laws.{EndHolds, FinishTells, GrantHolds, GrantTells, GreatestAlike, IdleIsEmpty, NewHolds, NewTells, NextAlike, NoneFreeAlike, NoteTells, ReturnTells, StartHolds, StartTells, TellingReadsAlike};

use crate::number::{LAST_GENERATION, MAX_SLOTS, SLOTS_PER_GENERATION};

/// The limits are those of the definitions.
pub fn limits_are()
    ensures slots { MAX_SLOTS ≡ most_slots }
    ensures generation { LAST_GENERATION ≡ last_generation }
    ensures numbers { SLOTS_PER_GENERATION ≡ numbers_of_generation }
{}

/// A new table agrees with a history without grants, and each change of a table changes the lists as the
/// history's entry of its kind does.
pub fn changes_tell()
    ensures new { NewTells }
    ensures granted { GrantTells }
    ensures started { StartTells }
    ensures returned { ReturnTells }
    ensures finished { FinishTells }
{}

/// The table and the lists have the same next number, or none.
pub fn next_is_alike()
    ensures next { NextAlike }
    ensures none_free { NoneFreeAlike }
{}

/// Table and lists are read alike.
pub fn readers_are_alike()
    ensures reads { TellingReadsAlike }
    ensures greatest { GreatestAlike }
{}

/// A table without listed permits has nothing outstanding, and an earlier grant noted in an idle slot
/// counts as one of that slot, as in a history that continues from a base.
pub fn idle_tables_tell()
    ensures idle { IdleIsEmpty }
    ensures noted { NoteTells }
{}

/// An authority's count of outstanding permits changes one by one, as permits for its pages are granted and
/// end.
pub fn holds_follow()
    ensures new { NewHolds }
    ensures granted { GrantHolds }
    ensures started { StartHolds }
    ensures ended { EndHolds }
{}
