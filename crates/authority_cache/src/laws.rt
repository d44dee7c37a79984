//! The limits of lifetimes, and how the cache relates to the lists of a history.
//! RFC 9309, sections 2.3.1 and 2.4.
ghost use Rattle.std.specs.Prelude.{◌≡◌};
ghost use Rattle.authority_cache.specs.Lives.{greatest_life, least_life};
ghost use Rattle.authority_cache.specs.Laws.{ArriveTells, BeginTells, LimitTells, NewTells, SweepTells};
ghost use Rattle.authority_cache.specs.Laws.{TellingCountsAlike, TellingReadsAlike};

use crate::life::{LEAST_LIFE, LIFE};

/// The limits of a lifetime are those of the definitions.
pub fn limits_are()
    ensures greatest { LIFE ≡ greatest_life }
    ensures least { LEAST_LIFE ≡ least_life }
{}

/// An empty cache says what a history without begins says, and each change of a cache changes the lists
/// like the history's entry of its kind. Another limit changes nothing.
pub fn changes_tell()
    ensures new { NewTells }
    ensures begun { BeginTells }
    ensures arrived { ArriveTells }
    ensures swept { SweepTells }
    ensures limited { LimitTells }
{}

/// The cache and the lists have as many authorities and turns.
pub fn counts_are_alike()
    ensures { TellingCountsAlike }
{}

/// Readers of the cache and of the lists agree.
pub fn readers_are_alike()
    ensures { TellingReadsAlike }
{}
