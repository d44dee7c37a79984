//! The fixed limits of a book.
//! RFC 9309, section 2.4, leaves them to the crawler.
ghost use Rattle.std.specs.Prelude.{◌≡◌};
ghost use Rattle.permit_book.specs.Numbers.{last_generation, most_slots};
ghost use Rattle.gate_core.specs.Limits.{most_authorities, most_entries, most_places, usual_limits};

use permit_book::{LAST_GENERATION, MAX_SLOTS};
use std::hash::RandomState;

/// The most entries of a book's history.
pub const MAX_LOG: u64 = 1_000_000;

/// The most authorities known at a time.
pub const MAX_AUTHORITIES: u64 = 65_536;

/// The most outstanding permits of an authority.
pub const MAX_PLACES: u64 = 65_536;

/// The limits of a book.
#[derive(Clone, Copy, Debug, PartialEq, Eq)]
pub struct Limits {
    /// Permit slots, from 1 to [`MAX_SLOTS`].
    pub slots: u64,
    /// The generation of each slot's first permit, from 1 to [`LAST_GENERATION`].
    pub first_generation: u64,
    /// Entries of the history, from 1 to [`MAX_LOG`].
    pub log_limit: u64,
    /// Authorities known at a time, from 1 to [`MAX_AUTHORITIES`].
    pub authority_limit: u64,
    /// Outstanding permits of an authority, from 1 to [`MAX_PLACES`].
    pub places: u64,
}

/// A book's limits, and hash keys that keep sites from choosing their place in a table.
#[derive(Clone, Copy)]
pub struct Config {
    /// The limits.
    pub limits: Limits,
    /// The keys of the hasher.
    pub keys: RandomState,
}

impl Limits {
    /// The default limits.
    pub fn usual() -> Limits
        ensures { result ≡ usual_limits }
    {
        Limits {
            slots: 1_024,
            first_generation: 1,
            log_limit: MAX_LOG,
            authority_limit: MAX_AUTHORITIES,
            places: MAX_PLACES,
        }
    }
}

/// The constants are those of the definitions.
pub fn limits_are()
    ensures slots { MAX_SLOTS ≡ most_slots }
    ensures generation { LAST_GENERATION ≡ last_generation }
    ensures log { MAX_LOG ≡ most_entries }
    ensures authorities { MAX_AUTHORITIES ≡ most_authorities }
    ensures places { MAX_PLACES ≡ most_places }
{}
