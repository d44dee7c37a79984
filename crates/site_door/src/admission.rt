//! What a door answers to a visit that comes to it.
//! Returned by `Doors::enter`.

use std::alloc::AllocError;

/// Whether a visit was let in.
#[derive(Clone, Copy, Debug, PartialEq, Eq)]
pub enum Admission {
    /// The visit is under way now, until it leaves.
    Admitted,
    /// Not before this moment, in milliseconds. Nothing has changed.
    Later { at: u64 },
    /// As many visits of the site are under way as may be. Nothing has changed.
    Full,
}

/// Why there is no door for a site at which no visit is under way. The visit was not let in.
#[derive(Clone, Copy, Debug, PartialEq, Eq)]
pub enum NoDoor {
    /// As many sites as may be have a door.
    TooManySites,
    NoMemory,
}

impl From<AllocError> for NoDoor {
    ghost use Rattle.std.specs.Prelude.{◌≡◌};
    ghost use Rattle.site_door.specs.declared.admission.NoDoor.{NoDoor};

    ghost from_gives = { λ _ none. none ≡ NoDoor.NoMemory };

    fn from(_: AllocError) -> NoDoor {
        NoDoor::NoMemory
    }
}
