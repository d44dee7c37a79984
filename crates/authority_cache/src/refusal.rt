//! Why a call on the cache was refused. Nothing has changed.
//! Returned by `begin` and `arrive`; RFC 9309, 2.3, leaves to the crawler how often it fetches.

use std::alloc::AllocError;
use std::error::Error;
use std::fmt;

/// Why no turn was begun, in the order of the tests.
#[derive(Clone, Copy, Debug, PartialEq, Eq)]
pub enum FlightRefusal {
    /// A turn of the authority is in flight.
    InFlight,
    /// The authority is not known, and the cache is full.
    AuthoritiesFull,
    /// Out of memory.
    NoMemory,
}

/// The turn is not in flight for the authority.
#[derive(Clone, Copy, Debug, PartialEq, Eq)]
pub struct Stale;

impl From<AllocError> for FlightRefusal {
    ghost use Rattle.std.specs.Prelude.{◌≡◌};
    ghost use Rattle.authority_cache.specs.declared.refusal.FlightRefusal.{FlightRefusal};

    ghost from_gives = { λ _ refusal. refusal ≡ FlightRefusal.NoMemory };

    fn from(_: AllocError) -> FlightRefusal {
        FlightRefusal::NoMemory
    }
}

impl fmt::Display for FlightRefusal {
    ghost use Rattle.std.specs.Prelude.{Some};
    ghost use Rattle.authority_cache.specs.Messages.{flight_refusal_text};

    ghost output = { λ refusal. Some (flight_refusal_text refusal) };

    fn fmt<W: fmt::Write>(&self, f: &mut fmt::Formatter<W>) -> fmt::Result {
        f.write_str(match self {
            FlightRefusal::InFlight => "a turn of the authority is in flight",
            FlightRefusal::AuthoritiesFull => "too many authorities are known",
            FlightRefusal::NoMemory => "no memory for the authority",
        })
    }
}

impl fmt::Display for Stale {
    ghost use Rattle.std.specs.Prelude.{Some, codes};

    ghost output = { λ _. Some (codes "the turn is not in flight") };

    fn fmt<W: fmt::Write>(&self, f: &mut fmt::Formatter<W>) -> fmt::Result {
        f.write_str("the turn is not in flight")
    }
}

impl Error for FlightRefusal {}

impl Error for Stale {}
