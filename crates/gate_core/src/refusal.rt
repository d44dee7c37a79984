//! How the calls of the gate refuse.
//! RFC 9309, sections 2.2.2, 2.3.1 and 2.4.
ghost use Rattle.std.specs.Prelude.{◌≡◌};
ghost use Rattle.path_normal.specs.PageText.{authority_of};

use gate_history::{Cause, Reason};
use path_normal::PageUrl;
use permit_book::PermitNo;
use std::alloc::AllocError;

/// An allocation failed; nothing changed.
#[derive(Clone, Copy, Debug, PartialEq, Eq)]
pub struct NoMemory;

/// Why a base can't be resumed.
#[derive(Clone, Copy, Debug, PartialEq, Eq)]
pub enum NotResumed {
    /// A grant of the base is beyond the limits' slots, or its generation is 0.
    Slots,
    /// An allocation failed.
    NoMemory,
}

/// Why no turn was begun. Nothing changed.
#[derive(Clone, Copy, Debug, PartialEq, Eq)]
pub enum BeginRefusal {
    /// A turn of the authority is in flight.
    InFlight,
    /// The history lacks room for the begin and its arrival.
    LogFull,
    /// The authority is unknown, and the limit is reached.
    AuthoritiesFull,
    /// An allocation failed.
    NoMemory,
}

/// Why no permit was granted. Nothing changed, but `Denied` is an entry.
#[derive(Drop)]
pub enum AskRefusal {
    /// The history lacks room for the grant, its start and its end.
    LogFull,
    /// The robots answer does not allow it.
    Denied(Denial),
    /// The URL's authority has its most outstanding permits.
    Busy,
    /// No slot is free.
    PermitsFull,
    /// An allocation failed.
    NoMemory,
}

/// Why nothing was swept. Nothing changed.
#[derive(Clone, Copy, Debug, PartialEq, Eq)]
pub enum SweepRefusal {
    /// The history lacks room for the entry.
    LogFull,
    /// An allocation failed.
    NoMemory,
}

/// A denied ask or start, with its URL.
#[derive(Drop)]
pub struct Denial {
    /// The requested URL.
    pub url: PageUrl,
    /// Why it is denied.
    pub cause: Cause,
}

impl Denial {
    /// The authority whose answer, or lack of one, denies it.
    pub fn authority(&self) -> &str
        ensures { result.now ≡ authority_of self.now.url }
    {
        self.url.authority()
    }
}

/// An allowed start: the fetch may begin.
#[derive(Drop)]
pub struct Started {
    /// The spent permit.
    pub number: PermitNo,
    /// The URL to fetch.
    pub url: PageUrl,
    /// Why it is allowed.
    pub reason: Reason,
}

impl From<AllocError> for NoMemory {
    ghost use Rattle.std.specs.Prelude.{◌≡◌};
    ghost use Rattle.gate_core.specs.declared.refusal.NoMemory.{NoMemory};

    ghost from_gives = { λ _ refusal. refusal ≡ record {} };

    fn from(_: AllocError) -> NoMemory {
        NoMemory
    }
}

impl From<AllocError> for NotResumed {
    ghost use Rattle.std.specs.Prelude.{◌≡◌};
    ghost use Rattle.gate_core.specs.declared.refusal.NotResumed.{NotResumed};

    ghost from_gives = { λ _ refusal. refusal ≡ NotResumed.NoMemory };

    fn from(_: AllocError) -> NotResumed {
        NotResumed::NoMemory
    }
}

impl From<AllocError> for BeginRefusal {
    ghost use Rattle.std.specs.Prelude.{◌≡◌};
    ghost use Rattle.gate_core.specs.declared.refusal.BeginRefusal.{BeginRefusal};

    ghost from_gives = { λ _ refusal. refusal ≡ BeginRefusal.NoMemory };

    fn from(_: AllocError) -> BeginRefusal {
        BeginRefusal::NoMemory
    }
}

impl From<AllocError> for AskRefusal {
    ghost use Rattle.std.specs.Prelude.{◌≡◌};
    ghost use Rattle.gate_core.specs.declared.refusal.AskRefusal.{AskRefusal};

    ghost from_gives = { λ _ refusal. refusal ≡ AskRefusal.NoMemory };

    fn from(_: AllocError) -> AskRefusal {
        AskRefusal::NoMemory
    }
}

impl From<AllocError> for SweepRefusal {
    ghost use Rattle.std.specs.Prelude.{◌≡◌};
    ghost use Rattle.gate_core.specs.declared.refusal.SweepRefusal.{SweepRefusal};

    ghost from_gives = { λ _ refusal. refusal ≡ SweepRefusal.NoMemory };

    fn from(_: AllocError) -> SweepRefusal {
        SweepRefusal::NoMemory
    }
}

impl From<authority_cache::FlightRefusal> for BeginRefusal {
    ghost use Rattle.std.specs.Prelude.{◌≡◌};
    ghost use Rattle.gate_core.specs.Refused.{begin_refusal};

    ghost from_gives = { λ refusal result. result ≡ begin_refusal refusal };

    fn from(refusal: authority_cache::FlightRefusal) -> BeginRefusal {
        match refusal {
            authority_cache::FlightRefusal::InFlight => BeginRefusal::InFlight,
            authority_cache::FlightRefusal::AuthoritiesFull => BeginRefusal::AuthoritiesFull,
            authority_cache::FlightRefusal::NoMemory => BeginRefusal::NoMemory,
        }
    }
}
