//! The nine kinds of entries of a history.
//! RFC 9309, sections 2.2.2, 2.3.1 and 2.4.
ghost use Rattle.std.specs.Prelude.{◌≡◌, ◌↔◌, IsTrue};

use crate::outcome::{Cause, Reason};
use authority_cache::TurnNo;
use path_normal::Authority;
use permit_book::{Fetch, PermitNo};
use robots_verdict::Said;

/// An event of the gate. Moments are seconds, and never fall along a history.
#[derive(Drop, PartialEq, Eq)]
pub enum Entry {
    /// The authority's robots.txt fetch began.
    Begun {
        moment: u64,
        authority: Authority,
        turn: TurnNo,
    },
    /// That turn brought the authority's answer, in force for its life in seconds.
    Arrived {
        // (first, and short: there is room for it beside the variant, and a history has many entries)
        life: u32,
        moment: u64,
        authority: Authority,
        turn: TurnNo,
        says: Said,
    },
    /// A permit was granted.
    Granted {
        moment: u64,
        number: PermitNo,
        fetch: Fetch,
    },
    /// An ask was denied.
    AskDenied {
        moment: u64,
        fetch: Fetch,
        cause: Cause,
    },
    /// A permit was spent, and its fetch may begin.
    Started {
        moment: u64,
        number: PermitNo,
        reason: Reason,
    },
    /// A permit was spent, and its fetch denied.
    StartDenied {
        moment: u64,
        number: PermitNo,
        cause: Cause,
    },
    /// An unspent permit was given back.
    Returned {
        number: PermitNo,
    },
    /// A started fetch has ended.
    Finished {
        number: PermitNo,
    },
    /// Answers older than their lives were dropped.
    Swept {
        moment: u64,
        count: u64,
    },
}

impl Entry {
    /// Whether two entries are equal, octet by octet.
    pub fn is(&self, other: &Entry) -> bool
        ensures { IsTrue result ↔ (self.now ≡ other.now) }
    {
        self == other
    }
}
