//! A turn to fetch an authority's robots.txt.
//! RFC 9309, section 2.3.
ghost use Rattle.std.specs.Prelude.{◌≡◌};

use path_normal::Authority;
use std::marker::Model;

/// The number of a turn: a count of its history's begins, from 1.
#[derive(Clone, Copy, Debug, PartialEq, Eq)]
pub struct TurnNo {
    number: u64,
}

impl Model for TurnNo {
    ghost use Rattle.std.specs.Prelude.{ℕ};

    ghost Value = { ℕ };

    ghost view = { λ n. n.number };

    ghost inverse = { λ n. record { number = n } };
}

impl TurnNo {
    /// The turn number that a client wrote.
    pub fn new(number: u64) -> TurnNo
        ensures { result ≡ number }
    {
        TurnNo { number }
    }

    /// The number as it is written.
    pub fn number(self) -> u64
        ensures { result ≡ self }
    {
        self.number
    }
}

/// A turn in flight in the lists of a history or of a segment.
#[derive(Drop)]
pub struct Turn {
    /// Whose robots.txt is fetched.
    pub authority: Authority,
    /// The number of the turn.
    pub turn: TurnNo,
    /// The moment when it began, in seconds.
    pub begun: u64,
}
