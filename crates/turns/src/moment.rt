//! Moments of a loop, in milliseconds since it began.
//! Conversations set their deadlines by them.
ghost use Rattle.std.specs.Prelude.{◌≡◌, ◌+◌, ◌≤◌, ◌↔◌, IsTrue, min};
ghost use Rattle.turns.specs.Limits.{never};

/// A moment of a loop.
#[derive(Clone, Copy, Debug, PartialEq, Eq)]
pub struct Moment {
    /// The time since the loop began.
    pub milliseconds: u64,
}

impl Moment {
    /// The deadline of what may last for ever.
    pub const NEVER: Moment = Moment {
        milliseconds: u64::MAX,
    };

    /// The moment so many milliseconds later, or `NEVER`.
    pub fn after(self, milliseconds: u64) -> Moment
        ensures { result.milliseconds ≡ min (self.milliseconds + milliseconds) never }
    {
        Moment {
            milliseconds: self.milliseconds.saturating_add(milliseconds),
        }
    }

    /// Whether a deadline is over at this moment. `NEVER` is never over: a loop's clock stays before it.
    pub fn is_over(self, now: Moment) -> bool
        ensures { IsTrue result ↔ self.milliseconds ≤ now.milliseconds }
    {
        self.milliseconds <= now.milliseconds
    }
}
