//! The clock that gives a gate's moments.

/// Gives the moment of a call, in seconds. It may go back.
pub trait Clock {
    ghost use Rattle.std.specs.Prelude.{ℕ, ⊤};

    /// Holds of each reading of the clock.
    ghost reads: { Self → ℕ → Type 0 } = { λ _ _. ⊤ };

    /// The moment now.
    fn now(&self) -> u64
        ensures { reads self.now result };
}
