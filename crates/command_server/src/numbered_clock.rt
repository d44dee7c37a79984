//! The clock of a session or a server, with numbered readings that contracts can tell apart.
//! Used by `serve`, and by what maintains a server's gate.
ghost use Rattle.std.specs.Prelude.{◌≡◌};
ghost use Rattle.command_server.specs.Readings.{next_reading};

use page_worker::Clock;

/// A clock whose caller numbers each reading. Generic code can prove of a moment only its numbers, so it
/// can't pass an old reading off as a later one.
pub trait NumberedClock {
    ghost use Rattle.std.specs.Prelude.{ℕ};

    /// Relates the number of a reading to its moment.
    ghost reads: { Self → ℕ → ℕ → Type 0 };

    /// The moment of the reading with this number.
    fn read(&self, number: u64) -> u64
        ensures { reads self.now number result };
}

/// Any clock, which needs no numbers.
impl<C: Clock> NumberedClock for C {
    ghost reads = { λ clock _ moment. C.reads clock moment };

    fn read(&self, _number: u64) -> u64 {
        self.now()
    }
}

/// The number of the next reading.
pub fn next_reading(number: u64) -> u64
    ensures { result ≡ next_reading number }
{
    number.saturating_add(1)
}

/// The clock of a fetch or a refresh, whose readings share one number.
#[derive(Drop)]
pub struct FetchClock<'c, C: NumberedClock> {
    /// The clock.
    pub clock: &'c C,
    /// The number of its readings.
    pub number: u64,
}

impl<C: NumberedClock> Clock for FetchClock<'_, C> {
    ghost reads = { λ fetch moment. C.reads fetch.clock.now fetch.number moment };

    fn now(&self) -> u64 {
        self.clock.read(self.number)
    }
}
