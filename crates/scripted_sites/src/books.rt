//! New books for the tests of gates, workers and sessions.
ghost use Rattle.std.specs.Prelude.{◌≡◌, [], IfOk};
ghost use Rattle.gate_history.specs.Base.{empty_base};
ghost use Rattle.gate_core.specs.Limits.{AreLimits};

use gate_core::{Book, Config, Limits, NoMemory};
use std::alloc::Global;
use std::hash::RandomState;
use std::random::RandomSource;

/// A book without entries with these limits. A test that gets no random keys ends as one without memory.
pub fn new_book(rt: &impl RandomSource, alloc: Global, limits: Limits) -> Result<Book, NoMemory>
    requires { AreLimits limits }
    ensures { IfOk result (λ book. (book.base ≡ empty_base) × (book.entries ≡ [])) }
{
    let Ok(keys) = RandomState::new(rt) else {
        return Err(NoMemory);
    };
    Book::new(alloc, Config { limits, keys })
}
