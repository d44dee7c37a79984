//! The book at the start of the program.
//! Used by `replay`, `export` and a shift.
ghost use Rattle.std.specs.Prelude.{◌≡◌, [], IfOk};
ghost use Rattle.gate_history.specs.Base.{empty_base};
ghost use Rattle.gate_core.specs.Limits.{AreLimits};

use crate::ending::Ending;
use gate_core::{Book, Config, Limits};
use std::hash::RandomState;

/// A new book with new random keys for its tables. Without them the program ends as returned.
pub fn new_book(rt: &HostRuntime, limits: Limits) -> Result<Book, Ending>
    requires { AreLimits limits }
    ensures { IfOk result (λ book. (book.base ≡ empty_base) × (book.entries ≡ [])) }
{
    let Ok(keys) = RandomState::new(rt) else {
        return Err(Ending::Device);
    };
    match Book::new(rt.alloc(), Config { limits, keys }) {
        Ok(book) => Ok(book),
        Err(_) => Err(Ending::NoMemory),
    }
}
