//! `with_gate`: a new gate, lent to a visitor that knows nothing of its ledgers.
//! To hand the gate to threads, make it directly: see `Blanks`.
ghost use Rattle.std.specs.Prelude.{◌≡◌, []};
ghost use Rattle.gate_history.specs.Base.{empty_base};

use gate_core::Book;
use gate_lock::{Blanks, Gate, GateLock};
use std::marker::Brand;

/// What is done with a gate, for any gate.
pub trait Visit {
    ghost use Rattle.std.specs.Prelude.{⊤};

    /// The result.
    type Output;

    /// What holds of a visitor and its result.
    ghost shows: { Self → Self.Output → Type 0 } = { λ _ _. ⊤ };

    /// Visits the gate.
    fn visit<G: Gate>(self, gate: &GateLock<G>) -> Self::Output
        ensures { shows self result };
}

/// Makes a gate of a book without entries, and lends it.
pub fn with_gate<V: Visit>(book: Book, visitor: V) -> V::Output
    requires { (book.base ≡ empty_base) × (book.entries ≡ []) }
    ensures { V.shows visitor result }
{
    visit_new::<Brand, V>(Blanks::new(), book, visitor)
}

fn visit_new<G: Gate, V: Visit>(blanks: Blanks, book: Book, visitor: V) -> V::Output
    requires blanks { blanks ≡ G.ledgers }
    requires book { (book.base ≡ empty_base) × (book.entries ≡ []) }
    ensures { V.shows visitor result }
{
    let gate: GateLock<G> = GateLock::new(book, blanks);
    visitor.visit(&gate)
}
