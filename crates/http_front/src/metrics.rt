//! The numbers that `/metrics` tells.
//! docs/FORMATS.md has those of the reply to INFO.
use gate_history::Cause;
use keepers::Counts;
use std::alloc::{AllocError, Global};

/// Writes what a gate keeps, and what else there is to tell of its server, as a text; and counts for it.
pub trait Metrics {
    ghost use Rattle.std.specs.Prelude.{ℕ, List, IfOk};
    ghost use Rattle.keepers.specs.declared.counts.Counts.{Counts};

    /// Relates how much a gate keeps to a text that tells it.
    ghost tells: { Self → Counts → List ℕ → Type 0 };

    /// A text in Prometheus' text format, version 0.0.4.
    fn text(&self, alloc: Global, counts: Counts) -> Result<Vec<u8>, AllocError>
        ensures { IfOk result (λ text. tells self.now counts text.items) };

    /// A request was denied.
    fn note_denial(&self, _cause: Cause) {}

    /// A page was fetched for a request, and gave no response.
    fn note_failed_page(&self) {}
}
