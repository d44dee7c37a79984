//! Rows that are written as the pieces of a line each, and all of them in turn.
//! Used by explanations and by what a shift reports of its lines and sites.
ghost use Rattle.std.specs.Prelude.{◌≡◌, ℕ, List, flat_map};
ghost use Rattle.counted_io.specs.Output.{Pushes};
ghost use Rattle.line_text.specs.Pieces.{pieces_text};

use crate::pieces::Pieces;
use counted_io::{DeviceFault, Output, Sink};

/// What is written as the pieces of a line.
pub trait AsPieces {
    /// Its text, with the line's end.
    ghost text: { Self → List ℕ };

    /// The pieces of its text.
    fn pieces(&self) -> Pieces<'_>
        ensures { pieces_text result ≡ text self.now };
}

/// Pushes the texts of these rows, in their order.
pub fn push_each<T: AsPieces, W: Sink>(
    rows: &[T],
    output: &mut Output,
    sink: &mut W,
) -> Result<(), DeviceFault>
    ensures { Pushes (W.written sink.old) (W.written sink.new)
        (W.failures sink.old) (W.failures sink.new) output.old output.new
        (flat_map T.text rows.now) result }
{
    for row in rows {
        row.pieces().push(output, sink)?;
    }
    Ok(())
}
