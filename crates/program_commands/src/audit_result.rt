//! The program's own lines: the result of an audit, or the first bad line.
//! See docs/FORMATS.md.
ghost use Rattle.std.specs.Prelude.{◌≡◌};
ghost use Rattle.line_text.specs.Pieces.{pieces_text};
ghost use Rattle.program_commands.specs.AuditResult.{audit_result_text};

use line_text::{Piece, Pieces};

/// The result of reading the lines of the input.
#[derive(Clone, Copy)]
pub enum AuditResult {
    /// All are right: their entries, and the starts among these.
    Right { events: u64, starts: u64 },
    /// The number of the first bad one, from 1.
    BadLine(u64),
}

impl AuditResult {
    /// The line.
    pub fn pieces(self) -> Pieces<'static>
        ensures { pieces_text result ≡ audit_result_text self }
    {
        match self {
            AuditResult::Right { events, starts } => Pieces::of(&[
                Piece::Text("OK events "),
                Piece::Number(events),
                Piece::Text(" starts "),
                Piece::Number(starts),
                Piece::Text("\n"),
            ]),
            AuditResult::BadLine(line) => {
                Pieces::three_words("BAD", Piece::Text("line"), Piece::Number(line))
            }
        }
    }
}
