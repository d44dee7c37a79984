//! The last line of a shift's report, whole or ended early (docs/FORMATS.md, the report of a shift).
ghost use Rattle.std.specs.Prelude.{◌≡◌};
ghost use Rattle.line_text.specs.Pieces.{pieces_text};
ghost use Rattle.crawl_shift.specs.ShiftText.{early_sums_text, sums_text};

use line_text::{Piece, Pieces};

/// The last line: the numbers of jobs, of hops and of started fetches.
pub fn sums<'a>(jobs: u64, hops: u64, starts: u64) -> Pieces<'a>
    ensures { pieces_text result ≡ sums_text jobs hops starts }
{
    Pieces::of(&[
        Piece::Text("SHIFT jobs "),
        Piece::Number(jobs),
        Piece::Text(" hops "),
        Piece::Number(hops),
        Piece::Text(" starts "),
        Piece::Number(starts),
        Piece::Text("\n"),
    ])
}

/// The last line of a report that ended early: the same numbers of the jobs that are done, and how many are
/// left.
pub fn early_sums<'a>(jobs: u64, hops: u64, starts: u64, left: u64) -> Pieces<'a>
    ensures { pieces_text result ≡ early_sums_text jobs hops starts left }
{
    Pieces::of(&[
        Piece::Text("SHIFT jobs "),
        Piece::Number(jobs),
        Piece::Text(" hops "),
        Piece::Number(hops),
        Piece::Text(" starts "),
        Piece::Number(starts),
        Piece::Text(" left "),
        Piece::Number(left),
        Piece::Text("\n"),
    ])
}
