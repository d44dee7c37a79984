//! The word of a refusal, and its line (docs/FORMATS.md, replies).
//! Used by the replies, by the hops and by the table of a shift.
ghost use Rattle.std.specs.Prelude.{◌≡◌};
ghost use Rattle.line_text.specs.Pieces.{pieces_text};
ghost use Rattle.command_lines.specs.RefusalText.{error_of, refusal_text, refusal_word};

use crawl_job::Refusal;
use line_text::{Piece, Pieces};

/// The word of a refusal.
pub fn refusal_word(refusal: Refusal) -> &'static str
    ensures { result.now ≡ refusal_word refusal }
{
    match refusal {
        Refusal::AuthoritiesFull => "authorities",
        Refusal::LogFull => "log",
        Refusal::Busy => "busy",
        Refusal::PermitsFull => "permits",
        Refusal::NoMemory => "memory",
    }
}

/// The line of a refusal.
pub fn refusal_pieces(refusal: Refusal) -> Pieces<'static>
    ensures { pieces_text result ≡ refusal_text refusal }
{
    error_pieces(refusal_word(refusal))
}

/// The line of an error.
pub(crate) fn error_pieces(word: &'static str) -> Pieces<'static>
    ensures { pieces_text result ≡ error_of word.now }
{
    Pieces::two_words("ERR", Piece::Text(word))
}
