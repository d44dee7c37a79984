//! A line as a few borrowed pieces: written, or compared with a text, without allocating.
//! Used by all that writes replies, records, entries or reports.
ghost use Rattle.std.specs.Prelude.{◌≡◌, ◌↔◌, ◌≤◌, ◌++◌, [], ◌∷◌, IsTrue, codes, decimal, flat_map, length, take};
ghost use Rattle.counted_io.specs.Output.{Pushes};
ghost use Rattle.line_text.specs.Pieces.{line_of, most_pieces, piece_text, pieces_text};

use crate::piece::Piece;
use counted_io::{DeviceFault, Output, Sink};

const SPACE: Piece<'static> = Piece::Text(" ");

const END: Piece<'static> = Piece::Text("\n");

/// The pieces of a line: the first `len` places. The others are ignored.
#[derive(Clone, Copy)]
pub struct Pieces<'a> {
    pieces: [Piece<'a>; 10],
    len: usize,
}

impl<'a> Pieces<'a> {
    /// A line of exactly these pieces, with its line feed, if any, among them.
    pub fn of(pieces: &[Piece<'a>]) -> Pieces<'a>
        requires { length pieces.now ≤ most_pieces }
        ensures { pieces_text result ≡ flat_map piece_text pieces.now }
    {
        let mut row = [Piece::Text(""); 10];
        let len = pieces.len();
        row[..len].copy_from_slice(pieces);
        Pieces { pieces: row, len }
    }

    /// A whole line, with its line feed.
    pub fn whole(line: &'a str) -> Pieces<'a>
        ensures { pieces_text result ≡ line.now }
    {
        Pieces::of(&[Piece::Text(line)])
    }

    /// Two words.
    pub fn two_words(first: &'a str, second: Piece<'a>) -> Pieces<'a>
        ensures { pieces_text result ≡ line_of (first.now ∷ piece_text second.entry ∷ []) }
    {
        Pieces::of(&[Piece::Text(first), SPACE, second, END])
    }

    /// Three words.
    pub fn three_words(first: &'a str, second: Piece<'a>, third: Piece<'a>) -> Pieces<'a>
        ensures { pieces_text result ≡ line_of
            (first.now ∷ piece_text second.entry ∷ piece_text third.entry ∷ []) }
    {
        Pieces::of(&[Piece::Text(first), SPACE, second, SPACE, third, END])
    }

    /// Four words.
    pub fn four_words(
        first: &'a str,
        second: Piece<'a>,
        third: Piece<'a>,
        fourth: Piece<'a>,
    ) -> Pieces<'a>
        ensures { pieces_text result ≡ line_of (first.now ∷ piece_text second.entry
            ∷ piece_text third.entry ∷ piece_text fourth.entry ∷ []) }
    {
        Pieces::of(&[
            Piece::Text(first),
            SPACE,
            second,
            SPACE,
            third,
            SPACE,
            fourth,
            END,
        ])
    }

    /// A line of a number and a word, and what follows the word.
    pub fn numbered(number: u64, word: &'a str, gap: &'a str, value: Piece<'a>) -> Pieces<'a>
        ensures { pieces_text result ≡ decimal number
            ++ (codes " " ++ ((word.now ++ (gap.now ++ piece_text value.entry)) ++ codes "\n")) }
    {
        Pieces::of(&[
            Piece::Number(number),
            SPACE,
            Piece::Text(word),
            Piece::Text(gap),
            value,
            END,
        ])
    }

    /// Pushes the line to the output.
    pub fn push<W: Sink>(&self, output: &mut Output, sink: &mut W) -> Result<(), DeviceFault>
        ensures { Pushes (W.written sink.old) (W.written sink.new)
            (W.failures sink.old) (W.failures sink.new) output.old output.new
            (pieces_text self.now) result }
    {
        push_all(self.row(), output, sink)
    }

    /// Whether this is the line.
    pub fn is(&self, line: &[u8]) -> bool
        ensures { IsTrue result ↔ (line.now ≡ pieces_text self.now) }
    {
        is_row(self.row(), line)
    }

    // The pieces of the line.
    fn row(&self) -> &[Piece<'a>]
        ensures { result.now ≡ take self.now.len self.now.pieces }
    {
        let places = self.pieces.as_slice();
        &places[..self.len.min(places.len())]
    }
}

fn push_all<W: Sink>(
    pieces: &[Piece<'_>],
    output: &mut Output,
    sink: &mut W,
) -> Result<(), DeviceFault>
    ensures { Pushes (W.written sink.old) (W.written sink.new)
        (W.failures sink.old) (W.failures sink.new) output.old output.new
        (flat_map piece_text pieces.now) result }
{
    for piece in pieces {
        piece.push(output, sink)?;
    }
    Ok(())
}

// Whether the line is the texts of the pieces.
fn is_row(pieces: &[Piece<'_>], line: &[u8]) -> bool
    ensures { IsTrue result ↔ (line.now ≡ flat_map piece_text pieces.now) }
{
    let mut rest = line;
    for piece in pieces {
        match piece.strip(rest) {
            Some(behind) => rest = behind,
            None => return false,
        }
    }
    rest.is_empty()
}
