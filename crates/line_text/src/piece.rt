//! A borrowed piece of a line: written, or compared with a text, without allocating.
//! Kept in the row of a line by `pieces`.
ghost use Rattle.std.specs.Prelude.{◌≡◌};
ghost use Rattle.counted_io.specs.Output.{Pushes};
ghost use Rattle.line_text.specs.Pieces.{piece_text};
ghost use Rattle.line_text.specs.Strips.{Strips};

use crate::octets::{Spelling, strip};
use counted_io::{DeviceFault, Output, Sink};
use itoa::Buffer;

/// A piece of a line.
#[derive(Clone, Copy)]
pub enum Piece<'a> {
    /// A text, unchanged.
    Text(&'a str),
    /// Octets, unchanged.
    Octets(&'a [u8]),
    /// A decimal number.
    Number(u64),
    /// Octets with letters in lower case.
    LowerCase(&'a [u8]),
    /// Octets, with those outside 33 to 126 escaped.
    Escaped(&'a [u8]),
    /// Octets, with all but unreserved ones escaped.
    Body(&'a [u8]),
}

impl<'a> Piece<'a> {
    pub(crate) fn push<W: Sink>(&self, output: &mut Output, sink: &mut W) -> Result<(), DeviceFault>
        ensures { Pushes (W.written sink.old) (W.written sink.new)
            (W.failures sink.old) (W.failures sink.new) output.old output.new
            (piece_text self.now) result }
    {
        match self {
            Piece::Text(text) => output.push(sink, text.as_bytes()),
            Piece::Octets(octets) => output.push(sink, octets),
            Piece::Number(number) => output.push(sink, Buffer::new().format(*number).as_bytes()),
            Piece::LowerCase(octets) => Spelling::LowerCase.push(octets, output, sink),
            Piece::Escaped(octets) => Spelling::Escaped.push(octets, output, sink),
            Piece::Body(octets) => Spelling::Body.push(octets, output, sink),
        }
    }

    /// The rest of the text, if it begins with the piece.
    pub(crate) fn strip<'b>(&self, text: &'b [u8]) -> Option<&'b [u8]>
        ensures { Strips (piece_text self.now) text.now result }
    {
        match self {
            Piece::Text(front) => strip(front.as_bytes(), text),
            Piece::Octets(front) => strip(front, text),
            Piece::Number(number) => strip(Buffer::new().format(*number).as_bytes(), text),
            Piece::LowerCase(octets) => Spelling::LowerCase.strip(octets, text),
            Piece::Escaped(octets) => Spelling::Escaped.strip(octets, text),
            Piece::Body(octets) => Spelling::Body.strip(octets, text),
        }
    }
}
