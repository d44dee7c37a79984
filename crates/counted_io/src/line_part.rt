//! The part of a line in one buffer, from which `LineReader` builds lines.
ghost use Rattle.counted_io.specs.Lines.{IsPart};

use memchr::memchr;

/// The state of a line after a part was added.
#[derive(Clone, Copy, PartialEq, Eq)]
pub(crate) enum LinePart {
    /// More of the line, or its end, follows in the source.
    Open,
    /// The line is whole.
    Whole,
    /// The line is longer than the limit.
    TooLong,
}

/// How many octets come before the first line feed; without one, all.
pub fn part_len(octets: &[u8]) -> usize
    ensures { IsPart octets.now result }
{
    match memchr(b'\n', octets) {
        Some(place) => place,
        None => octets.len(),
    }
}
