//! Octets in a line: in lower case, or escaped.
//! Written and compared by the pieces of a line.
ghost use Rattle.std.specs.Prelude.{◌≡◌, flat_map};
ghost use Rattle.std.specs.List.{list_all};
ghost use Rattle.counted_io.specs.Output.{Pushes};
ghost use Rattle.line_text.specs.Escapes.{is_as_is, is_plain, plain_or_escape, spelled_octet};
ghost use Rattle.line_text.specs.Strips.{Strips};

use counted_io::{DeviceFault, Output, Sink};
use path_normal::is_unreserved;
use percent_encoding::percent_encode_byte;

/// How each octet of a piece is written.
#[derive(Clone, Copy)]
pub(crate) enum Spelling {
    /// Letters in lower case, other octets unchanged.
    LowerCase,
    /// Octets outside 33 to 126 escaped.
    Escaped,
    /// All but unreserved octets escaped.
    Body,
}

impl Spelling {
    pub(crate) fn push<W: Sink>(
        self,
        octets: &[u8],
        output: &mut Output,
        sink: &mut W,
    ) -> Result<(), DeviceFault>
        ensures { Pushes (W.written sink.old) (W.written sink.new)
            (W.failures sink.old) (W.failures sink.new) output.old output.new
            (flat_map (spelled_octet self) octets.now) result }
    {
        // Most values need no escape.
        if self.are_as_is(octets) {
            return output.push(sink, octets);
        }
        for octet in octets {
            self.push_octet(*octet, output, sink)?;
        }
        Ok(())
    }

    fn push_octet<W: Sink>(
        self,
        octet: u8,
        output: &mut Output,
        sink: &mut W,
    ) -> Result<(), DeviceFault>
        ensures { Pushes (W.written sink.old) (W.written sink.new)
            (W.failures sink.old) (W.failures sink.new) output.old output.new
            (spelled_octet self octet) result }
    {
        match self.plain(octet) {
            Some(plain) => output.push(sink, &[plain]),
            None => output.push(sink, percent_encode_byte(octet).as_bytes()),
        }
    }

    /// The rest of the text, if it begins with the octets.
    pub(crate) fn strip<'b>(self, octets: &[u8], text: &'b [u8]) -> Option<&'b [u8]>
        ensures { Strips (flat_map (spelled_octet self) octets.now) text.now result }
    {
        let mut rest = text;
        for octet in octets {
            match self.strip_octet(*octet, rest) {
                Some(behind) => rest = behind,
                None => return None,
            }
        }
        Some(rest)
    }

    fn strip_octet(self, octet: u8, text: &[u8]) -> Option<&[u8]>
        ensures { Strips (spelled_octet self octet) text.now result }
    {
        match self.plain(octet) {
            Some(plain) => strip(&[plain], text),
            None => strip(percent_encode_byte(octet).as_bytes(), text),
        }
    }

    // The octet written for this one, if not escaped.
    fn plain(self, octet: u8) -> Option<u8>
        ensures { spelled_octet self octet ≡ plain_or_escape octet result }
    {
        match self {
            Spelling::LowerCase => Some(octet.to_ascii_lowercase()),
            _ => self.is_as_is(octet).then_some(octet),
        }
    }

    fn are_as_is(self, octets: &[u8]) -> bool
        ensures { result ≡ list_all (is_as_is self) octets.now }
    {
        octets.iter().all(|octet| self.is_as_is(*octet))
    }

    fn is_as_is(self, octet: u8) -> bool
        ensures { result ≡ is_as_is self octet }
    {
        match self {
            Spelling::LowerCase => octet.to_ascii_lowercase() == octet,
            Spelling::Escaped => is_plain(octet),
            Spelling::Body => is_unreserved(octet),
        }
    }
}

/// The rest of the text, if it begins with the front.
pub(crate) fn strip<'b>(front: &[u8], text: &'b [u8]) -> Option<&'b [u8]>
    ensures { Strips front.now text.now result }
{
    if front.len() > text.len() {
        return None;
    }
    let (begin, behind) = text.split_at(front.len());
    if begin == front { Some(behind) } else { None }
}

fn is_plain(octet: u8) -> bool
    ensures { result ≡ is_plain octet }
{
    33 <= octet && octet <= 126
}
