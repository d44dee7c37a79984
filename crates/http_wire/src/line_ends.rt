//! Line ends in the octets received.
//! RFC 9112, section 2.2: a line ends with CR LF, or with LF alone.
ghost use Rattle.std.specs.Prelude.{◌≡◌};
ghost use Rattle.http_wire.specs.Heads.{line_ends};

use memchr::{memchr, memmem};

/// How many lines have ended.
pub(crate) fn count_line_ends(text: &[u8]) -> usize
    ensures { result ≡ line_ends text.now }
{
    text.iter().filter(|octet| **octet == b'\n').count()
}

/// Whether a line ends after the first `from` octets.
pub(crate) fn has_line_end(text: &[u8], from: usize) -> bool {
    match text.get(from..) {
        Some(new) => memchr(b'\n', new).is_some(),
        None => false,
    }
}

/// Whether an empty line after another one ends after the first `from` octets.
pub(crate) fn has_empty_line(text: &[u8], from: usize) -> bool {
    // The line end before it may have been seen.
    match text.get(from.saturating_sub(2)..) {
        Some(new) => memmem::find(new, b"\n\n").is_some() || memmem::find(new, b"\n\r\n").is_some(),
        None => false,
    }
}

/// Whether the text begins with an empty line.
pub(crate) fn begins_with_line_end(text: &[u8]) -> bool {
    matches!(text, [b'\n', ..] | [b'\r', b'\n', ..])
}
