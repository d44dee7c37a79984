//! Trailers of a body in chunks, which are read and dropped.
//! RFC 9112, section 7.1.2.
ghost use Rattle.std.specs.Prelude.{◌≡◌, ◌<◌, ◌≤◌, Bool, length};
ghost use Rattle.http_wire.specs.Heads.{line_ends};
ghost use Rattle.http_wire.specs.Decoding.{SectionTells, TrailersTell};

use crate::limits::{MAX_TRAILER_BYTES, MAX_TRAILERS};
use crate::line_ends::count_line_ends;
use crate::part_seen::PartSeen;
use httparse::spans::{EMPTY_HEADER_SPAN, parse_headers};
use httparse::{Error, Status};

/// What these octets of trailers are.
#[derive(Clone, Copy, PartialEq, Eq)]
enum TrailerSection {
    /// The whole trailers, of so many octets, and what follows.
    Whole(usize),
    /// A part of trailers that can go on.
    Open,
    /// More lines than trailers may have.
    Over,
    /// No trailers, whatever follows.
    Bad,
}

/// What the octets after the last chunk's line are. `last`: no look follows.
pub(crate) fn look_trailers(text: &[u8], last: bool) -> PartSeen
    ensures { TrailersTell text.now last result }
{
    if text.len() < MAX_TRAILER_BYTES {
        look_short(text, last)
    } else {
        look_full(text)
    }
}

fn look_short(text: &[u8], last: bool) -> PartSeen
    requires { length text.now < MAX_TRAILER_BYTES }
    ensures { TrailersTell text.now last result }
{
    match read_section(text) {
        TrailerSection::Whole(len) => PartSeen::Whole(text.len() - len),
        TrailerSection::Bad => PartSeen::Bad,
        TrailerSection::Over if last => PartSeen::Bad,
        TrailerSection::Over => PartSeen::More,
        TrailerSection::Open if last && count_line_ends(text) >= MAX_TRAILERS => PartSeen::Full,
        TrailerSection::Open => PartSeen::More,
    }
}

fn look_full(text: &[u8]) -> PartSeen
    requires { MAX_TRAILER_BYTES ≤ length text.now }
    ensures { (last : Bool) → TrailersTell text.now last result }
{
    match read_section(&text[..MAX_TRAILER_BYTES]) {
        TrailerSection::Whole(len) => PartSeen::Whole(text.len() - len),
        TrailerSection::Open | TrailerSection::Over | TrailerSection::Bad => PartSeen::Bad,
    }
}

// *( field-line line-end ) line-end.
fn read_section(text: &[u8]) -> TrailerSection
    requires { length text.now ≤ MAX_TRAILER_BYTES }
    ensures { SectionTells text.now result }
{
    let mut headers = [EMPTY_HEADER_SPAN; MAX_TRAILERS];
    match parse_headers(text, &mut headers) {
        Ok(Status::Complete((len, _))) => TrailerSection::Whole(len),
        Ok(Status::Partial) => TrailerSection::Open,
        Err(Error::TooManyHeaders) => TrailerSection::Over,
        Err(_) => TrailerSection::Bad,
    }
}
