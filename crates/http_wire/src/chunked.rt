//! Bodies in chunks, decoded from all octets received.
//! RFC 9112, section 7.1.
ghost use Rattle.std.specs.Prelude.{◌≡◌, ◌+◌, ◌-◌, ◌<◌, ◌≤◌, ℕ, List, IfOk, drop, length, vec_len};
ghost use Rattle.http_wire.specs.Decoding.{Decodes, EndTells, KeepsBounds, Stands, StandsWhole, DecodesOrMoves};

use crate::limits::MAX_TRAILER_BYTES;
use crate::line_ends::{begins_with_line_end, has_empty_line, has_line_end};
use crate::part_seen::PartSeen;
use crate::trailers::look_trailers;
use httparse::{Status, parse_chunk_size};
use std::alloc::{AllocError, Global};
use std::mem;

/// The state of the decoding.
#[derive(Clone, Copy, PartialEq, Eq)]
enum ChunkState {
    /// Before a chunk line.
    Line,
    /// After a chunk line, with this many octets of the chunk to come.
    Octets(u64),
    /// After the last chunk line.
    Trailers,
}

/// What follows the octets of a chunk.
#[derive(Clone, Copy, PartialEq, Eq)]
enum ChunkEnd {
    /// CR LF.
    Whole,
    /// A prefix of CR LF that can go on.
    Open,
    /// Something else, whatever follows.
    Bad,
}

/// A body in chunks, *chunk last-chunk trailer-section CRLF, as far as it is decoded. It is done after an
/// answer other than `More`.
#[derive(Drop)]
pub(crate) struct ChunkDecoder {
    limit: usize,
    start: usize,
    octets: Vec<u8>,
    place: ChunkState,
    at: usize,
    // Up to where a line end was searched for. Only saves time; no answer depends on it.
    scanned: usize,
}

impl ChunkDecoder {
    /// A decoder of the body that begins at `start`, which gives at most `limit` octets.
    pub(crate) fn new(alloc: Global, start: usize, limit: usize) -> ChunkDecoder
        ensures stands { (bytes : List ℕ) → start ≤ length bytes → Stands result bytes }
        ensures start { result.start ≡ start }
        ensures limit { result.limit ≡ limit }
    {
        ChunkDecoder {
            limit,
            start,
            octets: Vec::new(alloc),
            place: ChunkState::Line,
            at: start,
            scanned: start,
        }
    }

    /// Looks at the octets received. `last`: no look follows, so they are parsed anyway.
    pub(crate) fn look(&mut self, bytes: &[u8], last: bool) -> Result<PartSeen, AllocError>
        requires stands { Stands self.old bytes.now }
        ensures bounds { KeepsBounds self.old self.new }
        ensures decodes { IfOk result (Decodes bytes.now last self.new) }
    {
        loop {
            if let Some(look) = self.step(bytes, last)? {
                return Ok(look);
            }
        }
    }

    /// Hands out the body's octets.
    pub(crate) fn take_octets(&mut self, alloc: Global) -> Vec<u8>
        ensures bounds { KeepsBounds self.old self.new }
        ensures octets { result ≡ self.old.octets }
    {
        mem::replace(&mut self.octets, Vec::new(alloc))
    }

    fn step(&mut self, bytes: &[u8], last: bool) -> Result<Option<PartSeen>, AllocError>
        requires stands { Stands self.old bytes.now }
        ensures bounds { KeepsBounds self.old self.new }
        ensures steps { IfOk result (DecodesOrMoves bytes.now last self.old.at self.new) }
    {
        match self.place {
            ChunkState::Line => Ok(self.look_line(bytes, last)),
            ChunkState::Octets(size) => self.look_octets(size, bytes, last),
            ChunkState::Trailers => Ok(Some(self.look_end(bytes, last))),
        }
    }

    // chunk-size [ chunk-ext ] CRLF, of a chunk or of the last one.
    fn look_line(&mut self, bytes: &[u8], last: bool) -> Option<PartSeen>
        requires stands { Stands self.old bytes.now }
        requires place { self.old.place ≡ ChunkState.Line }
        ensures bounds { KeepsBounds self.old self.new }
        ensures steps { DecodesOrMoves bytes.now last self.old.at self.new result }
    {
        // A line that comes octet by octet is parsed once.
        if !last && !has_line_end(bytes, self.scanned) {
            self.scanned = bytes.len();
            return Some(PartSeen::More);
        }
        match parse_chunk_size(&bytes[self.at..]) {
            Ok(Status::Complete((len, 0))) => {
                self.pass(len, ChunkState::Trailers);
                None
            }
            Ok(Status::Complete((len, size))) => {
                self.pass(len, ChunkState::Octets(size));
                None
            }
            Ok(Status::Partial) => Some(PartSeen::More),
            Err(_) => Some(PartSeen::Bad),
        }
    }

    fn look_octets(
        &mut self,
        size: u64,
        bytes: &[u8],
        last: bool,
    ) -> Result<Option<PartSeen>, AllocError>
        requires stands { Stands self.old bytes.now }
        requires place { self.old.place ≡ ChunkState.Octets size }
        ensures bounds { KeepsBounds self.old self.new }
        ensures steps { IfOk result (DecodesOrMoves bytes.now last self.old.at self.new) }
    {
        let room = self.limit - self.octets.len();
        if size > room as u64 {
            return self.look_past(room, bytes, last);
        }
        self.look_chunk(size as usize, bytes, last)
    }

    // chunk-data with more octets than the limit has room for.
    fn look_past(
        &mut self,
        room: usize,
        bytes: &[u8],
        last: bool,
    ) -> Result<Option<PartSeen>, AllocError>
        requires stands { Stands self.old bytes.now }
        requires past { (size : ℕ) × (self.old.place ≡ ChunkState.Octets size) × (room < size) }
        requires room { room + vec_len self.old.octets ≡ self.old.limit }
        ensures bounds { KeepsBounds self.old self.new }
        ensures steps { IfOk result (DecodesOrMoves bytes.now last self.old.at self.new) }
    {
        let text = &bytes[self.at..];
        if text.len() <= room {
            return Ok(Some(PartSeen::More));
        }
        self.octets.extend_from_slice(&text[..room])?;
        Ok(Some(PartSeen::Cut))
    }

    // chunk-data CRLF, if the limit has room for the octets.
    fn look_chunk(
        &mut self,
        size: usize,
        bytes: &[u8],
        last: bool,
    ) -> Result<Option<PartSeen>, AllocError>
        requires stands { Stands self.old bytes.now }
        requires place { self.old.place ≡ ChunkState.Octets size }
        requires fits { size + vec_len self.old.octets ≤ self.old.limit }
        ensures bounds { KeepsBounds self.old self.new }
        ensures steps { IfOk result (DecodesOrMoves bytes.now last self.old.at self.new) }
    {
        let text = &bytes[self.at..];
        if text.len() < size {
            return Ok(Some(PartSeen::More));
        }
        match chunk_end(&text[size..]) {
            ChunkEnd::Whole => {
                self.take_chunk(size, bytes)?;
                Ok(None)
            }
            ChunkEnd::Open => Ok(Some(PartSeen::More)),
            ChunkEnd::Bad => Ok(Some(PartSeen::Bad)),
        }
    }

    fn take_chunk(&mut self, size: usize, bytes: &[u8]) -> Result<(), AllocError>
        requires stands { Stands self.old bytes.now }
        requires place { self.old.place ≡ ChunkState.Octets size }
        requires fits { size + vec_len self.old.octets ≤ self.old.limit }
        requires whole { StandsWhole size (drop self.old.at bytes.now) }
        ensures bounds { KeepsBounds self.old self.new }
        ensures moves { IfOk result (λ _. (self.old.at < self.new.at) × Stands self.new bytes.now) }
    {
        let text = &bytes[self.at..];
        self.octets.extend_from_slice(&text[..size])?;
        self.pass(size + 2, ChunkState::Line);
        Ok(())
    }

    // trailer-section CRLF.
    fn look_end(&mut self, bytes: &[u8], last: bool) -> PartSeen
        requires stands { Stands self.old bytes.now }
        requires place { self.old.place ≡ ChunkState.Trailers }
        ensures bounds { KeepsBounds self.old self.new }
        ensures decodes { Decodes bytes.now last self.new result }
    {
        let text = &bytes[self.at..];
        let open = !last && text.len() < MAX_TRAILER_BYTES;
        let seen = self.scanned.saturating_sub(self.at);
        if open && !begins_with_line_end(text) && !has_empty_line(text, seen) {
            self.scanned = self.scanned.max(bytes.len());
            return PartSeen::More;
        }
        // After an empty line, more is needed only if too many lines precede it; another empty line won't
        // help.
        self.scanned = self.at.saturating_add(MAX_TRAILER_BYTES);
        look_trailers(text, last)
    }

    fn pass(&mut self, len: usize, place: ChunkState)
        requires { self.old.at + len ≤ usize.MAX }
        ensures bounds { KeepsBounds self.old self.new }
        ensures octets { self.new.octets ≡ self.old.octets }
        ensures place { self.new.place ≡ place }
        ensures at { self.new.at ≡ self.old.at + len }
    {
        self.at += len;
        self.scanned = self.at;
        self.place = place;
    }
}

// CRLF.
fn chunk_end(text: &[u8]) -> ChunkEnd
    ensures { EndTells text.now result }
{
    match text {
        [b'\r', b'\n', ..] => ChunkEnd::Whole,
        [] | [b'\r'] => ChunkEnd::Open,
        _ => ChunkEnd::Bad,
    }
}
