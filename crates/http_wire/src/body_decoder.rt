//! A body, decoded by its framing from all octets received.
//! RFC 9112, section 6.3.
ghost use Rattle.std.specs.Prelude.{◌≡◌, ◌≤◌, ◌<◌, ◌+◌, ◌++◌, ℕ, List, Bool, false, true, None, Ok, IfOk, IfErr, drop, length, take};
ghost use Rattle.http_wire.specs.Limits.{raw_limit};
ghost use Rattle.http_wire.specs.Reading.{TellsBody};
ghost use Rattle.http_wire.specs.Response.{failures_after_reading};
ghost use Rattle.http_wire.specs.Decoding.{KeepsBounds, Stands};
ghost use Rattle.http_wire.specs.Seeing.{BodyStands, IsGiven, IsOpen, IsShort, KeepsBody};
ghost use Rattle.http_wire.specs.Seeing.{LeavesBuffer, Refuses, SeesBody, SeesPrefix, framing_in};

use crate::body::Body;
use crate::buffer::Buffer;
use crate::chunked::ChunkDecoder;
use crate::fault::WireFault;
use crate::framing::Framing;
use crate::part::Part;
use crate::part_seen::PartSeen;
use std::alloc::Global;

/// A body by its framing, as far as it is decoded.
#[derive(Drop)]
enum FramedBody {
    /// A known number of octets.
    Counted(u64),
    /// Chunks.
    Chunked(ChunkDecoder),
    /// Up to the end of the input.
    ToEnd,
}

/// What the octets of a body are.
#[derive(Drop)]
pub(crate) enum BodySeen {
    /// A body, whatever follows.
    Given(Body),
    /// The most lines that trailers may have, without an end.
    Full,
    /// A body that can go on.
    More,
}

/// A decoder of one body. It is done after an answer.
#[derive(Drop)]
pub(crate) struct BodyDecoder {
    start: usize,
    limit: usize,
    form: FramedBody,
}

impl BodyDecoder {
    /// A decoder of the body that begins at `start`, which gives at most `limit` octets.
    pub(crate) fn new(alloc: Global, framing: Framing, start: usize, limit: usize) -> BodyDecoder
        ensures framing { framing_in result ≡ framing }
        ensures start { result.start ≡ start }
        ensures limit { result.limit ≡ limit }
        ensures stands { (bytes : List ℕ) → start ≤ length bytes → BodyStands result bytes }
    {
        let form = match framing {
            Framing::Counted(size) => FramedBody::Counted(size),
            Framing::Chunked => FramedBody::Chunked(ChunkDecoder::new(alloc, start, limit)),
            Framing::ToEnd => FramedBody::ToEnd,
        };
        BodyDecoder { start, limit, form }
    }

    /// The last look, at the end of the input.
    pub(crate) fn end(&mut self, alloc: Global, buffer: &mut Buffer) -> Result<Body, WireFault>
        requires stands { BodyStands self.old buffer.old }
        requires within { length buffer.old ≤ raw_limit self.old.limit }
        ensures tells { TellsBody (framing_in self.old) self.old.limit self.old.start
            buffer.old result }
        ensures ended { IfOk result (λ body. body.alone ≡ false) }
        ensures count { (failures : ℕ) → failures_after_reading failures result ≡ failures }
    {
        match self.see(alloc, buffer, true)? {
            BodySeen::Given(body) => Ok(not_alone(body)),
            BodySeen::Full => Err(WireFault::BadChunk),
            BodySeen::More => self.end_open(alloc, buffer),
        }
    }

    /// The last look, when more follows than a response may have.
    pub(crate) fn past(&mut self, alloc: Global, buffer: &mut Buffer) -> Result<Body, WireFault>
        requires stands { BodyStands self.old buffer.old }
        requires full { length buffer.old ≡ raw_limit self.old.limit }
        ensures tells { (more : List ℕ) → 0 < length more
            → TellsBody (framing_in self.old) self.old.limit self.old.start
            (buffer.old ++ more) result }
        ensures ended { IfOk result (λ body. body.alone ≡ false) }
        ensures count { (failures : ℕ) → failures_after_reading failures result ≡ failures }
    {
        match self.see(alloc, buffer, true)? {
            BodySeen::Given(body) => Ok(not_alone(body)),
            BodySeen::Full => Err(WireFault::TooMuch),
            BodySeen::More => Err(WireFault::TooMuch),
        }
    }

    fn see(&mut self, alloc: Global, buffer: &mut Buffer, last: bool) -> Result<BodySeen, WireFault>
        requires { BodyStands self.old buffer.old }
        ensures body { KeepsBody self.old self.new }
        ensures sees { IfOk result
            (SeesBody (framing_in self.old) self.old.limit (drop self.old.start buffer.old) last) }
        ensures more { result ≡ Ok BodySeen.More → BodyStands self.new buffer.old
            × IsShort (framing_in self.old) self.old.limit (drop self.old.start buffer.old) }
        ensures left { IfOk result (LeavesBuffer buffer.old buffer.new) }
        ensures err { IfErr result
            (Refuses (framing_in self.old) self.old.limit (drop self.old.start buffer.old)) }
    {
        match &mut self.form {
            FramedBody::Counted(size) => {
                Ok(see_counted(alloc, buffer, self.start, *size, self.limit))
            }
            FramedBody::Chunked(decoder) => see_chunked(alloc, decoder, buffer, last),
            FramedBody::ToEnd => Ok(see_prefix(alloc, buffer, self.start, self.limit)),
        }
    }

    fn end_open(&self, alloc: Global, buffer: &mut Buffer) -> Result<Body, WireFault>
        requires stands { BodyStands self.now buffer.old }
        requires within { length buffer.old ≤ raw_limit self.now.limit }
        requires open { IsOpen (framing_in self.now) self.now.limit
            (drop self.now.start buffer.old) }
        ensures tells { TellsBody (framing_in self.now) self.now.limit self.now.start
            buffer.old result }
        ensures ended { IfOk result (λ body. body.alone ≡ false) }
        ensures count { (failures : ℕ) → failures_after_reading failures result ≡ failures }
    {
        match self.form {
            FramedBody::ToEnd => {
                let len = buffer.octets().len() - self.start;
                Ok(Body {
                    octets: buffer.hand_out(alloc, self.start, len),
                    cut: false,
                    alone: false,
                })
            }
            _ => Err(WireFault::EarlyEnd),
        }
    }
}

impl Part for BodyDecoder {
    ghost use Rattle.std.specs.Prelude.{◌≤◌, ℕ, drop, length};
    ghost use Rattle.http_wire.specs.Seeing.{BodyStands, GivesBody, IsShort, Refuses, framing_in};
    ghost use Rattle.http_wire.specs.declared.framing.Framing.{Framing};

    type Parsed = Body;

    // The framing, where the body begins, and the limit.
    ghost Kept = { Framing × ℕ × ℕ };

    ghost kept = { λ decoder. (framing_in decoder, decoder.start, decoder.limit) };

    ghost stands = { BodyStands };

    ghost waits = { λ decoder bytes. BodyStands decoder bytes
        × IsShort (framing_in decoder) decoder.limit (drop decoder.start bytes) };

    ghost gives = { λ kept seen _ body. (kept.1 ≤ length seen)
        × GivesBody kept.0 kept.2 (drop kept.1 seen) body };

    ghost refuses = { λ kept seen fault. (kept.1 ≤ length seen)
        × Refuses kept.0 kept.2 (drop kept.1 seen) fault };

    fn look(&mut self, alloc: Global, buffer: &mut Buffer) -> Result<Option<Body>, WireFault> {
        match self.see(alloc, buffer, false)? {
            BodySeen::Given(body) => Ok(Some(body)),
            BodySeen::Full | BodySeen::More => Ok(None),
        }
    }
}

fn see_counted(
    alloc: Global,
    buffer: &mut Buffer,
    start: usize,
    size: u64,
    limit: usize,
) -> BodySeen
    requires { start ≤ length buffer.old }
    ensures sees { (last : Bool)
        → SeesBody (Framing.Counted size) limit (drop start buffer.old) last result }
    ensures left { LeavesBuffer buffer.old buffer.new result }
{
    if size > limit as u64 {
        return see_prefix(alloc, buffer, start, limit);
    }
    let come = buffer.octets().len() - start;
    if (come as u64) < size {
        return BodySeen::More;
    }
    if come as u64 == size {
        return give(alloc, buffer, start, size as usize, false, true);
    }
    give(alloc, buffer, start, size as usize, false, false)
}

// The first `limit` octets, if there is one more.
fn see_prefix(alloc: Global, buffer: &mut Buffer, start: usize, limit: usize) -> BodySeen
    requires { start ≤ length buffer.old }
    ensures sees { SeesPrefix limit (drop start buffer.old) result }
    ensures left { LeavesBuffer buffer.old buffer.new result }
{
    if buffer.octets().len() - start <= limit {
        return BodySeen::More;
    }
    give(alloc, buffer, start, limit, true, false)
}

fn see_chunked(
    alloc: Global,
    decoder: &mut ChunkDecoder,
    buffer: &Buffer,
    last: bool,
) -> Result<BodySeen, WireFault>
    requires { Stands decoder.old buffer.now }
    ensures bounds { KeepsBounds decoder.old decoder.new }
    ensures sees { IfOk result
        (SeesBody Framing.Chunked decoder.old.limit (drop decoder.old.start buffer.now) last) }
    ensures stands { result ≡ Ok BodySeen.More → Stands decoder.new buffer.now }
    ensures err { IfErr result
        (Refuses Framing.Chunked decoder.old.limit (drop decoder.old.start buffer.now)) }
{
    match decoder.look(buffer.octets(), last)? {
        PartSeen::Whole(behind) => Ok(BodySeen::Given(Body {
            octets: decoder.take_octets(alloc),
            cut: false,
            alone: behind == 0,
        })),
        PartSeen::Cut => Ok(BodySeen::Given(Body {
            octets: decoder.take_octets(alloc),
            cut: true,
            alone: false,
        })),
        PartSeen::Bad => Err(WireFault::BadChunk),
        PartSeen::Full => Ok(BodySeen::Full),
        PartSeen::More => Ok(BodySeen::More),
    }
}

fn give(
    alloc: Global,
    buffer: &mut Buffer,
    start: usize,
    len: usize,
    cut: bool,
    alone: bool,
) -> BodySeen
    requires { start + len ≤ length buffer.old }
    ensures { IsGiven (take len (drop start buffer.old)) cut alone result }
{
    BodySeen::Given(Body {
        octets: buffer.hand_out(alloc, start, len),
        cut,
        alone,
    })
}

// The body, after which the input has ended or is not read on.
fn not_alone(body: Body) -> Body
    ensures octets { result.octets ≡ body.octets }
    ensures cut { result.cut ≡ body.cut }
    ensures alone { result.alone ≡ false }
{
    Body {
        alone: false,
        ..body
    }
}
