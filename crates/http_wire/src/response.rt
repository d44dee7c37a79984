//! Responses, read from a source.
//! RFC 9112, sections 2 and 6.
ghost use Rattle.std.specs.Prelude.{◌≡◌, ◌+◌, ◌≤◌, [], length, IfErr, IfOk};
ghost use Rattle.http_wire.specs.Finding.{Fails, IsFound};
ghost use Rattle.http_wire.specs.Kept.{KeepsOf, kept_pairs};
ghost use Rattle.http_wire.specs.Limits.{AreLimits, raw_limit};
ghost use Rattle.http_wire.specs.Persistence.{EndsAs};
ghost use Rattle.http_wire.specs.Reading.{Grows, TakesAtMost};
ghost use Rattle.http_wire.specs.Response.{Finds, Tells, failures_after_reading};

use crate::body::read_body;
use crate::buffer::Buffer;
use crate::ending::ConnectionEnding;
use crate::fault::WireFault;
use crate::head::{FinalHead, HeadFinder};
use crate::kept_fields::{KeptField, kept_in};
use crate::limits::raw_limit;
use crate::part::{Reached, fill_until};
use crate::persistence::ending_after;
use counted_io::Source;
use std::alloc::{AllocError, Global};

/// A server's response.
#[derive(Drop)]
pub struct HttpReply {
    /// The status of the final head, 200 to 999.
    pub status: u16,
    /// The first Location field, if it is UTF-8.
    pub location: Option<String>,
    /// The seconds of the first `max-age` in Cache-Control, if any.
    pub max_age: Option<u64>,
    /// The octets of the final head, with its empty line and the empty lines before it, at most `MAX_HEAD`.
    pub head: Vec<u8>,
    /// The octets of the body, at most the limit.
    pub body: Vec<u8>,
    /// Whether the body is longer than the limit.
    pub cut: bool,
}

impl HttpReply {
    /// The fields of the final head that are for a client to which the page is passed on, in the head's
    /// order: Age, Cache-Control, Content-Disposition, Content-Encoding, Content-Language,
    /// Content-Location, Content-Type, Date, ETag, Expires, Last-Modified, Link, Location, Retry-After,
    /// Vary and X-Robots-Tag. They are looked for in `head` at each call, and allocated.
    pub fn kept_fields(&self, alloc: Global) -> Result<Vec<KeptField>, AllocError>
        ensures { IfOk result (λ kept. KeepsOf self.now.head.items (kept_pairs kept.items)) }
    {
        kept_in(alloc, self.head.as_slice())
    }
}

/// Reads one response, at most `limit` octets of its body, and of all its octets at most `MAX_RAW`, and as
/// many more as `limit` is over `USUAL_LIMIT`; a limit over `LARGEST_LIMIT` gives no more of these. Stops
/// reading once the response or its fault is certain; the last read may bring later octets. May wait for the
/// source. The octets are in one buffer of 16,384 octets, which doubles up to that; while it grows, old and
/// new may both be held. A counted body, or one to the end of the input, is handed out in that memory. One in
/// chunks allocates its octets again, at most `limit`, and the spare room of a growing list. The final head's
/// octets and the text of Location are allocated besides.
pub fn read_response<S: Source>(
    alloc: Global,
    source: &mut S,
    limit: usize,
) -> Result<HttpReply, WireFault>
    ensures tells { Tells (S.left source.old) limit result }
    ensures found { Finds (S.left source.old) limit result }
    ensures limits { AreLimits }
    ensures count { S.failures source.new ≡ failures_after_reading (S.failures source.old) result }
    ensures takes { TakesAtMost (raw_limit limit + 1) (S.left source.old) (S.left source.new) }
{
    read_response_with(alloc, source, limit, &mut ConnectionEnding::Close)
}

/// Like `read_response`, and tells what becomes of the connection: `KeepAlive` if another request may follow.
/// Then the response was read to its end and no octet behind it. It is of HTTP/1.1, no option of Connection is
/// `close`, and its body ended by itself and is whole. So after a fault the connection closes.
pub fn read_response_with<S: Source>(
    alloc: Global,
    source: &mut S,
    limit: usize,
    ending: &mut ConnectionEnding,
) -> Result<HttpReply, WireFault>
    ensures tells { Tells (S.left source.old) limit result }
    ensures found { Finds (S.left source.old) limit result }
    ensures ends { EndsAs (S.left source.old) (S.left source.new) limit result ending.new }
    ensures count { S.failures source.new ≡ failures_after_reading (S.failures source.old) result }
    ensures takes { TakesAtMost (raw_limit limit + 1) (S.left source.old) (S.left source.new) }
{
    read_reply(alloc, source, limit, ending)
}

// `read_response_with` without the contract that a response is found.
fn read_reply<S: Source>(
    alloc: Global,
    source: &mut S,
    limit: usize,
    ending: &mut ConnectionEnding,
) -> Result<HttpReply, WireFault>
    ensures tells { Tells (S.left source.old) limit result }
    ensures ends { EndsAs (S.left source.old) (S.left source.new) limit result ending.new }
    ensures count { S.failures source.new ≡ failures_after_reading (S.failures source.old) result }
    ensures takes { TakesAtMost (raw_limit limit + 1) (S.left source.old) (S.left source.new) }
{
    *ending = ConnectionEnding::Close;
    let mut buffer = Buffer::new(alloc);
    let head = read_final(alloc, source, &mut buffer, limit)?;
    let body = read_body(alloc, source, &mut buffer, head.framing, head.end, limit)?;
    *ending = ending_after(&head, &body);
    Ok(HttpReply {
        status: head.status,
        location: head.location,
        max_age: head.max_age,
        head: head.octets,
        body: body.octets,
        cut: body.cut,
    })
}

// Reads up to the final head of a response of whose body at most `limit` octets are read.
fn read_final<S: Source>(
    alloc: Global,
    source: &mut S,
    buffer: &mut Buffer,
    limit: usize,
) -> Result<FinalHead, WireFault>
    requires { buffer.old ≡ [] }
    ensures found { IfOk result (λ head. IsFound buffer.new head
        × (length buffer.new ≤ raw_limit limit)) }
    ensures grows { IfOk result (λ _. Grows (S.left source.old) (S.left source.new) [] buffer.new) }
    ensures fails { IfErr result (Fails (S.left source.old) []) }
    ensures count { S.failures source.new ≡ failures_after_reading (S.failures source.old) result }
    ensures takes { TakesAtMost (raw_limit limit + 1) (S.left source.old) (S.left source.new) }
{
    let mut finder = HeadFinder::new();
    match fill_until(alloc, source, buffer, &mut finder, raw_limit(limit))? {
        Reached::Parsed(head) => Ok(head),
        Reached::Ended => finder.end(alloc, buffer.octets()),
        // More octets than eight interim heads and a final one may have.
        Reached::Past => Err(WireFault::TooMuch),
    }
}
