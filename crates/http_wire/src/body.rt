//! Bodies, read by their framing.
//! RFC 9112, section 6.
ghost use Rattle.std.specs.Prelude.{◌≡◌, ◌≤◌, IsTrue, IfOk, length};
ghost use Rattle.http_wire.specs.Limits.{raw_limit};
ghost use Rattle.http_wire.specs.Reading.{EndsWith, ReadsBody, TakesTheRest};
ghost use Rattle.http_wire.specs.Response.{failures_after_reading};

use crate::body_decoder::BodyDecoder;
use crate::buffer::Buffer;
use crate::fault::WireFault;
use crate::framing::Framing;
use crate::limits::raw_limit;
use crate::part::{Reached, fill_until};
use counted_io::Source;
use std::alloc::Global;

/// A body as read.
#[derive(Drop)]
pub(crate) struct Body {
    pub octets: Vec<u8>,
    /// Whether the body has more octets.
    pub cut: bool,
    /// Nothing was received behind the body, and the input has not ended.
    pub alone: bool,
}

/// Reads the body that begins at `start`, at most `limit` octets of it. May hand out the buffer's memory
/// with them.
pub(crate) fn read_body<S: Source>(
    alloc: Global,
    source: &mut S,
    buffer: &mut Buffer,
    framing: Framing,
    start: usize,
    limit: usize,
) -> Result<Body, WireFault>
    requires start { start ≤ length buffer.old }
    requires within { length buffer.old ≤ raw_limit limit }
    ensures reads { ReadsBody framing limit start (S.left source.old) buffer.old result }
    ensures alone { IfOk result (λ body. IsTrue body.alone → EndsWith framing limit start
        (S.left source.old) (S.left source.new) buffer.old body) }
    ensures count { S.failures source.new ≡ failures_after_reading (S.failures source.old) result }
    ensures takes { TakesTheRest (raw_limit limit)
        buffer.old (S.left source.old) (S.left source.new) }
{
    let mut decoder = BodyDecoder::new(alloc, framing, start, limit);
    match fill_until(alloc, source, buffer, &mut decoder, raw_limit(limit))? {
        Reached::Parsed(body) => Ok(body),
        Reached::Ended => decoder.end(alloc, buffer),
        Reached::Past => decoder.past(alloc, buffer),
    }
}
