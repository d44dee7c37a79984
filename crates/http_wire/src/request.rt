//! Requests for pages.
//! RFC 9112, section 3.
ghost use Rattle.std.specs.Prelude.{◌≡◌, ◌≤◌, ◌++◌, All, length, take, Err, IfSome, OnOk, OnErr};
ghost use Rattle.std.specs.Io.KnownBytes.{Appends};
ghost use Rattle.counted_io.specs.Device.{failures_after, AppendsPrefix};
ghost use Rattle.path_normal.specs.PageText.{host_of, target_of};
ghost use Rattle.http_wire.specs.Request.{closing_value, joined_pieces, line_after, request, request_with};

use crate::ending::ConnectionEnding;
use crate::fault::WireFault;
use crate::forwarded_fields::{FieldValue, ForwardedFields};
use counted_io::{DeviceFault, Sink, write_all};
use path_normal::PageUrl;

/// How many octets of a request are gathered for one write: enough for the longest page, and as many again
/// for the agent.
const REQUEST_ROOM: usize = 8_192;

/// The octets of a field's line: what begins it, its value, and its end; none without a value.
#[derive(Clone, Copy)]
struct FieldLine<'a> {
    begin: &'a [u8],
    value: &'a [u8],
    end: &'a [u8],
}

/// Writes a GET request for the page, after which the connection closes. `agent` is the value of
/// User-Agent. Up to 8,192 octets are one write, if the device takes it whole. Takes no memory.
pub fn write_get<W: Sink>(writer: &mut W, url: &PageUrl, agent: &str) -> Result<(), WireFault>
    // No octet of the agent ends its line.
    requires { All (λ octet. (32 ≤ octet) × (octet ≤ 126)) agent.now }
    ensures ok { OnOk result (Appends (W.written writer.old) (W.written writer.new)
        (request (target_of url.now) (host_of url.now) agent.now)) }
    ensures err { OnErr result (AppendsPrefix (W.written writer.old) (W.written writer.new)
        (request (target_of url.now) (host_of url.now) agent.now)) }
    ensures fault { OnErr result (result ≡ Err WireFault.Device) }
    ensures count { W.failures writer.new ≡ failures_after (W.failures writer.old) result }
{
    write_get_with(
        writer,
        url,
        agent,
        &ForwardedFields::none(),
        ConnectionEnding::Close,
    )
}

/// Like `write_get`, with these fields between the lines of Accept-Encoding and Connection. Without the last
/// line if the connection is to be kept alive.
pub fn write_get_with<W: Sink>(
    writer: &mut W,
    url: &PageUrl,
    agent: &str,
    fields: &ForwardedFields<'_>,
    ending: ConnectionEnding,
) -> Result<(), WireFault>
    requires { All (λ octet. (32 ≤ octet) × (octet ≤ 126)) agent.now }
    ensures ok { OnOk result (Appends (W.written writer.old) (W.written writer.new)
        (request_with ending fields.now (target_of url.now) (host_of url.now) agent.now)) }
    ensures err { OnErr result (AppendsPrefix (W.written writer.old) (W.written writer.new)
        (request_with ending fields.now (target_of url.now) (host_of url.now) agent.now)) }
    ensures fault { OnErr result (result ≡ Err WireFault.Device) }
    ensures count { W.failures writer.new ≡ failures_after (W.failures writer.old) result }
{
    let tags = line_from(b"If-None-Match: ", &fields.if_none_match);
    let since = line_from(b"If-Modified-Since: ", &fields.if_modified_since);
    let types = line_from(b"Accept: ", &fields.accept);
    let languages = line_from(b"Accept-Language: ", &fields.accept_language);
    let closing = closing_from(b"Connection: ", ending);
    let pieces: [&[u8]; 23] = [
        b"GET ",
        url.target().as_bytes(),
        b" HTTP/1.1\r\nHost: ",
        url.host().as_bytes(),
        b"\r\nUser-Agent: ",
        agent.as_bytes(),
        b"\r\nAccept: */*\r\nAccept-Encoding: identity\r\n",
        tags.begin,
        tags.value,
        tags.end,
        since.begin,
        since.value,
        since.end,
        types.begin,
        types.value,
        types.end,
        languages.begin,
        languages.value,
        languages.end,
        closing.begin,
        closing.value,
        closing.end,
        b"\r\n",
    ];
    write_gathered(writer, &pieces)
}

// The line of Connection, if there is one.
fn closing_from<'a>(begin: &'a [u8], ending: ConnectionEnding) -> FieldLine<'a>
    ensures { result.begin.now ++ (result.value.now ++ result.end.now)
        ≡ line_after begin.now (closing_value ending) }
{
    match ending {
        ConnectionEnding::Close => FieldLine {
            begin,
            value: b"close",
            end: b"\r\n",
        },
        ConnectionEnding::KeepAlive => line_from(begin, &None),
    }
}

fn line_from<'a>(begin: &'a [u8], value: &Option<FieldValue<'a>>) -> FieldLine<'a>
    ensures { result.begin.now ++ (result.value.now ++ result.end.now)
        ≡ line_after begin.now value.now }
{
    match value {
        Some(value) => FieldLine {
            begin,
            value: value.octets(),
            end: b"\r\n",
        },
        None => FieldLine {
            begin: b"",
            value: b"",
            end: b"",
        },
    }
}

fn write_gathered<W: Sink>(writer: &mut W, pieces: &[&[u8]]) -> Result<(), WireFault>
    ensures ok { OnOk result (Appends (W.written writer.old) (W.written writer.new)
        (joined_pieces pieces.now)) }
    ensures err { OnErr result (AppendsPrefix (W.written writer.old) (W.written writer.new)
        (joined_pieces pieces.now)) }
    ensures fault { OnErr result (result ≡ Err WireFault.Device) }
    ensures count { W.failures writer.new ≡ failures_after (W.failures writer.old) result }
{
    let mut room = [0; REQUEST_ROOM];
    match gather(pieces, &mut room) {
        Some(len) => write_all(writer, &room[..len])?,
        None => write_pieces(writer, pieces)?,
    }
    Ok(())
}

// Copies the pieces into the room, and returns their length. None if they don't fit.
fn gather(pieces: &[&[u8]], room: &mut [u8]) -> Option<usize>
    ensures { IfSome result (λ len. (take len room.new ≡ joined_pieces pieces.now)
        × (len ≤ length room.new)) }
{
    let mut end = 0;
    for piece in pieces {
        let next = end + piece.len();
        if next > room.len() {
            return None;
        }
        room[end..next].copy_from_slice(piece);
        end = next;
    }
    Some(end)
}

fn write_pieces<W: Sink>(writer: &mut W, pieces: &[&[u8]]) -> Result<(), DeviceFault>
    ensures ok { OnOk result (Appends (W.written writer.old) (W.written writer.new)
        (joined_pieces pieces.now)) }
    ensures err { OnErr result (AppendsPrefix (W.written writer.old) (W.written writer.new)
        (joined_pieces pieces.now)) }
    ensures count { W.failures writer.new ≡ failures_after (W.failures writer.old) result }
{
    for piece in pieces {
        write_all(writer, piece)?;
    }
    Ok(())
}
