//! What becomes of the connection after each response, and the requests that ask for it.
//! RFC 9112, sections 6.3, 9.3 and 9.6. In a row's text `|` stands for CR LF.
ghost use Rattle.std.specs.Prelude.{◌<◌};

use super::reads::octets_of;
use crate::tests::demand;
use ConnectionEnding::{Close, KeepAlive};
use counted_io::FailAt;
use http_wire::{ConnectionEnding, read_response_with};
use std::alloc::{AllocError, Global};
use std::test::Fail;

/// The limit of each body.
const LIMIT: usize = 9;

/// A name, a text, and what becomes of the connection.
type Row = (&'static str, &'static str, ConnectionEnding);

// At each number of octets a read.
const ROWS: &[Row] = &[
    (
        "a length",
        "HTTP/1.1 200 OK|Content-Length: 5||hello",
        KeepAlive,
    ),
    (
        "a length of nothing",
        "HTTP/1.1 404 None|Content-Length: 0||",
        KeepAlive,
    ),
    (
        "a body of the limit",
        "HTTP/1.1 200 OK|Content-Length: 9||ninelines",
        KeepAlive,
    ),
    (
        "one octet over the limit",
        "HTTP/1.1 200 OK|Content-Length: 10||tenletters",
        Close,
    ),
    (
        "chunks",
        "HTTP/1.1 200 OK|Transfer-Encoding: chunked||5|hello|0||",
        KeepAlive,
    ),
    (
        "no chunk",
        "HTTP/1.1 200 OK|Transfer-Encoding: chunked||0||",
        KeepAlive,
    ),
    (
        "chunks and trailers",
        "HTTP/1.1 200 OK|Transfer-Encoding: chunked||5|hello|0|A: b|C: d||",
        KeepAlive,
    ),
    (
        "chunks over the limit",
        "HTTP/1.1 200 OK|Transfer-Encoding: chunked||a|tenletters|0||",
        Close,
    ),
    (
        "chunks without their end",
        "HTTP/1.1 200 OK|Transfer-Encoding: chunked||5|hello|",
        Close,
    ),
    (
        "trailers without their end",
        "HTTP/1.1 200 OK|Transfer-Encoding: chunked||5|hello|0|A: b|",
        Close,
    ),
    (
        "no chunk line",
        "HTTP/1.1 200 OK|Transfer-Encoding: chunked||zz|hello|0||",
        Close,
    ),
    ("204", "HTTP/1.1 204 None||", KeepAlive),
    (
        "304 with a length",
        "HTTP/1.1 304 Same|Content-Length: 5||",
        KeepAlive,
    ),
    ("to the end", "HTTP/1.1 200 OK||hello", Close),
    ("to the end, nothing", "HTTP/1.1 200 OK||", Close),
    (
        "close",
        "HTTP/1.1 200 OK|Connection: close|Content-Length: 5||hello",
        Close,
    ),
    (
        "close in any case",
        "HTTP/1.1 200 OK|CONNECTION: Close|Content-Length: 5||hello",
        Close,
    ),
    (
        "close among others",
        "HTTP/1.1 200 OK|Connection: x, close , y|Content-Length: 5||hello",
        Close,
    ),
    (
        "close in a second field",
        "HTTP/1.1 200 OK|Connection: x|Connection: close|Content-Length: 5||hello",
        Close,
    ),
    (
        "close of 204",
        "HTTP/1.1 204 None|Connection: close||",
        Close,
    ),
    (
        "keep-alive",
        "HTTP/1.1 200 OK|Connection: keep-alive|Content-Length: 5||hello",
        KeepAlive,
    ),
    (
        "closed is another word",
        "HTTP/1.1 200 OK|Connection: closed|Content-Length: 5||hello",
        KeepAlive,
    ),
    (
        "close of another field",
        "HTTP/1.1 200 OK|Proxy-Connection: close|Content-Length: 5||hello",
        KeepAlive,
    ),
    (
        "HTTP/1.0",
        "HTTP/1.0 200 OK|Content-Length: 5||hello",
        Close,
    ),
    (
        "HTTP/1.0 that would go on",
        "HTTP/1.0 200 OK|Connection: keep-alive|Content-Length: 5||hello",
        Close,
    ),
    (
        "an interim head of HTTP/1.0",
        "HTTP/1.0 100 On||HTTP/1.1 200 OK|Content-Length: 5||hello",
        KeepAlive,
    ),
    (
        "a close of an interim head",
        "HTTP/1.1 100 On|Connection: close||HTTP/1.1 204 None||",
        KeepAlive,
    ),
    (
        "a close behind an interim head",
        "HTTP/1.1 100 On||HTTP/1.1 204 None|Connection: close||",
        Close,
    ),
    (
        "a body that ends early",
        "HTTP/1.1 200 OK|Content-Length: 5||hell",
        Close,
    ),
    (
        "a coding",
        "HTTP/1.1 200 OK|Content-Encoding: gzip|Content-Length: 1||x",
        Close,
    ),
    ("no head", "HTTP/1.1 2x0 OK|Content-Length: 5||hello", Close),
    ("nothing", "", Close),
];

// All octets in one read.
const BEHIND: &[Row] = &[
    (
        "nothing behind a length",
        "HTTP/1.1 200 OK|Content-Length: 5||hello",
        KeepAlive,
    ),
    (
        "an octet behind a length",
        "HTTP/1.1 200 OK|Content-Length: 5||hello!",
        Close,
    ),
    (
        "a line end behind a length",
        "HTTP/1.1 200 OK|Content-Length: 5||hello|",
        Close,
    ),
    (
        "a response behind a length",
        "HTTP/1.1 200 OK|Content-Length: 5||helloHTTP/1.1 204 None||",
        Close,
    ),
    ("an octet behind 204", "HTTP/1.1 204 None||!", Close),
    (
        "an octet behind 304",
        "HTTP/1.1 304 Same|Content-Length: 1||!",
        Close,
    ),
    (
        "an octet behind chunks",
        "HTTP/1.1 200 OK|Transfer-Encoding: chunked||5|hello|0||!",
        Close,
    ),
    (
        "a line end behind chunks",
        "HTTP/1.1 200 OK|Transfer-Encoding: chunked||5|hello|0|||",
        Close,
    ),
    (
        "an octet behind trailers",
        "HTTP/1.1 200 OK|Transfer-Encoding: chunked||0|A: b||!",
        Close,
    ),
];

#[test]
fn keeps_a_connection_after_a_whole_response(rt: HostRuntime) -> Result<(), Fail> {
    for (name, text, want) in ROWS {
        let octets = octets_of(rt.alloc(), "", text)?;
        demand(
            ends_at_each_step(rt.alloc(), octets.as_slice(), *want)?,
            name,
        )?;
    }
    Ok(())
}

#[test]
fn keeps_no_connection_with_octets_behind_a_response(rt: HostRuntime) -> Result<(), Fail> {
    for (name, text, want) in BEHIND {
        let octets = octets_of(rt.alloc(), "", text)?;
        demand(
            ending_of(rt.alloc(), octets.as_slice(), 65_536)? == *want,
            name,
        )?;
    }
    Ok(())
}

fn ends_at_each_step(
    alloc: Global,
    octets: &[u8],
    want: ConnectionEnding,
) -> Result<bool, AllocError> {
    for step in 0..octets.len() {
        if ending_of(alloc, octets, step.saturating_add(1))? != want {
            return Ok(false);
        }
    }
    Ok(true)
}

// What becomes of the connection at so many octets a read, whatever was told before.
fn ending_of(alloc: Global, octets: &[u8], step: usize) -> Result<ConnectionEnding, AllocError>
    requires { 0 < step }
{
    let mut source = FailAt::new(octets.to_vec(alloc)?, step, None);
    let mut ending = KeepAlive;
    let _ = read_response_with(alloc, &mut source, LIMIT, &mut ending);
    Ok(ending)
}
