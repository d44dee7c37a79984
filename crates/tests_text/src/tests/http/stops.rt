//! Texts up to the last octet needed: their reading takes no further octet.
//! RFC 9112, section 6.3.

use super::reads::{Row, Want};
use Want::{Cut, Fault, Whole};
use WireFault::{BadChunk, BadHead, BadLength, Coding, TooManyInterim};
use http_wire::WireFault;

/// Each text, up to the last octet needed.
pub(super) const STOPS: &[Row] = &[
    (
        "counted",
        "HTTP/1.1 200 OK|Content-Length: 5||hello",
        9,
        Whole(200, "hello"),
    ),
    (
        "counted, over the limit",
        "HTTP/1.1 200 OK|Content-Length: 5||hell",
        3,
        Cut(200, "hel"),
    ),
    (
        "nothing counted",
        "HTTP/1.1 200 OK|Content-Length: 0||",
        9,
        Whole(200, ""),
    ),
    (
        "chunked",
        "HTTP/1.1 200 OK|Transfer-Encoding: chunked||5|hello|0||",
        9,
        Whole(200, "hello"),
    ),
    (
        "chunked, over the limit",
        "HTTP/1.1 200 OK|Transfer-Encoding: chunked||5|hell",
        3,
        Cut(200, "hel"),
    ),
    (
        "trailers",
        "HTTP/1.1 200 OK|Transfer-Encoding: chunked||5|hello|0|A: b||",
        9,
        Whole(200, "hello"),
    ),
    (
        "trailers that end in line feeds alone",
        "HTTP/1.1 200 OK|Transfer-Encoding: chunked||0|A: b\n\n",
        9,
        Whole(200, ""),
    ),
    (
        "one length twice in a field",
        "HTTP/1.1 200 OK|Content-Length: 5, 5||hello",
        9,
        Whole(200, "hello"),
    ),
    (
        "an interim head, and no content",
        "HTTP/1.1 100 Continue||HTTP/1.1 204 No Content||",
        9,
        Whole(204, ""),
    ),
    (
        "a content coding of a 404",
        "HTTP/1.1 404 No|Content-Encoding: gzip|Content-Length: 1||x",
        9,
        Whole(404, "x"),
    ),
    (
        "bare line feeds",
        "\n\nHTTP/1.1 200\nContent-Length: 1\n\nx",
        9,
        Whole(200, "x"),
    ),
    (
        "to the end, over the limit",
        "HTTP/1.0 200 OK||hell",
        3,
        Cut(200, "hel"),
    ),
    (
        "no chunk size",
        "HTTP/1.1 200 OK|Transfer-Encoding: chunked||zz|",
        9,
        Fault(BadChunk),
    ),
    (
        "an extension with a line feed",
        "HTTP/1.1 200 OK|Transfer-Encoding: chunked||5;a\n",
        9,
        Fault(BadChunk),
    ),
    (
        "no end of a chunk",
        "HTTP/1.1 200 OK|Transfer-Encoding: chunked||5|hello?",
        9,
        Fault(BadChunk),
    ),
    (
        "two lengths",
        "HTTP/1.1 200 OK|Content-Length: 5|Content-Length: 6||",
        9,
        Fault(BadLength),
    ),
    (
        "a content coding",
        "HTTP/1.1 200 OK|Content-Encoding: gzip|Content-Length: 1||",
        9,
        Fault(Coding),
    ),
    (
        "switching protocols",
        "HTTP/1.1 101 Up||",
        9,
        Fault(BadHead),
    ),
    (
        "another protocol",
        "SSH-2.0-OpenSSH_9.6|",
        9,
        Fault(BadHead),
    ),
    ("a mail server", "220 mail|", 9, Fault(BadHead)),
    ("a bare line feed", "220 mail\n", 9, Fault(BadHead)),
    ("another version", "HTTP/2.0 200 OK|", 9, Fault(BadHead)),
    (
        "another protocol behind empty lines",
        "||\n220 mail|",
        9,
        Fault(BadHead),
    ),
    (
        "another protocol behind an interim head",
        "HTTP/1.1 100 Continue||220 mail|",
        9,
        Fault(BadHead),
    ),
    ("status 099", "HTTP/1.1 099 OK||", 9, Fault(BadHead)),
    (
        "nine interim heads",
        "HTTP/1.1 100 a||HTTP/1.1 102 a||HTTP/1.1 103 a||HTTP/1.1 199 a||\
HTTP/1.1 100 a||HTTP/1.1 100 a||HTTP/1.1 100 a||HTTP/1.1 100 a||\
HTTP/1.1 100 a||",
        9,
        Fault(TooManyInterim),
    ),
];
