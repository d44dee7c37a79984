//! Responses and their readings, as in docs/FORMATS.md.
//! RFC 9112, sections 2.2, 6.3 and 7.1; RFC 9110, sections 8.6 and 15.2.

use super::reads::{Row, Want};
use Want::{Cut, Fault, Whole};
use WireFault::{BadChunk, BadHead, BadLength, Coding, EarlyEnd, TooManyInterim};
use http_wire::WireFault;

pub(super) const COUNTED: &str = "HTTP/1.1 200 OK|Content-Length: 5||hello";

pub(super) const CHUNKED: &str = "HTTP/1.1 200 OK|Transfer-Encoding: chunked||5|hello|0||";

pub(super) const NO_CONTENT: &str = "HTTP/1.1 100 Continue||HTTP/1.1 204 No Content||";

/// Whole responses.
pub(super) const ROWS: &[Row] = &[
    ("counted", COUNTED, 9, Whole(200, "hello")),
    ("counted, over the limit", COUNTED, 3, Cut(200, "hel")),
    (
        "counted, too short",
        "HTTP/1.1 200 OK|Content-Length: 5||hel",
        9,
        Fault(EarlyEnd),
    ),
    ("chunked", CHUNKED, 9, Whole(200, "hello")),
    (
        "no chunk size",
        "HTTP/1.1 200 OK|Transfer-Encoding: chunked||zz|hello|0||",
        9,
        Fault(BadChunk),
    ),
    (
        "one length twice in a field",
        "HTTP/1.1 200 OK|Content-Length: 5, 5||hello",
        9,
        Whole(200, "hello"),
    ),
    (
        "two lengths",
        "HTTP/1.1 200 OK|Content-Length: 5|Content-Length: 6||hello",
        9,
        Fault(BadLength),
    ),
    (
        "to the end",
        "HTTP/1.0 200 OK||hello",
        9,
        Whole(200, "hello"),
    ),
    (
        "an interim head, and no content",
        NO_CONTENT,
        9,
        Whole(204, ""),
    ),
    (
        "a content coding",
        "HTTP/1.1 200 OK|Content-Encoding: gzip|Content-Length: 1||x",
        9,
        Fault(Coding),
    ),
    (
        "a content coding of a 404",
        "HTTP/1.1 404 No|Content-Encoding: gzip|Content-Length: 1||x",
        9,
        Whole(404, "x"),
    ),
    (
        "switching protocols",
        "HTTP/1.1 101 Up||",
        9,
        Fault(BadHead),
    ),
    ("nothing", "", 9, Fault(EarlyEnd)),
    ("at the limit", COUNTED, 5, Whole(200, "hello")),
    ("limit 0", COUNTED, 0, Cut(200, "")),
    ("limit 0 of an empty body", NO_CONTENT, 0, Whole(204, "")),
    ("chunked, over the limit", CHUNKED, 3, Cut(200, "hel")),
    (
        "nothing is looked for behind the limit",
        "HTTP/1.1 200 OK|Transfer-Encoding: chunked||5|hello?",
        4,
        Cut(200, "hell"),
    ),
    (
        "to the end, over the limit",
        "HTTP/1.0 200 OK||hello",
        3,
        Cut(200, "hel"),
    ),
    (
        "octets behind the body",
        "HTTP/1.1 200 OK|Content-Length: 5||hello?",
        9,
        Whole(200, "hello"),
    ),
    (
        "greatest length",
        "HTTP/1.1 200 OK|Content-Length: 18446744073709551615||hello",
        9,
        Fault(EarlyEnd),
    ),
    (
        "greatest length, over the limit",
        "HTTP/1.1 200 OK|Content-Length: 18446744073709551615||hello",
        3,
        Cut(200, "hel"),
    ),
    (
        "one more than the greatest length",
        "HTTP/1.1 200 OK|Content-Length: 18446744073709551616||hello",
        3,
        Fault(BadLength),
    ),
    (
        "leading zeros of a length",
        "HTTP/1.1 200 OK|Content-Length: 0005||hello",
        9,
        Whole(200, "hello"),
    ),
    (
        "a length with a sign",
        "HTTP/1.1 200 OK|Content-Length: +5||hello",
        9,
        Fault(BadLength),
    ),
    (
        "an empty length",
        "HTTP/1.1 200 OK|Content-Length:||hello",
        9,
        Fault(BadLength),
    ),
    (
        "an empty member of lengths",
        "HTTP/1.1 200 OK|Content-Length: 5,||hello",
        9,
        Fault(BadLength),
    ),
    (
        "a length beside chunks",
        "HTTP/1.1 200 OK|Content-Length: 2|Transfer-Encoding: chunked||5|hello|0||",
        9,
        Whole(200, "hello"),
    ),
    (
        "two transfer codings",
        "HTTP/1.1 200 OK|Transfer-Encoding: gzip, chunked||5|hello|0||",
        9,
        Fault(Coding),
    ),
    (
        "two transfer fields",
        "HTTP/1.1 200 OK|Transfer-Encoding: chunked|Transfer-Encoding: chunked||5|hello|0||",
        9,
        Fault(Coding),
    ),
    (
        "an empty transfer coding",
        "HTTP/1.1 200 OK|Transfer-Encoding:||hello",
        9,
        Fault(Coding),
    ),
    (
        "chunked in capitals",
        "HTTP/1.1 200 OK|transfer-encoding: CHUNKED||5|hello|0||",
        9,
        Whole(200, "hello"),
    ),
    (
        "no content, whatever its fields",
        "HTTP/1.1 204 No|Content-Length: 5|Transfer-Encoding: gzip||hello",
        9,
        Whole(204, ""),
    ),
    (
        "not modified has no body",
        "HTTP/1.1 304 No|Content-Length: 5|Content-Encoding: gzip||hello",
        9,
        Whole(304, ""),
    ),
    (
        "a content coding of a 204",
        "HTTP/1.1 204 No|Content-Encoding: gzip||",
        9,
        Fault(Coding),
    ),
    (
        "identity",
        "HTTP/1.1 200 OK|Content-Encoding: Identity|Content-Length: 1||x",
        9,
        Whole(200, "x"),
    ),
    (
        "an empty content coding",
        "HTTP/1.1 200 OK|Content-Encoding:|Content-Length: 1||x",
        9,
        Whole(200, "x"),
    ),
    (
        "identity twice",
        "HTTP/1.1 200 OK|Content-Encoding: identity, identity||x",
        9,
        Fault(Coding),
    ),
    (
        "leading zeros of a chunk size",
        "HTTP/1.1 200 OK|Transfer-Encoding: chunked||0005|hello|0||",
        9,
        Whole(200, "hello"),
    ),
    (
        "16 digits of a chunk size",
        "HTTP/1.1 200 OK|Transfer-Encoding: chunked||0000000000000005|hello|0||",
        9,
        Whole(200, "hello"),
    ),
    (
        "17 digits of a chunk size",
        "HTTP/1.1 200 OK|Transfer-Encoding: chunked||00000000000000005|hello|0||",
        9,
        Fault(BadChunk),
    ),
    (
        "a chunk extension",
        "HTTP/1.1 200 OK|Transfer-Encoding: chunked||5 ;a=b|hello|0;c||",
        9,
        Whole(200, "hello"),
    ),
    (
        "a line feed in a chunk extension",
        "HTTP/1.1 200 OK|Transfer-Encoding: chunked||5;a\nb|hello|0||",
        9,
        Fault(BadChunk),
    ),
    (
        "a bare line feed behind a size",
        "HTTP/1.1 200 OK|Transfer-Encoding: chunked||5\nhello|0||",
        9,
        Fault(BadChunk),
    ),
    (
        "a bare line feed behind a chunk",
        "HTTP/1.1 200 OK|Transfer-Encoding: chunked||5|hello\n0||",
        9,
        Fault(BadChunk),
    ),
    (
        "trailers",
        "HTTP/1.1 200 OK|Transfer-Encoding: chunked||5|hello|0|A: b||",
        9,
        Whole(200, "hello"),
    ),
    (
        "a trailer without a name",
        "HTTP/1.1 200 OK|Transfer-Encoding: chunked||5|hello|0|: b||",
        9,
        Fault(BadChunk),
    ),
    (
        "eight interim heads",
        "HTTP/1.1 100 a||HTTP/1.1 102 a||HTTP/1.1 103 a||HTTP/1.1 199 a||\
HTTP/1.1 100 a||HTTP/1.1 100 a||HTTP/1.1 100 a||HTTP/1.1 100 a||\
HTTP/1.1 200 OK||x",
        9,
        Whole(200, "x"),
    ),
    (
        "nine interim heads",
        "HTTP/1.1 100 a||HTTP/1.1 102 a||HTTP/1.1 103 a||HTTP/1.1 199 a||\
HTTP/1.1 100 a||HTTP/1.1 100 a||HTTP/1.1 100 a||HTTP/1.1 100 a||\
HTTP/1.1 100 a||x",
        9,
        Fault(TooManyInterim),
    ),
    (
        "bare line feeds",
        "\n\nHTTP/1.1 200\nA: b\n\nx",
        9,
        Whole(200, "x"),
    ),
    ("another version", "HTTP/2.0 200 OK||", 9, Fault(BadHead)),
    (
        "a folded line",
        "HTTP/1.1 200 OK|A: b| c||",
        9,
        Fault(BadHead),
    ),
    ("status 099", "HTTP/1.1 099 OK||", 9, Fault(BadHead)),
];
