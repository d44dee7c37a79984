//! Texts at the limits and far beyond, and where a redirect leads.
//! The limits are `MAX_HEAD`, `MAX_HEADER_LINES`, `MAX_INTERIM_HEADS`, `MAX_TRAILERS`, `MAX_TRAILER_BYTES`
//! and `MAX_RAW`, which grows with a limit of the body over `USUAL_LIMIT`.

use super::reads::{LongRow, Row, Want};
use Want::{Fault, Leads, Octets, Whole};
use WireFault::{BadChunk, EarlyEnd, HeadTooLong, TooManyInterim, TooMuch};
use http_wire::{MAX_RAW, USUAL_LIMIT, WireFault};

const HEAD: &str = "HTTP/1.1 200 OK|";

const FIELD: &str = "HTTP/1.1 200 OK|A:";

const CHUNKS: &str = "HTTP/1.1 200 OK|Transfer-Encoding: chunked||0|";

const TRAILER: &str = "HTTP/1.1 200 OK|Transfer-Encoding: chunked||0|A:";

const EXTENSION: &str = "HTTP/1.1 200 OK|Transfer-Encoding: chunked||1;";

const INTERIM: &str = "HTTP/1.1 100 Continue||";

// A head of 19 octets, with a body to the end of the input.
const BODY: &str = "HTTP/1.0 200 OK||";

/// The most lines without their end are bad at once: another line would be too many.
pub(super) const LONG: &[LongRow] = &[
    ("100 lines", HEAD, "A: b|", 100, "|", 9, Whole(200, "")),
    ("101 lines", HEAD, "A: b|", 101, "|", 9, Fault(HeadTooLong)),
    (
        "99 lines, no end",
        HEAD,
        "A: b|",
        99,
        "",
        9,
        Fault(EarlyEnd),
    ),
    (
        "100 lines, no end",
        HEAD,
        "A: b|",
        100,
        "",
        9,
        Fault(HeadTooLong),
    ),
    (
        "lines without end",
        HEAD,
        "A: b|",
        20_000,
        "",
        9,
        Fault(HeadTooLong),
    ),
    (
        "a line without end",
        FIELD,
        "b",
        70_000,
        "",
        9,
        Fault(HeadTooLong),
    ),
    (
        "empty lines without end",
        "",
        "|",
        40_000,
        "",
        9,
        Fault(HeadTooLong),
    ),
    (
        "interim heads without end",
        "",
        INTERIM,
        4_000,
        "",
        9,
        Fault(TooManyInterim),
    ),
    ("100 trailers", CHUNKS, "A: b|", 100, "|", 0, Whole(200, "")),
    (
        "101 trailers",
        CHUNKS,
        "A: b|",
        101,
        "|",
        0,
        Fault(BadChunk),
    ),
    (
        "99 trailers, no end",
        CHUNKS,
        "A: b|",
        99,
        "",
        0,
        Fault(EarlyEnd),
    ),
    (
        "100 trailers, no end",
        CHUNKS,
        "A: b|",
        100,
        "",
        9,
        Fault(BadChunk),
    ),
    (
        "trailers without end",
        CHUNKS,
        "A: b|",
        20_000,
        "",
        9,
        Fault(BadChunk),
    ),
    (
        "65,536 octets of trailers",
        TRAILER,
        "b",
        65_530,
        "||",
        0,
        Whole(200, ""),
    ),
    (
        "an octet too many",
        TRAILER,
        "b",
        65_531,
        "||",
        0,
        Fault(BadChunk),
    ),
    (
        "65,536 octets, no end",
        TRAILER,
        "b",
        65_532,
        "|",
        0,
        Fault(BadChunk),
    ),
    (
        "an octet less, no end",
        TRAILER,
        "b",
        65_531,
        "|",
        0,
        Fault(EarlyEnd),
    ),
    (
        "an extension without end",
        EXTENSION,
        "x",
        9_000_000,
        "",
        9,
        Fault(TooMuch),
    ),
    (
        "a body that is cut",
        BODY,
        "x",
        1_200_000,
        "",
        1_048_576,
        Octets(1_048_576, true),
    ),
    (
        "as many octets as there may be",
        EXTENSION,
        "x",
        MAX_RAW - 59,
        "|x|0||",
        USUAL_LIMIT,
        Whole(200, "x"),
    ),
    (
        "an octet more",
        EXTENSION,
        "x",
        MAX_RAW - 58,
        "|x|0||",
        USUAL_LIMIT,
        Fault(TooMuch),
    ),
    (
        "as many more as the limit is greater",
        EXTENSION,
        "x",
        MAX_RAW + 951_424 - 59,
        "|x|0||",
        2_000_000,
        Whole(200, "x"),
    ),
    (
        "an octet more than these",
        EXTENSION,
        "x",
        MAX_RAW + 951_424 - 58,
        "|x|0||",
        2_000_000,
        Fault(TooMuch),
    ),
    (
        "a long body that is cut",
        BODY,
        "x",
        9_500_000,
        "",
        9_000_000,
        Octets(9_000_000, true),
    ),
    (
        "a long body",
        BODY,
        "x",
        9_000_000,
        "",
        9_000_000,
        Octets(9_000_000, false),
    ),
    (
        "a limit without end",
        BODY,
        "x",
        9_000_000,
        "",
        usize::MAX,
        Octets(9_000_000, false),
    ),
];

/// The line before a redirect's fields.
pub(super) const REDIRECT: &str = "HTTP/1.1 302 Found|";

/// A redirect's fields.
pub(super) const LOCATIONS: &[Row] = &[
    ("none", "A: b||", 9, Leads(None)),
    ("one", "Location: /s||", 9, Leads(Some("/s"))),
    (
        "the first of two",
        "location: /a|LOCATION: /b||",
        9,
        Leads(Some("/a")),
    ),
    ("empty", "Location:||", 9, Leads(Some(""))),
    ("not UTF-8", "Location: /~||", 9, Leads(None)),
    (
        "the first is not UTF-8",
        "Location: /~|Location: /b||",
        9,
        Leads(None),
    ),
];
