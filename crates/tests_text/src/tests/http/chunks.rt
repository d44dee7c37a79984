//! Bodies in chunks: whole, cut, ended early, and bad.
//! RFC 9112, section 7.1.

use super::reads::{Row, Want};
use Want::{Cut, Fault, Whole};
use http_wire::WireFault::{BadChunk, EarlyEnd};

/// The head before each body.
pub(super) const HEAD: &str = "HTTP/1.1 200 OK|Transfer-Encoding: chunked||";

/// Bodies after the head.
pub(super) const ROWS: &[Row] = &[
    ("two chunks", "3|abc|2|de|0||", 5, Whole(200, "abcde")),
    ("no chunk", "0||", 0, Whole(200, "")),
    (
        "octets behind the body are not looked at",
        "1|a|0||?",
        1,
        Whole(200, "a"),
    ),
    (
        "extensions, spaces and zeros",
        "003 ;x=y|abc|0;\t||",
        3,
        Whole(200, "abc"),
    ),
    (
        "hexadecimal digits of both cases",
        "a|0123456789|A|0123456789|0||",
        20,
        Whole(200, "01234567890123456789"),
    ),
    (
        "trailers are dropped",
        "1|a|0|A: b|C: d||",
        1,
        Whole(200, "a"),
    ),
    (
        "trailers end in line feeds alone",
        "0|A: b\n\n",
        1,
        Whole(200, ""),
    ),
    (
        "the limit cuts inside a chunk",
        "3|abc|3|def|0||",
        4,
        Cut(200, "abcd"),
    ),
    (
        "the limit cuts at the start of a chunk",
        "3|abc|3|def|0||",
        3,
        Cut(200, "abc"),
    ),
    ("a limit of nothing", "1|a", 0, Cut(200, "")),
    (
        "no fault is looked for behind the octet after the last",
        "2|ab??",
        1,
        Cut(200, "a"),
    ),
    (
        "the largest size is cut",
        "ffffffffffffffff|ab",
        1,
        Cut(200, "a"),
    ),
    (
        "the largest size, of which the room is not full",
        "ffffffffffffffff|ab",
        2,
        Fault(EarlyEnd),
    ),
    ("a size that is no number", "x|", 9, Fault(BadChunk)),
    (
        "a size over 64 bits",
        "00000000000000001|a|0||",
        9,
        Fault(BadChunk),
    ),
    (
        "a chunk line that ends in a line feed alone",
        "1\na|0||",
        9,
        Fault(BadChunk),
    ),
    (
        "a chunk that is longer than its size",
        "1|ab|0||",
        9,
        Fault(BadChunk),
    ),
    ("half an end of a chunk", "1|a\rb", 9, Fault(BadChunk)),
    ("a trailer with no colon", "0|A||", 9, Fault(BadChunk)),
    (
        "the text ends in a chunk line",
        "1|a|1;x",
        9,
        Fault(EarlyEnd),
    ),
    ("the text ends in a chunk", "3|ab", 9, Fault(EarlyEnd)),
    (
        "the text ends in the end of a chunk",
        "1|a\r",
        9,
        Fault(EarlyEnd),
    ),
    (
        "the text ends before the last line",
        "1|a|",
        9,
        Fault(EarlyEnd),
    ),
    ("the text ends in trailers", "0|A: b|", 9, Fault(EarlyEnd)),
];
