//! The lines of a robots text, and the end of its last whole line.
//! RFC 9309, sections 2.2 and 2.5.
ghost use Rattle.std.specs.Prelude.{◌≡◌, ◌<◌, ◌≤◌, ◌∷◌, drop, false, length, map, take};
ghost use Rattle.std.specs.List.{position, position_or_len};
ghost use Rattle.robots_text.specs.Cut.{behind_end, ends_front};
ghost use Rattle.robots_text.specs.Lines.{is_line_end, lines_from, unmarked, whole_lines};
ghost use Rattle.robots_text.specs.Records.{record_in, record_of};

use memchr::{memchr2, memchr3};

// How many octets are tested one by one, since many lines are that short; a search of vectors takes as long
// as some ten.
const NEAR: usize = 8;

/// The text without its byte order mark.
pub(crate) fn unmarked(text: &[u8]) -> &[u8]
    ensures value { result.now ≡ unmarked text.now }
    ensures within { length result.now ≤ length text.now }
{
    match text {
        [0xef, 0xbb, 0xbf, rest @ ..] => rest,
        _ => text,
    }
}

/// The first line up to its first `#`, and the text after the line's end.
pub(crate) fn cut_line(text: &[u8]) -> (&[u8], &[u8])
    requires { 0 < length text.now }
    ensures records { map record_of (lines_from false text.now)
        ≡ record_in result.0.now ∷ map record_of (lines_from false result.1.now) }
    ensures shorter { length result.1.now < length text.now }
{
    // Many lines are empty.
    if let [b'\r' | b'\n', ..] = text {
        return (text.split_at(0).0, behind_end(text));
    }
    let (front, rest) = text.split_at(front_len(text));
    (front, behind_end(from_line_end(rest)))
}

/// The octets up to and including the last CR or LF, or none.
pub(crate) fn whole_lines(text: &[u8]) -> &[u8]
    ensures value { result.now ≡ whole_lines text.now }
    ensures within { length result.now ≤ length text.now }
{
    let mut rest = text;
    while let Some((last, before)) = rest.split_last() {
        if is_line_end(*last) {
            return rest;
        }
        rest = before;
    }
    rest
}

fn is_line_end(octet: u8) -> bool
    ensures { result ≡ is_line_end octet }
{
    octet == b'\r' || octet == b'\n'
}

// The octets before the first line end or `#`: mostly the whole line.
fn front_len(text: &[u8]) -> usize
    ensures len { result ≡ position_or_len ends_front text.now }
    ensures within { result ≤ length text.now }
{
    match near_front_len(near(text)) {
        Some(len) => len,
        None => far_front_len(text),
    }
}

fn near(text: &[u8]) -> &[u8]
    ensures { result.now ≡ take NEAR text.now }
{
    if text.len() < NEAR {
        text
    } else {
        text.split_at(NEAR).0
    }
}

fn near_front_len(near: &[u8]) -> Option<usize>
    ensures { result ≡ position ends_front near.now }
{
    near.iter().position(|octet| ends_front(*octet))
}

fn ends_front(octet: u8) -> bool
    ensures { result ≡ ends_front octet }
{
    is_line_end(octet) || octet == b'#'
}

// A function of its own, so that the code for short lines stays small.
#[inline(never)]
fn far_front_len(text: &[u8]) -> usize
    ensures len { result ≡ position_or_len ends_front text.now }
    ensures within { result ≤ length text.now }
{
    match memchr3(b'\r', b'\n', b'#', text) {
        Some(len) => len,
        None => text.len(),
    }
}

// The text without the octets before its first line end.
fn from_line_end(text: &[u8]) -> &[u8]
    ensures { result.now ≡ drop (position_or_len is_line_end text.now) text.now }
{
    match text {
        [b'\r' | b'\n', ..] => text,
        _ => text.split_at(line_len(text)).1,
    }
}

#[inline(never)]
fn line_len(text: &[u8]) -> usize
    ensures len { result ≡ position_or_len is_line_end text.now }
    ensures within { result ≤ length text.now }
{
    match memchr2(b'\r', b'\n', text) {
        Some(len) => len,
        None => text.len(),
    }
}

fn behind_end(text: &[u8]) -> &[u8]
    ensures { result.now ≡ behind_end text.now }
{
    match text {
        [b'\r', b'\n', rest @ ..] => rest,
        [_, rest @ ..] => rest,
        [] => text,
    }
}
