//! The order of texts, comparing their first octets eight at a time.
//! Used if many texts are compared: eight octets take as long as one.
ghost use Rattle.std.specs.Prelude.{◌≡◌, ◌<◌, length, slice_index_or};
ghost use Rattle.std.specs.Ordering.{nat_cmp};
ghost use Rattle.std.specs.Cmp.Lexicographic.{slice_cmp};
ghost use Rattle.path_pattern.specs.Texts.{spelled_number};

use std::cmp::Ordering;

/// The order of two texts by their octets.
pub fn compare_texts(one: &[u8], other: &[u8]) -> Ordering
    ensures { result ≡ slice_cmp nat_cmp one.now other.now }
{
    let mut left = one;
    let mut right = other;
    // std passes longer common prefixes faster, by larger steps.
    for _ in 0..4 {
        if left.len() < 8 || right.len() < 8 {
            break;
        }
        let order = front(left).cmp(&front(right));
        if order.is_ne() {
            return order;
        }
        left = &left[8..];
        right = &right[8..];
    }
    left.cmp(right)
}

/// The first eight octets as a number, the first highest, padded with zeros.
pub fn front(text: &[u8]) -> u64
    ensures { result ≡ spelled_number 8 0 text.now }
{
    if text.len() < 8 {
        return short_front(text);
    }
    u64::from_be_bytes([
        text[0], text[1], text[2], text[3], text[4], text[5], text[6], text[7],
    ])
}

fn short_front(text: &[u8]) -> u64
    requires { length text.now < 8 }
    ensures { result ≡ spelled_number 8 0 text.now }
{
    if text.is_empty() {
        return 0;
    }
    u64::from_be_bytes([
        text[0],
        octet(text, 1),
        octet(text, 2),
        octet(text, 3),
        octet(text, 4),
        octet(text, 5),
        octet(text, 6),
        0,
    ])
}

// The octet at an index, and zero past the end.
fn octet(text: &[u8], index: usize) -> u8
    ensures { result ≡ slice_index_or text.now index 0 }
{
    if index < text.len() { text[index] } else { 0 }
}
