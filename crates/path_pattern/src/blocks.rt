//! The first place of a literal in a path, by blocks of 64 places tested in parallel.
//! Used if the path is long: no place is tested on its own, whatever the path holds.
ghost use Rattle.std.specs.Prelude.{◌≡◌, ◌≢◌, ◌↔◌, ℕ, ◌+◌, ◌<◌, ◌≤◌, ◌==◌, if◌then◌else◌, length, slice_index, IsTrue};
ghost use Rattle.std.specs.Int.{bit_at};
ghost use Rattle.memchr.specs.Find.{FindsNeedle};
ghost use Rattle.path_pattern.specs.Blocks.{HasLanes, IsFoundIn, IsLeftOf, IsNoneLeft, IsWithin};

use std::simd::prelude::*;

/// The places of a block.
pub(crate) const PLACES: usize = 64;

/// The result of searching a block for a literal.
enum BlockMatch {
    /// The literal's first place.
    At(usize),
    /// The literal is not there; the octets tried first ruled it out at once.
    Nowhere,
    /// The literal is not there, but nearly: other octets ruled it out. They mostly decide the next block.
    Nearly(Telling),
}

/// Two octets of a literal, by their indices.
#[derive(Clone, Copy)]
struct Telling {
    /// The one that most recently ruled out a block.
    first: usize,
    /// The one that did so before it.
    second: usize,
}

/// The literal's first place from here on. There must be a block of places for it.
pub(crate) fn first_by_blocks(path: &[u8], literal: &[u8], from: usize) -> Option<usize>
    requires pair { 1 < length literal.now }
    requires room { from + 63 + length literal.now ≤ length path.now }
    ensures { FindsNeedle path.now literal.now from result }
{
    // The last block ends with the path and may overlap the one before.
    let last = path.len() - literal.len() - (PLACES - 1);
    let mut start = from;
    let mut telling = Telling {
        first: 0,
        second: literal.len() - 1,
    };
    while start < last {
        match found_in_block(path, literal, start, telling) {
            BlockMatch::At(place) => return Some(place),
            BlockMatch::Nowhere => {}
            BlockMatch::Nearly(octets) => telling = octets,
        }
        start += PLACES;
    }
    match found_in_block(path, literal, last, telling) {
        BlockMatch::At(place) => Some(place),
        BlockMatch::Nowhere => None,
        BlockMatch::Nearly(_) => None,
    }
}

// Tests two octets a step, until no place is left. The telling ones come first: if the literal is nearly
// there again and again, they mostly rule out all places at once.
fn found_in_block(path: &[u8], literal: &[u8], start: usize, telling: Telling) -> BlockMatch
    requires two { 1 < length literal.now }
    requires telling { IsWithin telling literal.now }
    requires room { start + 63 + length literal.now ≤ length path.now }
    ensures { IsFoundIn path.now literal.now start result }
{
    let all = u8x64::splat(255);
    let mut left = two_left(all, path, literal, start, telling.first, telling.second);
    if is_none(left) {
        return BlockMatch::Nowhere;
    }
    let mut seen = 0;
    while seen < literal.len() {
        let pair = seen.min(literal.len() - 2);
        let next = two_left(left, path, literal, start, pair, pair + 1);
        if is_none(next) {
            let first = telling_of(left, path, literal, start, pair);
            let second = telling.first;
            return BlockMatch::Nearly(Telling { first, second });
        }
        left = next;
        seen += 2;
    }
    BlockMatch::At(start + lowest(top_bits(left)))
}

// Which octet of a pair rules out all lanes.
#[inline(always)]
fn telling_of(lanes: u8x64, path: &[u8], literal: &[u8], start: usize, pair: usize) -> usize
    requires pair { pair + 1 < length literal.now }
    requires room { start + 63 + length literal.now ≤ length path.now }
    ensures { result < length literal.now }
{
    if is_none(octet_left(lanes, path, start + pair, literal[pair])) {
        pair
    } else {
        pair + 1
    }
}

// The lanes at whose places both octets of the literal are. The others are 0.
#[inline(always)]
fn two_left(
    lanes: u8x64,
    path: &[u8],
    literal: &[u8],
    start: usize,
    one: usize,
    other: usize,
) -> u8x64
    requires one { one < length literal.now }
    requires other { other < length literal.now }
    requires room { start + 63 + length literal.now ≤ length path.now }
    ensures { IsLeftOf path.now literal.now start one other lanes result }
{
    let first = octet_left(lanes, path, start + one, literal[one]);
    octet_left(first, path, start + other, literal[other])
}

// The lanes with the octet at their places, from this one on. The others are 0.
#[inline(always)]
fn octet_left(lanes: u8x64, path: &[u8], place: usize, octet: u8) -> u8x64
    requires { place + 64 ≤ length path.now }
    ensures { HasLanes result
        (λ k. if slice_index path.now (place + k) == octet then slice_index lanes k else 0) }
{
    u8x64::from_slice(&path[place..])
        .simd_eq(u8x64::splat(octet))
        .select(lanes, u8x64::splat(0))
}

#[inline(always)]
fn is_none(lanes: u8x64) -> bool
    ensures { IsTrue result ↔ IsNoneLeft lanes }
{
    top_bits(lanes) == 0
}

// Bit k is the top bit of lane k.
#[inline(always)]
fn top_bits(lanes: u8x64) -> u64
    ensures { (k : ℕ) → (bit_at result k ≡ 1) ↔ (128 ≤ slice_index lanes k) }
{
    lanes.simd_ge(u8x64::splat(128)).to_bitmask()
}

// The index of the lowest set bit.
#[inline(always)]
pub(crate) fn lowest(marks: u64) -> usize
    requires { marks ≢ 0 }
    ensures bound { result < 64 }
    ensures set { bit_at marks result ≡ 1 }
    ensures below { (k : ℕ) → k < result → bit_at marks k ≡ 0 }
{
    marks.trailing_zeros() as usize
}
