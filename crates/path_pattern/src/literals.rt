//! The literals of a pattern between its wildcards, and where they occur in a path.
//! RFC 9309, section 2.2.3.
ghost use Rattle.std.specs.Prelude.{◌≡◌, ◌++◌, ◌↔◌, ◌<◌, List, ℕ, IsTrue, MatchOption, Some, length};
ghost use Rattle.memchr.specs.Find.{FindsNeedle, IsFirstByte, OccursAt, is_byte};
ghost use Rattle.path_normal.specs.Octets.{star};
ghost use Rattle.path_pattern.specs.Literals.{HasNoStar, IsSplitAtStar, IsStarOf, has_no_star};

use crate::blocks::{PLACES, first_by_blocks};
use memchr::arch::all::{is_prefix, is_suffix};
use memchr::{memchr, memmem};

/// The first wildcard of a pattern.
#[derive(Clone, Copy)]
pub(crate) enum Star {
    /// There is none.
    None,
    /// At this place, the only one.
    Only(usize),
    /// At this place, perhaps not the only one.
    First(usize),
}

/// The first wildcard, and whether others follow.
pub(crate) fn star_of(pattern: &[u8]) -> Star
    ensures { IsStarOf pattern.now result }
{
    match first_star(pattern) {
        Star::First(place) if has_no_star(split_at_place(pattern, place).1) => Star::Only(place),
        star => star,
    }
}

/// The first wildcard, without looking for others.
pub(crate) fn first_star(pattern: &[u8]) -> Star
    ensures { IsStarOf pattern.now result }
{
    match star_place(pattern) {
        Some(place) => Star::First(place),
        None => Star::None,
    }
}

/// The text before and after the first `*`, if any.
pub(crate) fn split_at_star(pattern: &[u8]) -> Option<(&[u8], &[u8])>
    ensures { MatchOption result (HasNoStar pattern.now)
        (λ parts. IsSplitAtStar pattern.now parts.0.now parts.1.now) }
{
    match star_place(pattern) {
        Some(place) => Some(split_at_place(pattern, place)),
        None => None,
    }
}

// A literal mostly has no more octets. Finding a wildcard there by `memchr` takes longer.
const NEAR: usize = 10;

fn star_place(pattern: &[u8]) -> Option<usize>
    ensures { IsFirstByte (is_byte star) pattern.now result }
{
    let near = pattern.len().min(NEAR);
    for index in 0..near {
        if pattern[index] == b'*' {
            return Some(index);
        }
    }
    let place = memchr(b'*', &pattern[near..])?;
    Some(near + place)
}

/// Whether the pattern has no `*`.
pub fn has_no_star(pattern: &[u8]) -> bool
    ensures tells { IsTrue result ↔ HasNoStar pattern.now }
    ensures value { result ≡ has_no_star pattern.now }
{
    star_place(pattern).is_none()
}

/// The text before and after the first `*`, given its place.
pub(crate) fn split_at_place(pattern: &[u8], place: usize) -> (&[u8], &[u8])
    requires { IsFirstByte (is_byte star) pattern.now (Some place) }
    ensures { IsSplitAtStar pattern.now result.0.now result.1.now }
{
    (&pattern[..place], &pattern[place + 1..])
}

/// Whether the path begins with the literal.
pub(crate) fn begins_with(path: &[u8], literal: &[u8]) -> bool
    ensures { IsTrue result ↔ OccursAt path.now literal.now 0 }
{
    is_prefix(path, literal)
}

/// The first place of the literal.
// Preparing a search costs as much as finding the literal's last octet in a path many times as long. If
// that octet is missing, or its first place ends the literal, no search is needed.
pub(crate) fn first_place(path: &[u8], literal: &[u8]) -> Option<usize>
    ensures { FindsNeedle path.now literal.now 0 result }
{
    let (front, last) = match literal {
        [] => return Some(0),
        [octet] => return memchr(*octet, path),
        [front @ .., last] => (front, last),
    };
    if path.len() < literal.len() {
        return None;
    }
    let place = memchr(*last, &path[front.len()..])?;
    if begins_with(&path[place..], literal) {
        return Some(place);
    }
    let later = first_of_pair(&path[place..], literal)?;
    Some(place + later)
}

// The cost of `memmem` grows with near misses: it compares at each of them. A path without a block of
// places for the literal has few.
fn first_of_pair(path: &[u8], literal: &[u8]) -> Option<usize>
    requires { 1 < length literal.now }
    ensures { FindsNeedle path.now literal.now 0 result }
{
    if path.len() < literal.len() + (PLACES - 1) {
        memmem::find(path, literal)
    } else {
        first_by_blocks(path, literal, 0)
    }
}

/// Whether the path ends with the literal.
pub(crate) fn ends_with(path: &[u8], literal: &[u8]) -> bool
    ensures { IsTrue result ↔ ((front : List ℕ) × (path.now ≡ front ++ literal.now)) }
{
    is_suffix(path, literal)
}
