//! The plain places, sorted by keys that hold the first octets of their patterns.
//! Used by `Plain`: most comparisons of two keys look at no pattern.
ghost use Rattle.std.specs.Prelude.{◌≡◌, All, drop, IfOk, length, map, min};
ghost use Rattle.path_pattern.specs.Texts.{AreOctets, spelled_number};
ghost use Rattle.robots_verdict.specs.Keys.{AreKept, AreSorted, compare_alike, compare_keys, compare_patterns, IsKeyOf, number};
ghost use Rattle.robots_verdict.specs.Search.{AreStrongest, IsPlainOrder};

use crate::rows::Rows;
use path_pattern::{compare_texts, front};
use std::alloc::{AllocError, Global};
use std::cmp::Ordering;

/// A place and its group, and its pattern's first sixteen octets as two numbers.
#[derive(Clone, Copy)]
pub(crate) struct Key {
    front: u64,
    next: u64,
    // How many octets the pattern has, or 17 if it has more.
    cut: u32,
    group: u32,
    place: u32,
}

/// The places in the order of plain places, the strongest of those with one group and pattern alone.
pub(crate) fn in_order(alloc: Global, rows: &Rows, places: Vec<u32>) -> Result<Vec<u32>, AllocError>
    ensures strongest { IfOk result (λ ordered.
        AreStrongest rows.now.rows places.items ordered.items) }
    ensures rise { IfOk result (λ ordered. IsPlainOrder rows.now.rows ordered.items) }
{
    let mut keys = keys_of(alloc, rows, places.as_slice())?;
    drop(places);
    keys.sort_unstable_by(|one, other| compare_keys(rows, one, other));
    let strongest = strongest_of(alloc, rows, keys.as_slice())?;
    drop(keys);
    let ordered = places_of(alloc, strongest.as_slice())?;
    Ok(ordered)
}

fn keys_of(alloc: Global, rows: &Rows, places: &[u32]) -> Result<Vec<Key>, AllocError>
    ensures places { IfOk result (λ keys. map (λ key. key.place) keys.items ≡ places.now) }
    ensures known { IfOk result (λ keys. All (IsKeyOf rows.now.rows) keys.items) }
{
    let mut keys = Vec::with_capacity(alloc, places.len())?;
    for place in places {
        keys.push(key_at(rows, *place))?;
    }
    Ok(keys)
}

// Of sorted keys with one group and pattern the one with the strongest place.
fn strongest_of(alloc: Global, rows: &Rows, keys: &[Key]) -> Result<Vec<Key>, AllocError>
    requires { AreSorted rows.now.rows keys.now }
    ensures { IfOk result (λ kept. AreKept rows.now.rows keys.now kept.items) }
{
    let mut kept: Vec<Key> = Vec::new(alloc);
    for key in keys {
        let count = kept.len();
        if count == 0 || compare_keys(rows, &kept[count - 1], key).is_ne() {
            kept.push(*key)?;
        } else if key.place < kept[count - 1].place {
            kept[count - 1] = *key;
        }
    }
    Ok(kept)
}

fn places_of(alloc: Global, keys: &[Key]) -> Result<Vec<u32>, AllocError>
    ensures { IfOk result (λ places. places.items ≡ map (λ key. key.place) keys.now) }
{
    let mut places = Vec::with_capacity(alloc, keys.len())?;
    for key in keys {
        places.push(key.place)?;
    }
    Ok(places)
}

fn key_at(rows: &Rows, place: u32) -> Key
    ensures place { result.place ≡ place }
    ensures key { IsKeyOf rows.now.rows result }
{
    let index = place as usize;
    key_of(rows.group(index), place, rows.form(index))
}

fn key_of(group: u32, place: u32, form: &[u8]) -> Key
    ensures place { (result.group ≡ group) × (result.place ≡ place) }
    ensures spelled { number result ≡ spelled_number 16 0 form.now }
    ensures cut { result.cut ≡ min 17 (length form.now) }
    ensures octets { AreOctets form.now }
{
    Key {
        front: front(form),
        next: front(behind_eight(form)),
        cut: form.len().min(17) as u32,
        group,
        place,
    }
}

fn behind_eight(text: &[u8]) -> &[u8]
    ensures { result.now ≡ drop 8 text.now }
{
    if text.len() < 8 { &[] } else { &text[8..] }
}

fn compare_keys(rows: &Rows, one: &Key, other: &Key) -> Ordering
    ensures { result ≡ compare_keys rows.now.rows one.now other.now }
{
    match one.group.cmp(&other.group) {
        Ordering::Equal => compare_patterns(rows, one, other),
        unequal => unequal,
    }
}

fn compare_patterns(rows: &Rows, one: &Key, other: &Key) -> Ordering
    ensures { result ≡ compare_patterns rows.now.rows one.now other.now }
{
    match number(one).cmp(&number(other)) {
        Ordering::Equal => compare_alike(rows, one, other),
        unequal => unequal,
    }
}

// The order of two patterns that begin alike: short ones are compared by their lengths.
fn compare_alike(rows: &Rows, one: &Key, other: &Key) -> Ordering
    ensures { result ≡ compare_alike rows.now.rows one.now other.now }
{
    if one.cut != other.cut {
        one.cut.cmp(&other.cut)
    } else if one.cut > 16 {
        compare_texts(
            rows.form(one.place as usize),
            rows.form(other.place as usize),
        )
    } else {
        Ordering::Equal
    }
}

fn number(key: &Key) -> u128
    ensures { result ≡ number key.now }
{
    u128::from(key.front) * HALF + u128::from(key.next)
}

// One more than eight octets can spell.
const HALF: u128 = 1 << 64;
