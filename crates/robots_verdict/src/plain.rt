//! The plain rows by their texts: a pattern without special characters matches exactly the paths of which
//! it is a prefix. RFC 9309, section 2.2.2.
ghost use Rattle.std.specs.Prelude.{◌≡◌, ◌∷◌, ◌<◌, ◌≤◌, ◌==◌, ℕ, false, true, IfOk, length};
ghost use Rattle.std.specs.List.Sorted.{IsSortedBy};
ghost use Rattle.std.specs.Ordering.{is_gt, is_lt, nat_cmp};
ghost use Rattle.std.specs.Cmp.Lexicographic.{slice_cmp};
ghost use Rattle.robots_text.specs.Lines.{text_limit};
ghost use Rattle.robots_verdict.specs.Index.{FindsLeast};
ghost use Rattle.robots_verdict.specs.Rows.{is_row_above};
ghost use Rattle.robots_verdict.specs.Search.{AreParents, ArePlaces, common, IsCut, IsLastBegun, IsPlainHit, IsPlainIndex, IsPlainOrder, key, key_at};

use crate::keys::in_order;
use crate::parents::Parents;
use crate::rows::Rows;
use path_pattern::compare_texts;
use std::alloc::{AllocError, Global};
use std::cmp::Ordering;

/// The places of the plain rows, by group and text.
#[derive(Drop)]
pub(crate) struct Plain {
    places: Vec<u32>,
    // The index of the longest other one that is its prefix, in the same group.
    parents: Parents,
}

impl Plain {
    /// The index of the rows' plain places.
    pub(crate) fn of(alloc: Global, rows: &Rows, places: Vec<u32>) -> Result<Plain, AllocError>
        requires few { length rows.now.rows ≤ text_limit }
        requires plain { ArePlaces rows.now.rows true places.items (length rows.now.rows) }
        ensures { IfOk result (λ plain.
            IsPlainIndex rows.now.rows plain.places.items plain.parents) }
    {
        let places = in_order(alloc, rows, places)?;
        let parents = parents_of(alloc, rows, places.as_slice())?;
        Ok(Plain { places, parents })
    }

    /// The place of the group's strongest plain row that is a prefix of the path.
    pub(crate) fn least(&self, rows: &Rows, group: u32, path: &[u8]) -> Option<usize>
        requires falling { IsSortedBy is_row_above rows.now.rows }
        requires index { IsPlainIndex rows.now.rows self.now.places.items self.now.parents }
        ensures { FindsLeast (IsPlainHit rows.now.rows group path.now) result }
    {
        let places = self.places.as_slice();
        let count = count_to(rows, places, group, path);
        let last = last_begun(rows, places, &self.parents, count, group, path)?;
        Some(self.places[last as usize] as usize)
    }
}

fn parents_of(alloc: Global, rows: &Rows, places: &[u32]) -> Result<Parents, AllocError>
    requires few { length places.now ≤ text_limit }
    requires rise { IsPlainOrder rows.now.rows places.now }
    ensures { IfOk result (λ parents.
        AreParents rows.now.rows places.now parents (length places.now)) }
{
    let mut parents = Parents::new(alloc);
    for index in 0..places.len() {
        let place = places[index] as usize;
        let group = rows.group(place);
        let parent = last_begun(rows, places, &parents, index, group, rows.form(place));
        parents.push(index as u32, parent)?;
    }
    parents.fit();
    Ok(parents)
}

fn count_to(rows: &Rows, places: &[u32], group: u32, path: &[u8]) -> usize
    requires rise { IsPlainOrder rows.now.rows places.now }
    ensures { IsCut rows.now.rows places.now (group ∷ path.now) result }
{
    let mut low = 0;
    let mut high = places.len();
    while low < high {
        let middle = low + (high - low) / 2;
        if is_behind(rows, places[middle], group, path) {
            high = middle;
        } else {
            low = middle + 1;
        }
    }
    low
}

// The last prefix of a group and a path among the first keys, none of which is after these. All the path's
// prefixes are prefixes of the last key, so they are in its chain of parents.
fn last_begun(
    rows: &Rows,
    places: &[u32],
    parents: &Parents,
    count: usize,
    group: u32,
    path: &[u8],
) -> Option<u32>
    requires few { length places.now ≤ text_limit }
    requires fits { count ≤ length places.now }
    requires rise { IsPlainOrder rows.now.rows places.now }
    requires parents { AreParents rows.now.rows places.now parents.now count }
    requires behind { (index : ℕ) → index < count
        → is_lt (slice_cmp nat_cmp (group ∷ path.now) (key_at rows.now.rows places.now index))
        ≡ false }
    ensures { IsLastBegun rows.now.rows places.now count (group ∷ path.now) result }
{
    if count == 0 {
        return None;
    }
    let top = count - 1;
    let place = places[top] as usize;
    if rows.group(place) != group {
        return None;
    }
    let common = common(rows.form(place), path);
    let mut last = top;
    while rows.form(places[last] as usize).len() > common {
        let Some(parent) = parents.of(last) else {
            return None;
        };
        last = parent as usize;
    }
    Some(last as u32)
}

fn common(one: &[u8], other: &[u8]) -> usize
    ensures { result ≡ common one.now other.now }
{
    let mut count = 0;
    let mut left = one;
    let mut right = other;
    while let Some((first, later)) = left.split_first() {
        let Some((octet, rest)) = right.split_first() else {
            return count;
        };
        if *first != *octet {
            return count;
        }
        count += 1;
        left = later;
        right = rest;
    }
    count
}

fn is_behind(rows: &Rows, place: u32, group: u32, path: &[u8]) -> bool
    ensures { result ≡ is_gt (slice_cmp nat_cmp (key rows.now.rows place) (group ∷ path.now)) }
{
    compare_key(rows, place, group, path).is_gt()
}

fn compare_key(rows: &Rows, place: u32, group: u32, text: &[u8]) -> Ordering
    ensures { result ≡ slice_cmp nat_cmp (key rows.now.rows place) (group ∷ text.now) }
{
    match rows.group(place as usize).cmp(&group) {
        Ordering::Equal => compare_texts(rows.form(place as usize), text),
        unequal => unequal,
    }
}
