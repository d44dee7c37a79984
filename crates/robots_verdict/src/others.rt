//! The rows whose pattern has a special character or is empty: they are tried one by one.
//! RFC 9309, section 2.2.2.
ghost use Rattle.std.specs.Prelude.{◌≡◌, ◌⊎◌, ◌<◌, false, IfOk, IsTrue, ◌↔◌, length};
ghost use Rattle.std.specs.List.Sorted.{IsNonDecreasing};
ghost use Rattle.robots_verdict.specs.Index.{FindsLeast};
ghost use Rattle.robots_verdict.specs.Search.{ArePlaces, compare_others, IsAbove, IsFound, IsGroupCut, IsOtherHit, IsOtherIndex};

use crate::places::groups_at;
use crate::rows::Rows;
use path_pattern::{Path, matches};
use std::alloc::{AllocError, Global};
use std::cmp::Ordering;

/// The places of the rows that are not plain, by group, and in each group strongest first.
#[derive(Drop)]
pub(crate) struct Others {
    places: Vec<u32>,
    // The groups of the places: a search rarely looks at the rows.
    groups: Vec<u32>,
}

impl Others {
    /// The index of the rows' other places.
    pub(crate) fn of(alloc: Global, rows: &Rows, mut places: Vec<u32>) -> Result<Others, AllocError>
        requires { ArePlaces rows.now.rows false places.items (length rows.now.rows) }
        ensures { IfOk result (λ others.
            IsOtherIndex rows.now.rows others.places.items others.groups.items) }
    {
        places.sort_unstable_by(|one, other| compare_others(rows, *one, *other));
        let groups = groups_at(alloc, rows, places.as_slice())?;
        Ok(Others { places, groups })
    }

    /// How many there are.
    pub(crate) fn count(&self) -> usize {
        self.places.len()
    }

    /// The place of the group's strongest other row that matches the path, or the place found so far if its
    /// row is stronger.
    pub(crate) fn least(
        &self,
        rows: &Rows,
        group: u32,
        path: &mut Path<'_, '_>,
        found: Option<usize>,
    ) -> Option<usize>
        requires { IsOtherIndex rows.now.rows self.now.places.items self.now.groups.items }
        ensures finds { FindsLeast (λ place. IsFound found place
            ⊎ IsOtherHit rows.now.rows group path.old place) result }
        ensures stays { path.new ≡ path.old }
    {
        let places = self.places.as_slice();
        let groups = self.groups.as_slice();
        let start = count_below(groups, group);
        for index in start..places.len() {
            let place = places[index] as usize;
            if groups[index] != group || is_above(found, place) {
                return found;
            }
            if matches(rows.form(place), path) {
                return Some(place);
            }
        }
        found
    }
}

fn is_above(found: Option<usize>, place: usize) -> bool
    ensures { IsTrue result ↔ IsAbove found place }
{
    match found {
        Some(found) => found < place,
        None => false,
    }
}

fn count_below(groups: &[u32], group: u32) -> usize
    requires { IsNonDecreasing groups.now }
    ensures { IsGroupCut groups.now group result }
{
    groups.partition_point(|of| *of < group)
}

fn compare_others(rows: &Rows, one: u32, other: u32) -> Ordering
    ensures { result ≡ compare_others rows.now.rows one other }
{
    rows.group(one as usize)
        .cmp(&rows.group(other as usize))
        .then(one.cmp(&other))
}
