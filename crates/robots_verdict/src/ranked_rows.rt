//! The strongest row that matches a path, found without trying rows that can't match.
//! RFC 9309, section 2.2.2.
ghost use Rattle.std.specs.Prelude.{◌≡◌, ◌⊎◌, ◌≤◌, IfOk, length};
ghost use Rattle.std.specs.List.Sorted.{IsSortedBy};
ghost use Rattle.robots_text.specs.Lines.{text_limit};
ghost use Rattle.robots_verdict.specs.Index.{FindsLeast, IsHit};
ghost use Rattle.robots_verdict.specs.Rows.{is_row_above};
ghost use Rattle.robots_verdict.specs.Search.{IsFound, IsHitIn, IsSearchable};

use crate::others::Others;
use crate::places::places_of;
use crate::plain::Plain;
use crate::rows::Rows;
use path_pattern::Path;
use std::alloc::{AllocError, Global};

/// The places of the rows in two lists. A place is a rank: the smaller, the stronger.
#[derive(Drop)]
pub(crate) struct RankedRows {
    plain: Plain,
    others: Others,
}

impl RankedRows {
    /// The places of the rows.
    pub(crate) fn of(alloc: Global, rows: &Rows) -> Result<RankedRows, AllocError>
        requires { length rows.now.rows ≤ text_limit }
        ensures { IfOk result (λ ranks. IsSearchable rows.now.rows ranks) }
    {
        let (plain, others) = places_of(alloc, rows)?;
        let plain = Plain::of(alloc, rows, plain)?;
        let others = Others::of(alloc, rows, others)?;
        Ok(RankedRows { plain, others })
    }

    /// How many rows are not plain.
    pub(crate) fn other_count(&self) -> usize {
        self.others.count()
    }

    /// The place of the strongest row of these groups that matches the path.
    pub(crate) fn first(
        &self,
        rows: &Rows,
        groups: &[u32],
        path: &mut Path<'_, '_>,
    ) -> Option<usize>
        requires falling { IsSortedBy is_row_above rows.now.rows }
        requires searchable { IsSearchable rows.now.rows self.now }
        ensures finds { FindsLeast (IsHit rows.now.rows groups.now path.old) result }
        ensures stays { path.new ≡ path.old }
    {
        let mut found = None;
        let mut last = None;
        for group in groups {
            // A group is listed once for each of its user-agent lines, side by side.
            if last != Some(*group) {
                found = self.first_of(rows, *group, path, found);
                last = Some(*group);
            }
        }
        found
    }

    // The first such place in one group, or the place found so far if its row is stronger.
    fn first_of(
        &self,
        rows: &Rows,
        group: u32,
        path: &mut Path<'_, '_>,
        found: Option<usize>,
    ) -> Option<usize>
        requires falling { IsSortedBy is_row_above rows.now.rows }
        requires searchable { IsSearchable rows.now.rows self.now }
        ensures finds { FindsLeast (λ place. IsFound found place
            ⊎ IsHitIn rows.now.rows group path.old place) result }
        ensures stays { path.new ≡ path.old }
    {
        let stronger = lesser(found, self.plain.least(rows, group, path.octets()));
        self.others.least(rows, group, path, stronger)
    }
}

fn lesser(one: Option<usize>, other: Option<usize>) -> Option<usize>
    ensures { FindsLeast (λ place. IsFound one place ⊎ IsFound other place) result }
{
    match (one, other) {
        (Some(place), Some(behind)) => Some(place.min(behind)),
        (Some(place), None) | (None, Some(place)) => Some(place),
        (None, None) => None,
    }
}
