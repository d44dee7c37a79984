//! The places of a policy's rows: which are plain, and their groups.
//! RFC 9309, section 2.2.2.
ghost use Rattle.std.specs.Prelude.{◌≡◌, ◌<◌, ◌≤◌, false, true, IfOk, length};
ghost use Rattle.path_normal.specs.Normal.{is_anchored};
ghost use Rattle.robots_text.specs.Lines.{text_limit};
ghost use Rattle.robots_verdict.specs.Search.{ArePlaces, groups_at, is_plain_pattern};

use crate::rows::Rows;
use path_pattern::has_no_star;
use std::alloc::{AllocError, Global};

/// The places of the plain rows, and those of the others.
pub(crate) fn places_of(alloc: Global, rows: &Rows) -> Result<(Vec<u32>, Vec<u32>), AllocError>
    requires { length rows.now.rows ≤ text_limit }
    ensures plain { IfOk result (λ lists.
        ArePlaces rows.now.rows true lists.0.items (length rows.now.rows)) }
    ensures others { IfOk result (λ lists.
        ArePlaces rows.now.rows false lists.1.items (length rows.now.rows)) }
{
    let mut plain = Vec::new(alloc);
    let mut others = Vec::new(alloc);
    for place in 0..rows.len() {
        if is_plain_pattern(rows.form(place)) {
            plain.push(place as u32)?;
        } else {
            others.push(place as u32)?;
        }
    }
    plain.shrink_to_fit();
    others.shrink_to_fit();
    Ok((plain, others))
}

/// The groups of the rows at these places.
pub(crate) fn groups_at(alloc: Global, rows: &Rows, places: &[u32]) -> Result<Vec<u32>, AllocError>
    ensures { IfOk result (λ groups. groups.items ≡ groups_at rows.now.rows places.now) }
{
    let mut groups = Vec::with_capacity(alloc, places.len())?;
    for place in places {
        groups.push(rows.group(*place as usize))?;
    }
    Ok(groups)
}

fn is_plain_pattern(form: &[u8]) -> bool
    ensures { result ≡ is_plain_pattern form.now }
{
    !form.is_empty() && !is_anchored(form) && has_no_star(form)
}

fn is_anchored(form: &[u8]) -> bool
    ensures { result ≡ is_anchored form.now }
{
    matches!(form, [.., b'$'])
}
