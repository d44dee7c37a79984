//! A second, plain matcher to compare with: it tries all ways to cut a path.
//! RFC 9309, section 2.2.3.
ghost use Rattle.std.specs.Prelude.{◌↔◌, IsTrue};
ghost use Rattle.path_pattern.specs.Matches.{Matches, Spells};

use crate::Pattern;
use path_normal::split_anchor;

/// Whether the pattern matches the path, trying all texts for each `*`. Slow.
pub fn matches_by_all_cuts(pattern: &Pattern, path: &[u8]) -> bool
    ensures { IsTrue result ↔ Matches pattern.now path.now }
{
    if pattern.text().is_empty() {
        return false;
    }
    let (front, anchored) = split_anchor(pattern.text());
    spells(front, anchored, path)
}

fn spells(pattern: &[u8], anchored: bool, path: &[u8]) -> bool
    ensures { IsTrue result ↔ Spells pattern.now anchored path.now }
{
    let Some((octet, after)) = pattern.split_first() else {
        return !anchored || path.is_empty();
    };
    let Some((first, rest)) = path.split_first() else {
        return *octet == b'*' && spells(after, anchored, path);
    };
    if *octet == b'*' {
        return spells(after, anchored, path) || spells(pattern, anchored, rest);
    }
    *first == *octet && spells(after, anchored, rest)
}
