//! A pattern of a robots.txt in normal form, and whether it matches a path.
//! RFC 9309, section 2.2.3.
ghost use Rattle.std.specs.Prelude.{◌≡◌, ◌↔◌, ◌∷◌, ◌≤◌, drop, IfOk, IsTrue, length};
ghost use Rattle.path_normal.specs.Normal.{normal_pattern, unanchored};
ghost use Rattle.path_normal.specs.Octets.{star};
ghost use Rattle.path_pattern.specs.Matches.{Matches, Spells};
ghost use Rattle.path_pattern.specs.Literals.{HasNoStar, IsStarOf};

use crate::literals::{
    Star, begins_with, ends_with, first_star, split_at_place, split_at_star, star_of,
};
use crate::path::Path;
use path_normal::{normal_pattern, split_anchor};
use std::alloc::{AllocError, Global};
use std::marker::Model;

/// A pattern in normal form: `*` stands for any octets or none, a last `$` for the end.
#[derive(Drop)]
pub struct Pattern {
    text: Vec<u8>,
    // Kept, since each match would have to search for it.
    star: Star,
}

impl Model for Pattern {
    ghost use Rattle.std.specs.Prelude.{List, ℕ};
    ghost use Rattle.std.specs.Coded.{coded_list, coded_ℕ};

    ghost Value = { List ℕ };

    ghost coded = { coded_list coded_ℕ };

    ghost use Rattle.std.specs.Prelude.{◌≡◌};
    ghost use Rattle.path_normal.specs.Normal.{normal_pattern, unanchored};
    ghost use Rattle.path_pattern.specs.Literals.{IsStarOf};

    ghost view = { λ pattern. pattern.text.items };

    ghost invariant = { λ pattern. (normal_pattern pattern.text.items ≡ pattern.text.items)
        × IsStarOf (unanchored pattern.text.items) pattern.star };
}

impl Pattern {
    /// The pattern of a rule's value.
    pub fn new(alloc: Global, raw: &[u8]) -> Result<Pattern, AllocError>
        ensures { IfOk result (λ pattern. pattern ≡ normal_pattern raw.now) }
    {
        let text = normal_pattern(alloc, raw)?;
        let (pattern, _) = split_anchor(text.as_slice());
        let star = star_of(pattern);
        Ok(Pattern { text, star })
    }

    /// Whether the pattern matches the path, given in normal form. Takes no memory.
    pub fn matches(&self, path: &[u8]) -> bool
        ensures { IsTrue result ↔ Matches self.now path.now }
    {
        self.matches_path(&mut Path::new(path))
    }

    /// Whether the pattern matches a path that many patterns are tried on, which keeps their literals.
    pub fn matches_path(&self, path: &mut Path<'_, '_>) -> bool
        ensures tells { IsTrue result ↔ Matches self.now path.old }
        ensures stays { path.new ≡ path.old }
    {
        if self.text.is_empty() {
            return false;
        }
        let (pattern, anchored) = split_anchor(self.text());
        fits(pattern, self.star, anchored, path)
    }

    /// The length of the normal form in octets.
    pub fn octets(&self) -> usize
        ensures { result ≡ length self.now }
    {
        self.text.len()
    }

    /// The pattern in normal form.
    pub(crate) fn text(&self) -> &[u8]
        ensures value { result.now ≡ self.now }
        ensures own { normal_pattern self.now ≡ self.now }
    {
        self.text.as_slice()
    }
}

/// Whether a pattern matches a path, both in normal form. The second wildcard is searched for only if the
/// path begins with the text before the first. Takes no memory.
pub fn matches(pattern: &[u8], path: &mut Path<'_, '_>) -> bool
    ensures tells { IsTrue result ↔ Matches pattern.now path.old }
    ensures stays { path.new ≡ path.old }
{
    if pattern.is_empty() {
        return false;
    }
    let (front, anchored) = split_anchor(pattern);
    fits(front, first_star(front), anchored, path)
}

// Whether the pattern, without its anchor, matches the path from its start.
fn fits(pattern: &[u8], star: Star, anchored: bool, path: &mut Path<'_, '_>) -> bool
    requires { IsStarOf pattern.now star }
    ensures tells { IsTrue result ↔ Spells pattern.now anchored path.old }
    ensures stays { path.new ≡ path.old }
{
    match star {
        Star::None => fits_run(pattern, anchored, path.octets()),
        Star::Only(place) => {
            let (literal, after) = split_at_place(pattern, place);
            begins_with(path.octets(), literal) && fits_last(after, anchored, path, literal.len())
        }
        Star::First(place) => {
            let (literal, after) = split_at_place(pattern, place);
            begins_with(path.octets(), literal)
                && fits_after_star(after, anchored, path, literal.len())
        }
    }
}

// Whether a literal matches the path from its start.
fn fits_run(literal: &[u8], anchored: bool, path: &[u8]) -> bool
    requires { HasNoStar literal.now }
    ensures { IsTrue result ↔ Spells literal.now anchored path.now }
{
    begins_with(path, literal) && (!anchored || path[literal.len()..].is_empty())
}

// Whether the pattern, after a wildcard, matches from some octet at or after this place. Each literal is
// taken at its first place: what remains after a later place is a suffix of what remains after that.
fn fits_after_star(pattern: &[u8], anchored: bool, path: &mut Path<'_, '_>, from: usize) -> bool
    requires { from ≤ length path.old }
    ensures tells { IsTrue result ↔ Spells (star ∷ pattern.now) anchored (drop from path.old) }
    ensures stays { path.new ≡ path.old }
{
    let mut left = pattern;
    let mut place = from;
    while let Some((literal, after)) = split_at_star(left) {
        let Some(next) = path.after(literal, place) else {
            return false;
        };
        place = next;
        left = after;
    }
    fits_last(left, anchored, path, place)
}

// Whether the last literal of a pattern matches after a wildcard.
fn fits_last(literal: &[u8], anchored: bool, path: &mut Path<'_, '_>, from: usize) -> bool
    requires plain { HasNoStar literal.now }
    requires within { from ≤ length path.old }
    ensures tells { IsTrue result ↔ Spells (star ∷ literal.now) anchored (drop from path.old) }
    ensures stays { path.new ≡ path.old }
{
    if anchored {
        ends_with(&path.octets()[from..], literal)
    } else {
        path.after(literal, from).is_some()
    }
}
