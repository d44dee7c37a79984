//! A path that patterns are tried on, and where literals occur in it.
//! RFC 9309, section 2.2.3.
ghost use Rattle.std.specs.Prelude.{◌≡◌, ◌≤◌, drop, length, MatchOption};
ghost use Rattle.memchr.specs.Find.{FindsNeedle};
ghost use Rattle.path_pattern.specs.Literals.{IsAfterFirst, StandsNowhere};
ghost use Rattle.path_pattern.specs.Sorted.{ArePlacesOf};

use crate::fronts::{Fronts, count_hints, no_fronts, spell_fronts};
use crate::kept::{Room, Stand, first_in, forget_stands, range_kept};
use crate::literals::first_place;
use crate::next_places::{NextPlaces, next_places, no_next_places};
use crate::slots::{FIRST_SLOTS, SlotDraw};
use crate::suffix_array::SuffixArray;
use std::marker::Model;

/// A path in normal form that patterns are tried on, and the literals searched for in it.
#[derive(Drop)]
pub struct Path<'p, 'k> {
    text: &'p [u8],
    // Its places sorted by suffix, if they were sorted.
    places: &'p [u16],
    // The first octets of the suffixes there.
    fronts: Fronts<'k>,
    // What finds the next of the places.
    next: NextPlaces<'k>,
    kept: &'k mut [Stand],
    draw: SlotDraw,
}

impl<'p, 'k> Model for Path<'p, 'k> {
    ghost use Rattle.std.specs.Prelude.{List, ℕ};

    ghost Value = { List ℕ };

    ghost use Rattle.path_pattern.specs.Fronts.{HasFronts};
    ghost use Rattle.path_pattern.specs.Kept.{AreKept};
    ghost use Rattle.path_pattern.specs.NextPlaces.{AreNextOf};
    ghost use Rattle.path_pattern.specs.Sorted.{ArePlacesOf};

    ghost view = { λ path. path.text.now };

    ghost invariant = { λ path. ArePlacesOf path.text.now path.places.now
        × HasFronts path.text.now path.places.now path.fronts.numbers.now
        × AreNextOf path.places.now path.next
        × AreKept path.text.now path.places.now path.kept.now };
}

impl<'p, 'k> Path<'p, 'k> {
    /// The path without kept literals.
    pub fn new(text: &'p [u8]) -> Path<'p, 'k>
        ensures { result ≡ text.now }
    {
        Path {
            text,
            places: &[],
            fronts: no_fronts(),
            next: no_next_places(),
            kept: &mut [],
            draw: FIRST_SLOTS,
        }
    }

    /// The path with its sorted places, and with room for literals, still empty.
    pub fn with(text: &'p [u8], places: &'p SuffixArray, room: &'k mut Room) -> Path<'p, 'k>
        requires { ArePlacesOf text.now places.now }
        ensures { result ≡ text.now }
    {
        let Room {
            stands,
            fronts: numbers,
            hints,
            indices,
            lasts,
        } = room;
        let places = places.as_slice();
        forget_stands(stands);
        spell_fronts(numbers, text, places);
        count_hints(hints, &numbers[..places.len()]);
        let next = next_places(indices, lasts, places);
        Path {
            text,
            places,
            fronts: Fronts { numbers, hints },
            next,
            kept: stands,
            draw: FIRST_SLOTS,
        }
    }

    /// Its octets.
    pub fn octets(&self) -> &'p [u8]
        ensures { result.now ≡ self.now }
    {
        self.text
    }

    /// The end of the literal's first occurrence from here on.
    pub(crate) fn after(&mut self, literal: &[u8], from: usize) -> Option<usize>
        requires { from ≤ length self.old }
        ensures found { MatchOption result (StandsNowhere (drop from self.old) literal.now)
            (λ next. (next ≤ length self.old)
            × IsAfterFirst (drop from self.old) literal.now (drop next self.old)) }
        ensures stays { self.new ≡ self.old }
    {
        let count = self.octets().len();
        let place = self.first(literal, from)?;
        let left = count - place - literal.len();
        Some(count - left)
    }

    // The literal's first place from here on. Keeps the literal.
    fn first(&mut self, literal: &[u8], from: usize) -> Option<usize>
        requires { from ≤ length self.old }
        ensures finds { FindsNeedle self.old literal.now from result }
        ensures stays { self.new ≡ self.old }
    {
        let (text, places, fronts) = (self.text, self.places, self.fronts);
        if places.is_empty() || literal.is_empty() {
            return first_from(text, literal, from);
        }
        let draw = &mut self.draw;
        let range = range_kept(self.kept, draw, text, places, fronts, literal);
        if from >= text.len() {
            return None;
        }
        first_in(self.next, text, places, literal, range, from as u16)
    }
}

fn first_from(path: &[u8], literal: &[u8], from: usize) -> Option<usize>
    requires { from ≤ length path.now }
    ensures { FindsNeedle path.now literal.now from result }
{
    let place = first_place(&path[from..], literal)?;
    Some(from + place)
}
