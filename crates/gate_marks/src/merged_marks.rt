//! The places of all lists of marks, merged: whether each is found once.
//! Each list ascends, so the next place is the first of some list. A range of first places is skipped at
//! once.
ghost use Rattle.std.specs.Prelude.{◌≡◌, ◌<◌, ◌∷◌, ◌↔◌, ◌⊎◌, ℕ, [], IfOk, IfNone, IfSome, IsTrue, false, map, true};
ghost use Rattle.gate_marks.specs.Marks.{kept_places, places_of};
ghost use Rattle.gate_marks.specs.Ranges.{AreFirst};
ghost use Rattle.gate_marks.specs.Places.{AllAscend, AllEmpty, Ascend, BeginsFrom, EachOnce, EachOnceFrom, IsBefore, IsNext, IsNextOfNone, Passes};

use crate::mark::Mark;
use crate::mark_list::MarkList;
use std::alloc::{AllocError, Global};
use std::marker::Model;

// The single places of a list that were not passed yet.
#[derive(Drop)]
pub(crate) struct MergedMarks<'a> {
    sealed: &'a [u64],
    marks: &'a [Mark],
}

impl<'a> Model for MergedMarks<'a> {
    ghost use Rattle.std.specs.Prelude.{List, ℕ, ◌++◌, map};

    ghost Value = { List ℕ };

    ghost view = { λ places. places.sealed.now ++ map (λ mark. mark.place) places.marks.now };
}

impl<'a> MergedMarks<'a> {
    fn of<T: MarkList>(list: &'a T) -> MergedMarks<'a>
        ensures { result ≡ kept_places (T.receipt list.now) }
    {
        MergedMarks {
            sealed: list.sealed_places(),
            marks: list.later_marks(),
        }
    }

    fn split(self) -> Option<(u64, MergedMarks<'a>)>
        ensures some { IfSome result (λ pair. self.entry ≡ pair.0 ∷ pair.1) }
        ensures none { IfNone result (self.entry ≡ []) }
    {
        let MergedMarks { sealed, marks } = self;
        if let [place, sealed @ ..] = sealed {
            return Some((*place, MergedMarks { sealed, marks }));
        }
        let [mark, marks @ ..] = marks else {
            return None;
        };
        Some((mark.place, MergedMarks { sealed, marks }))
    }

    fn next(&self) -> Option<u64>
        ensures some { IfSome result (λ place. IsNext place self.now) }
        ensures none { IfNone result (self.now ≡ []) }
    {
        if let [place, ..] = self.sealed {
            return Some(*place);
        }
        let [mark, ..] = self.marks else {
            return None;
        };
        Some(mark.place)
    }

    fn begin_from(&self, first: u64) -> bool
        ensures { IsTrue result ↔ BeginsFrom first self.now }
    {
        match self.next() {
            Some(next) => first <= next,
            None => true,
        }
    }

    fn are_behind(&self, place: u64) -> bool
        ensures { IsTrue result ↔ IsBefore place self.now }
    {
        match self.next() {
            Some(next) => place < next,
            None => true,
        }
    }

    fn pass(&mut self, place: u64) -> bool
        ensures yes { result ≡ true → (self.old ≡ place ∷ self.new) }
        ensures no { result ≡ false → (self.new ≡ self.old) × (IsNext place self.old → ⊥) }
    {
        if self.next() != Some(place) {
            return false;
        }
        if let [_, sealed @ ..] = self.sealed {
            self.sealed = sealed;
        } else if let [_, marks @ ..] = self.marks {
            self.marks = marks;
        }
        true
    }
}

pub(crate) fn ascend<T: MarkList>(list: &T) -> bool
    ensures { IsTrue result ↔ Ascend (places_of (T.receipt list.now)) }
{
    let kept = MergedMarks::of(list);
    kept.begin_from(list.first_places()) && all_ascend(kept)
}

fn all_ascend(places: MergedMarks<'_>) -> bool
    ensures { IsTrue result ↔ Ascend places.entry }
{
    let mut rest = places;
    while let Some((place, after)) = rest.split() {
        if !after.are_behind(place) {
            return false;
        }
        rest = after;
    }
    true
}

// Whether the places of all lists, each ascending, are all those below a number, each once.
pub(crate) fn each_once<T: MarkList>(
    alloc: Global,
    count: u64,
    all: &[T],
) -> Result<bool, AllocError>
    requires { AllAscend (map places_of (map T.receipt all.now)) }
    ensures { IfOk result (λ once. IsTrue once
        ↔ EachOnce count (map places_of (map T.receipt all.now))) }
{
    let Some(first) = first_of_all(all) else {
        return Ok(false);
    };
    let mut left = kept_of_all(alloc, all)?;
    Ok(merge(&mut left, first, count))
}

// How many of the first places the lists have as a range. `None` if two have such a range, since the first
// place is then there twice.
fn first_of_all<T: MarkList>(all: &[T]) -> Option<u64>
    ensures some { IfSome result (λ first. AreFirst first (map T.receipt all.now)) }
    ensures none { IfNone result ((count : ℕ)
        → EachOnce count (map places_of (map T.receipt all.now)) → ⊥) }
{
    let mut first = 0;
    for list in all {
        first = only_one(first, list.first_places())?;
    }
    Some(first)
}

// The one that is not 0, if any.
fn only_one(first: u64, before: u64) -> Option<u64>
    ensures some { IfSome result (λ one.
        ((before ≡ 0) × (one ≡ first)) ⊎ ((first ≡ 0) × (one ≡ before))) }
    ensures none { IfNone result ((0 < first) × (0 < before)) }
{
    if before == 0 {
        return Some(first);
    }
    if first == 0 {
        return Some(before);
    }
    None
}

fn kept_of_all<'a, T: MarkList>(
    alloc: Global,
    all: &'a [T],
) -> Result<Vec<MergedMarks<'a>>, AllocError>
    ensures { IfOk result (λ left. left.items ≡ map kept_places (map T.receipt all.now)) }
{
    let mut left = Vec::with_capacity(alloc, all.len())?;
    let mut rest = all;
    while let [list, after @ ..] = rest {
        left.push_reserved(MergedMarks::of(list));
        rest = after;
    }
    Ok(left)
}

// Passes each place from the first one up to a number in turn; whether nothing is left then.
fn merge(left: &mut [MergedMarks<'_>], first: u64, count: u64) -> bool
    requires { AllAscend left.old }
    ensures { IsTrue result ↔ EachOnceFrom first count left.old }
{
    if first > count {
        return false;
    }
    let mut place = first;
    while place < count {
        if !pass_one(left, place) {
            return false;
        }
        place += 1;
    }
    are_empty(left)
}

fn pass_one(left: &mut [MergedMarks<'_>], place: u64) -> bool
    ensures yes { result ≡ true → Passes place left.old left.new }
    ensures no { result ≡ false → IsNextOfNone place left.old }
{
    let mut index = 0;
    while index < left.len() {
        if left[index].pass(place) {
            return true;
        }
        index += 1;
    }
    false
}

fn are_empty(left: &[MergedMarks<'_>]) -> bool
    ensures { IsTrue result ↔ AllEmpty left.now }
{
    let mut rest = left;
    while let [places, after @ ..] = rest {
        if places.next().is_some() {
            return false;
        }
        rest = after;
    }
    true
}
