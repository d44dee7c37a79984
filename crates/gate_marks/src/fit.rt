//! `marks_fit` and `lists_fit`: whether lists of marks are a history.
//! Each mark is compared with its entry, and each place is found once.
ghost use Rattle.std.specs.Prelude.{◌+◌, ◌^◌, ◌<◌, ◌↔◌, IfOk, IsTrue, length, map};
ghost use Rattle.gate_marks.specs.Fitting.{AreEntries, EachFits, Fits, IsEntryAt, MarksFit};
ghost use Rattle.gate_marks.specs.Marks.{AreSealed, alone};

use crate::agree::agrees_at;
use crate::mark::Mark;
use crate::mark_list::MarkList;
use crate::merged_marks::{ascend, each_once};
use gate_history::Entry;
use std::alloc::{AllocError, Global};

/// Whether the places of all lists are all places of the history, each once and ascending in each list, and
/// each mark is its entry. The first `sealed` entries have places, but their marks are not compared. Takes
/// a few words of memory for each list, none for an entry.
pub fn marks_fit(
    alloc: Global,
    sealed: u64,
    history: &[Entry],
    all: &[&[Mark]],
) -> Result<bool, AllocError>
    requires { sealed + length history.now < 2 ^ 64 }
    ensures { IfOk result (λ fit. IsTrue fit
        ↔ MarksFit sealed history.now (map (λ marks. alone marks.now) all.now)) }
{
    lists_fit(alloc, sealed, history, all)
}

/// `marks_fit` over anything that has marks. Of sealed entries it may have the places only.
pub fn lists_fit<T: MarkList>(
    alloc: Global,
    sealed: u64,
    history: &[Entry],
    all: &[T],
) -> Result<bool, AllocError>
    requires { sealed + length history.now < 2 ^ 64 }
    ensures { IfOk result (λ fit. IsTrue fit
        ↔ MarksFit sealed history.now (map T.receipt all.now)) }
{
    if !each_fits(sealed, history, all) {
        return Ok(false);
    }
    each_once(alloc, sealed + history.len() as u64, all)
}

fn each_fits<T: MarkList>(sealed: u64, history: &[Entry], all: &[T]) -> bool
    ensures { IsTrue result ↔ EachFits sealed history.now (map T.receipt all.now) }
{
    let mut rest = all;
    while let [list, after @ ..] = rest {
        if !fits(sealed, history, list) {
            return false;
        }
        rest = after;
    }
    true
}

// Whether the places ascend, each mark is its entry, and only sealed entries have a place without a mark.
fn fits<T: MarkList>(sealed: u64, history: &[Entry], list: &T) -> bool
    ensures { IsTrue result ↔ Fits sealed history.now (T.receipt list.now) }
{
    list.first_places() <= sealed
        && ascend(list)
        && are_sealed(sealed, list.sealed_places())
        && are_entries(sealed, history, list.later_marks())
}

fn are_sealed(sealed: u64, places: &[u64]) -> bool
    ensures { IsTrue result ↔ AreSealed sealed places.now }
{
    let mut rest = places;
    while let [place, after @ ..] = rest {
        if *place >= sealed {
            return false;
        }
        rest = after;
    }
    true
}

fn are_entries(sealed: u64, history: &[Entry], marks: &[Mark]) -> bool
    ensures { IsTrue result ↔ AreEntries sealed history.now marks.now }
{
    let mut rest = marks;
    while let [mark, after @ ..] = rest {
        if !is_entry(sealed, history, mark) {
            return false;
        }
        rest = after;
    }
    true
}

// Whether the mark is the entry at its place, or that place is sealed. Places after the history have no
// entry.
fn is_entry(sealed: u64, history: &[Entry], mark: &Mark) -> bool
    ensures { IsTrue result ↔ IsEntryAt sealed history.now mark.now }
{
    (mark.place < sealed || mark.place - sealed < history.len() as u64)
        && agrees_at(sealed, history, mark)
}
