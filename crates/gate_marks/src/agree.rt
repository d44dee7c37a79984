//! Whether marks are the entries at their places, as far as those are at hand.
//! Used for a segment of a history, and for the whole of it.
ghost use Rattle.std.specs.Prelude.{◌-◌, ◌<◌, ◌≤◌, ◌≡◌, ◌↔◌, IfSome, IsTrue};
ghost use Rattle.std.specs.List.{slice_get};
ghost use Rattle.std.specs.Option.{option_map};
ghost use Rattle.gate_marks.specs.Fitting.{Agrees, AgreesFrom};

use crate::mark::Mark;
use gate_history::{Entry, Segment};

/// Whether each mark whose place lies in the segment is its entry there.
pub fn marks_agree(segment: &Segment, marks: &[Mark]) -> bool
    ensures { IsTrue result ↔ Agrees segment.now marks.now }
{
    let sealed = segment.base().entries();
    let entries = segment.entries();
    let mut rest = marks;
    while let [mark, after @ ..] = rest {
        if !agrees_at(sealed, entries, mark) {
            return false;
        }
        rest = after;
    }
    true
}

// Whether the mark is the entry at its place, or its place is not among these entries, which follow
// `sealed` others.
pub(crate) fn agrees_at(sealed: u64, entries: &[Entry], mark: &Mark) -> bool
    ensures { IsTrue result ↔ AgreesFrom sealed entries.now mark.now }
{
    match entry_at(sealed, entries, mark.place) {
        Some(entry) => mark.entry.is(entry),
        None => true,
    }
}

fn entry_at(sealed: u64, entries: &[Entry], place: u64) -> Option<&Entry>
    ensures below { place < sealed → IfSome result (λ _. ⊥) }
    ensures there { sealed ≤ place → option_map (λ entry. entry.now) result
        ≡ slice_get entries.now (place - sealed) }
{
    let index = place.checked_sub(sealed)?;
    entries.get(index as usize)
}
