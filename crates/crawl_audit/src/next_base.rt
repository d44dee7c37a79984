//! The base of a further text: what was read before determines its lines.
//! See docs/FORMATS.md.
ghost use Rattle.std.specs.Prelude.{◌≡◌, ◌<◌, ◌+◌, ◌↔◌, ℕ, All, List, [], ◌∷◌, Some, codes};
ghost use Rattle.std.specs.Prelude.{IfOk, IfSome, IsTrue, length, map, slice_get};
ghost use Rattle.gate_history.specs.History.{History};
ghost use Rattle.gate_history.specs.Legal.{IsLegal};
ghost use Rattle.gate_history.specs.Kept.{base_with};
ghost use Rattle.history_text.specs.BaseFields.{HasBaseFields};
ghost use Rattle.crawl_audit.specs.NextBase.{Expects, IsNextOf, TakesNextLine};
ghost use Rattle.crawl_audit.specs.NextBase.{base_in, lines_behind, row_count};
ghost use Rattle.crawl_audit.specs.Tables.{TellsAll};

use crate::open_state::OpenState;
use gate_history::{LeftOpen, Numbers};
use history_text::TextLine;
use history_text::base_kinds::counts;
use line_text::Pieces;
use std::alloc::{AllocError, Global};

/// The base that must come, and how many of its lines were read.
#[derive(Drop)]
pub(crate) struct NextBase {
    left: LeftOpen,
    numbers: Numbers,
    // Lines behind `V 3`, and how many of them were read.
    count: usize,
    taken: usize,
}

/// How a line compares to the expected line of a base.
#[derive(Clone, Copy, Debug, PartialEq, Eq)]
pub(crate) enum BaseLine {
    /// It is the expected line, and more follow.
    Taken,
    /// It is the expected line and the last one.
    Last,
    /// It is another line.
    Other,
}

impl OpenState {
    pub(crate) fn next_base(&self, alloc: Global) -> Result<NextBase, AllocError>
        ensures { IfOk result (λ next. (h : History) → IsLegal h → TellsAll self.now h
            → Expects next h (codes "V 3" ∷ [])) }
    {
        let numbers = Numbers {
            begins: self.begins,
            moment: self.clock,
            entries: self.entries,
            started: self.started,
        };
        NextBase::of(self.left_open(alloc)?, numbers)
    }
}

impl NextBase {
    // Sorts what was left open into the base with these numbers.
    // Too many lines to count are an allocation error.
    fn of(left: LeftOpen, numbers: Numbers) -> Result<NextBase, AllocError>
        ensures { IfOk result (λ next. IsNextOf left numbers next) }
    {
        let mut left = left;
        left.put_in_order();
        match line_count(&left) {
            Some(count) => {
                know_fields(&left, &numbers);
                Ok(NextBase {
                    left,
                    numbers,
                    count,
                    taken: 0,
                })
            }
            None => {
                drop(left);
                Err(AllocError)
            }
        }
    }

    /// Takes the next line of the base, if it is the expected one.
    pub(crate) fn take(&mut self, line: &[u8]) -> BaseLine
        ensures { (h : History) (lines : List (List ℕ)) → Expects self.old h lines
            → TakesNextLine h lines line.now result self.new }
    {
        // No text has a base of no entries.
        if self.numbers.entries == 0
            || self.taken >= self.count
            || !self.is_line_at(self.taken, line)
        {
            return BaseLine::Other;
        }
        self.taken += 1;
        if self.taken == self.count {
            BaseLine::Last
        } else {
            BaseLine::Taken
        }
    }

    // Whether this is the line at the place, counted behind `V 3`.
    fn is_line_at(&self, place: usize, line: &[u8]) -> bool
        ensures { IsTrue result
            ↔ (slice_get (lines_behind (base_in self.now)) place ≡ Some line.now) }
    {
        if place == 0 {
            return counts(self.numbers).is(line);
        }
        let left = &self.left;
        let place = place - 1;
        let answers = left.standing.len();
        if place < answers {
            return is_row_at(left.standing.as_slice(), "", place, line);
        }
        let place = place - answers;
        let turns = left.in_flight.len();
        if place < turns {
            return is_row_at(left.in_flight.as_slice(), "", place, line);
        }
        let place = place - turns;
        let grants = left.grants.len();
        if place < grants {
            return is_row_at(left.grants.as_slice(), "", place, line);
        }
        let place = place - grants;
        let permits = left.unspent.len();
        if place < permits {
            return is_row_at(left.unspent.as_slice(), "U", place, line);
        }
        let place = place - permits;
        let runs = left.running.len();
        if place < runs {
            return is_row_at(left.running.as_slice(), "Y", place, line);
        }
        place == runs && Pieces::whole("E").is(line)
    }
}

fn is_row_at<T: TextLine>(rows: &[T], letter: &'static str, place: usize, line: &[u8]) -> bool
    requires { place < length rows.now }
    ensures { IsTrue result
        ↔ (slice_get (map (T.line letter.now) rows.now) place ≡ Some line.now) }
{
    rows[place].pieces(letter).is(line)
}

// How many lines a base has behind `V 3`; none on overflow.
fn line_count(left: &LeftOpen) -> Option<usize>
    ensures { IfSome result (λ count. count ≡ row_count left.now + 2) }
{
    let answers = left.standing.len();
    let turns = answers.checked_add(left.in_flight.len())?;
    let grants = turns.checked_add(left.grants.len())?;
    let unspent = grants.checked_add(left.unspent.len())?;
    let running = unspent.checked_add(left.running.len())?;
    running.checked_add(2)
}

// Goes over a base's contents, so that a clause knows that its fields are those of lines.
fn know_fields(left: &LeftOpen, numbers: &Numbers)
    ensures { HasBaseFields (base_with left.now numbers.now) }
{
    know_rows(left.standing.as_slice());
    know_rows(left.in_flight.as_slice());
    know_rows(left.grants.as_slice());
    know_rows(left.unspent.as_slice());
    know_rows(left.running.as_slice());
    let _ = counts(*numbers);
}

fn know_rows<T: TextLine>(rows: &[T])
    ensures { All T.has_fields rows.now }
{
    for row in rows {
        let _ = row.pieces("");
    }
}
