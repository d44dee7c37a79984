//! The receipts of a closed desk.
//! A gate is settled with the receipts of all its desks.
ghost use Rattle.std.specs.Prelude.{◌≡◌, ◌↔◌, IsTrue};
ghost use Rattle.gate_ledgers.specs.Accounts.{AreCounted};
ghost use Rattle.gate_marks.specs.Fitting.{Agrees};
ghost use Rattle.gate_marks.specs.Marks.{starts_of};

use crate::ledgers::Gate;
use crate::shares::Mine;
use gate_history::Segment;
use gate_marks::{Mark, MarkList, SealedMarks, marks_agree, starts_among};
use std::marker::Model;

/// The marks of a closed desk, oldest first, and what it kept of sealed entries before them; or what is
/// kept of all entries before the base that a gate continues. If they are dropped, the gate can't be
/// settled any more.
pub struct Receipts<G: Gate> {
    sealed: SealedMarks,
    marks: Vec<Mark>,
    mine: Mine<G>,
}

impl<G: Gate> Model for Receipts<G> {
    ghost use Rattle.gate_marks.specs.Marks.{Receipt};
    ghost use Rattle.gate_ledgers.specs.Accounts.{AreCounted};

    ghost Value = { Receipt };

    ghost view = { λ receipts. record {
      sealed = receipts.sealed;
      marks = receipts.marks.items;
    } };

    ghost invariant = { λ receipts. AreCounted receipts.mine receipts.sealed receipts.marks.items };
}

impl<G: Gate> Drop for Receipts<G> {
    fn drop(self) {
        let Receipts {
            sealed: _,
            marks: _,
            mine,
        } = self;
        mine.end();
    }
}

impl<G: Gate> Receipts<G> {
    // Receipts of these marks, which the shares count.
    pub(crate) fn of(sealed: SealedMarks, marks: Vec<Mark>, mine: Mine<G>) -> Receipts<G>
        requires { AreCounted mine sealed marks.items }
        ensures { result ≡ record { sealed = sealed; marks = marks.items } }
    {
        Receipts {
            sealed,
            marks,
            mine,
        }
    }

    /// What was kept of sealed entries, which precede the marks.
    pub fn sealed(&self) -> &SealedMarks
        ensures { result.now ≡ self.now.sealed }
    {
        &self.sealed
    }

    /// The later marks.
    pub fn marks(&self) -> &[Mark]
        ensures { result.now ≡ self.now.marks }
    {
        self.marks.as_slice()
    }

    /// How many of all these are started fetches.
    pub fn starts(&self) -> u64
        ensures { result ≡ starts_of self.now }
    {
        self.sealed.starts() + starts_among(self.marks.as_slice())
    }

    /// Whether each mark whose place lies in the segment is its entry there. `sealed` has no entries to
    /// compare. Takes no memory.
    pub fn agrees(&self, segment: &Segment) -> bool
        ensures { IsTrue result ↔ Agrees segment.now self.now.marks }
    {
        marks_agree(segment, self.marks.as_slice())
    }
}

impl<G: Gate> MarkList for Receipts<G> {
    ghost receipt = { λ receipts. receipts };

    fn first_places(&self) -> u64 {
        self.sealed.before()
    }

    fn sealed_places(&self) -> &[u64] {
        self.sealed.places()
    }

    fn later_marks(&self) -> &[Mark] {
        self.marks.as_slice()
    }
}
