//! Laws of histories, some of legal ones only.
//! RFC 9309, sections 2.3.1 and 2.4.
ghost use Rattle.gate_history.specs.Laws.{AboveIsNew, DecideAlike, DecidesOnce, EachEntryCounts};
ghost use Rattle.gate_history.specs.Laws.{EachStandsOnce, GoOnAlike, GrantedIsCovered};
ghost use Rattle.gate_history.specs.Laws.{KeysSayAlike, KnownAreCounted, LeadsToBase, LegalAhead, LegalBehind};
ghost use Rattle.gate_history.specs.Laws.{LivesAreBounded, NamesAreKnown, NextIsNew};
ghost use Rattle.gate_history.specs.Laws.{NoLaterEntryCloses, OneMore, ReorderingSaysAlike, SaysBase};
ghost use Rattle.gate_history.specs.Laws.{SayingAnswersAlike, SealSaysAlike};

/// Turns in flight, answers, permits and runs are exactly those that were opened and that no later entry
/// closes.
pub fn no_later_entry_closes()
    ensures one_more { OneMore }
    ensures left_open { NoLaterEntryCloses }
{}

/// A legal history leads to a base that says the same: all that follows is answered alike
/// (`order_changes_nothing`).
pub fn sealing_changes_nothing()
    ensures base { LeadsToBase }
    ensures says { SealSaysAlike }
{}

/// Histories whose lists have the same elements, in any order, answer and continue alike.
pub fn order_changes_nothing()
    ensures keys { KeysSayAlike }
    ensures reordered { ReorderingSaysAlike }
    ensures base { SaysBase }
    ensures goes_on { GoOnAlike }
    ensures answers { SayingAnswersAlike }
    ensures decides { DecideAlike }
{}

/// What is legal over a base is legal over each history that says the same; the converse if each grant is
/// above its slot's.
pub fn order_keeps_legal()
    ensures behind { LegalBehind }
    ensures ahead { LegalAhead }
{}

/// A number with a generation above those granted in its slot is new, and so is the next number.
pub fn grants_are_covered()
    ensures granted { GrantedIsCovered }
    ensures above { AboveIsNew }
    ensures next { NextIsNew }
{}

/// No fetch is both allowed and denied, or decided by two lines.
pub fn each_fetch_is_decided_once()
    ensures { DecidesOnce }
{}

/// A legal history has nothing twice, and no answer for more than 24 hours.
pub fn each_stands_once()
    ensures once { EachStandsOnce }
    ensures lives { LivesAreBounded }
{}

/// A legal history knows as many authorities as it counts.
pub fn known_are_counted()
    ensures names { NamesAreKnown }
    ensures counted { KnownAreCounted }
{}

/// What each kind of entry adds to and takes from the counts of entries, started fetches, unspent and
/// running permits, and turns in flight.
pub fn each_entry_counts()
    ensures { EachEntryCounts }
{}
