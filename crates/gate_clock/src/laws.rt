//! Laws of the clock: what it keeps wherever the wall clock is set.
//! RFC 9309, section 2.4.
ghost use Rattle.std.specs.Prelude.{ℕ, List};
ghost use Rattle.gate_clock.specs.declared.moments.ClockReading.{ClockReading as Shown};
ghost use Rattle.gate_clock.specs.Laws.{EndsAll, IsSteady, LastsADay};

/// The moments are never behind the wall clock, nor behind an earlier moment and the seconds of the steady
/// clock since.
pub fn the_clock_is_steady()
    ensures { (epoch ahead : ℕ) (before : List Shown) (one : Shown) (between : List Shown)
        (other : Shown) → IsSteady epoch ahead before one between other }
{}

/// Between the fetch of a robots.txt and a start that it allows lies at most a day of the steady clock.
pub fn an_answer_lasts_a_day()
    ensures { LastsADay }
{}

/// Where the wall clock was set back before a gate goes on, no answer of before allows a start.
pub fn no_answer_of_before_lasts()
    ensures { EndsAll }
{}
