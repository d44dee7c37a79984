//! Laws of answers by replies, and of steps over replies.
//! RFC 9309, sections 2.3.1.1 to 2.3.1.5.
ghost use Rattle.robots_fetch.specs.Laws.{DecidedOnce, GoesOnFiveTimes, GoesWhereTheyLead};
ghost use Rattle.robots_fetch.specs.Laws.{IsDoneWithAnswer, OneAnswer, StepsAsDecided};

/// Replies decide at most one answer with one lifetime.
pub fn one_answer()
    ensures { OneAnswer }
{}

/// At most one prefix of some replies decides.
pub fn decided_once()
    ensures { DecidedOnce }
{}

/// A walk over replies is done only if they decide, with their answer.
pub fn done_with_the_answer()
    ensures { IsDoneWithAnswer }
{}

/// A walk over replies that decide goes on before the last, which ends it with their answer.
pub fn steps_as_decided()
    ensures { StepsAsDecided }
{}

/// A walk that goes on has the URL to which its replies lead.
pub fn goes_where_they_lead()
    ensures { GoesWhereTheyLead }
{}

/// A walk goes on after at most five replies.
pub fn goes_on_five_times()
    ensures { GoesOnFiveTimes }
{}
