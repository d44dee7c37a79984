//! The arrival of the answer to a turn.
//! RFC 9309, section 2.3.1.
ghost use Rattle.std.specs.Prelude.{◌≡◌, ℕ, ◌<◌, List, Some, OnErr, length, slice_get};
ghost use Rattle.authority_cache.specs.Calls.{Arrives};
ghost use Rattle.authority_cache.specs.Ends.{Covers, CoversBut, KeptEnds};
ghost use Rattle.authority_cache.specs.Kept.{AllKnown, known_in, said_entries};
ghost use Rattle.authority_cache.specs.Sites.{State};

use crate::cache::{Cache, Sites};
use crate::ends::keep_end;
use crate::life::TimedAnswer;
use crate::refusal::Stale;
use crate::turn::TurnNo;
use path_normal::Authority;
use robots_verdict::Answer;

impl Cache {
    /// Ends a turn; its answer replaces the authority's earlier one. Takes no memory and does not free the
    /// earlier answer: see `take_replaced`.
    pub fn arrive(
        &mut self,
        authority: &Authority,
        turn: TurnNo,
        answer: TimedAnswer,
    ) -> Result<(), Stale>
        ensures { Arrives self.old authority.now turn answer result self.new }
    {
        let Some(index) = self.find(authority.text()).index else {
            return Err(Stale);
        };
        close(&mut self.sites, index, turn, answer, &mut self.replaced)?;
        keep_end(&self.sites, &mut self.ends, index);
        self.flights -= 1;
        Ok(())
    }

    /// The answer that the last arrival replaced, once. An index has megabytes, not to be freed while
    /// others wait for the cache.
    pub fn take_replaced(&mut self) -> Option<Answer>
        ensures { self.new ≡ self.old }
    {
        self.replaced.take()
    }
}

// Ends a turn at the site of this index; the answer that it replaces goes to `replaced`.
fn close(
    sites: &mut Sites,
    index: usize,
    turn: TurnNo,
    answer: TimedAnswer,
    replaced: &mut Option<Answer>,
) -> Result<(), Stale>
    requires all { AllKnown sites.old.entries }
    requires within { index < length sites.old.entries }
    ensures reply { (limit : ℕ) (e : List ℕ × State)
        → slice_get (said_entries sites.old.entries) index ≡ Some e
        → Arrives (known_in limit sites.old.entries) e.0 turn answer result
        (known_in limit sites.new.entries) }
    ensures same { OnErr result (sites.new.entries ≡ sites.old.entries) }
    ensures known { AllKnown sites.new.entries }
    ensures others { (kept : KeptEnds) → Covers kept sites.old.entries
        → CoversBut index kept sites.new.entries }
{
    match sites.get_index_mut(index) {
        Some(site) => site.arrive(turn, answer, replaced),
        None => Err(Stale),
    }
}
