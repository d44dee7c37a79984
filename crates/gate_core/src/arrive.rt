//! `Book::arrive`: the answer that a turn brought.
//! RFC 9309, section 2.3.1.
ghost use Rattle.std.specs.Prelude.{◌≡◌, ◌<◌};
ghost use Rattle.gate_core.specs.Replies.{Arrives};

use crate::book::Book;
use authority_cache::{Stale, TimedAnswer, TurnNo};
use gate_history::Entry;
use path_normal::Authority;
use robots_verdict::Answer;

impl Book {
    /// Takes a turn's answer, which now replaces the authority's older one. It allocates nothing except a
    /// spare of the answer; `take_replaced` gives the older one to free.
    pub fn arrive(
        &mut self,
        authority: &Authority,
        turn: TurnNo,
        answer: TimedAnswer,
        moment: u64,
    ) -> Result<(), Stale>
        requires { 0 < answer.spares }
        ensures { Arrives self.old authority.now turn answer moment result self.new }
    {
        let moment = self.moment_of_call(moment);
        let mut standing = answer;
        let twin = standing.twin();
        let life = twin.life();
        let says = twin.into_said();
        self.cache.arrive(authority, turn, standing)?;
        let Some(name) = self.names.take(turn) else {
            unreachable!()
        };
        self.entries.push_reserved(Entry::Arrived {
            moment,
            authority: name,
            turn,
            says,
            life,
        });
        self.clock = moment;
        Ok(())
    }

    /// The last replaced answer, to be freed outside the lock.
    pub fn take_replaced(&mut self) -> Option<Answer>
        ensures { self.new ≡ self.old }
    {
        self.cache.take_replaced()
    }
}
