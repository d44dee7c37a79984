//! What is known of one authority.
//! RFC 9309, sections 2.3.1 and 2.4.
ghost use Rattle.std.specs.Prelude.{◌≡◌, ◌↔◌, true, IsOk, OnErr, OnOk};
ghost use Rattle.authority_cache.specs.Ends.{last_moment};
ghost use Rattle.authority_cache.specs.Sites.{arrived, has_past, has_turn, is_known, is_past, said_site, said_cached, with_flight};

use crate::life::TimedAnswer;
use crate::refusal::Stale;
use crate::turn::TurnNo;
use path_normal::Authority;
use robots_verdict::Answer;

/// A turn in flight.
#[derive(Clone, Copy, Debug, PartialEq, Eq)]
pub struct Flight {
    /// The number of the turn.
    pub turn: TurnNo,
    /// The moment when it began, in seconds.
    pub begun: u64,
}

/// An answer.
#[derive(Drop)]
pub struct CachedAnswer {
    /// The turn that brought it.
    pub turn: TurnNo,
    /// When that turn began, in seconds; its age counts from then.
    pub begun: u64,
    /// The greatest age in force, in seconds.
    pub life: u64,
    /// The answer.
    pub answer: Answer,
}

/// What is known of an authority.
#[derive(Drop)]
pub struct Site {
    /// The authority, whose text the lists that outlive the cache share.
    pub name: Authority,
    /// Its answer.
    pub standing: Option<CachedAnswer>,
    /// Its turn in flight.
    pub in_flight: Option<Flight>,
}

impl CachedAnswer {
    /// Whether it is older than its lifetime at this moment.
    pub fn is_past(&self, moment: u64) -> bool
        ensures { result ≡ is_past moment (said_cached self.now) }
    {
        moment.saturating_sub(self.begun) > self.life
    }

    /// The last moment at which it is in force.
    pub fn last_moment(&self) -> u64
        ensures { result ≡ last_moment (said_cached self.now) }
    {
        self.begun.saturating_add(self.life)
    }
}

impl Site {
    /// Whether it has an answer or a turn in flight.
    pub fn is_known(&self) -> bool
        ensures { result ≡ is_known (said_site self.now) }
    {
        self.standing.is_some() || self.in_flight.is_some()
    }

    /// Whether the turn of this number is in flight.
    pub fn has_turn(&self, turn: TurnNo) -> bool
        ensures { result ≡ has_turn turn (said_site self.now) }
    {
        match &self.in_flight {
            Some(flight) => flight.turn == turn,
            None => false,
        }
    }

    /// Whether the answer is older than its lifetime.
    pub fn has_past(&self, moment: u64) -> bool
        ensures { result ≡ has_past moment (said_site self.now) }
    {
        match &self.standing {
            Some(standing) => standing.is_past(moment),
            None => false,
        }
    }

    /// Begins a turn.
    pub fn begin(&mut self, flight: Flight)
        ensures begun { said_site self.new ≡ with_flight flight (said_site self.old) }
        ensures name { self.new.name ≡ self.old.name }
    {
        self.in_flight = Some(flight);
    }

    /// Ends that turn; the answer that it replaces goes to `replaced`.
    pub fn arrive(
        &mut self,
        turn: TurnNo,
        answer: TimedAnswer,
        replaced: &mut Option<Answer>,
    ) -> Result<(), Stale>
        ensures turn { IsOk result ↔ (has_turn turn (said_site self.old) ≡ true) }
        ensures ok { OnOk result (said_site self.new
            ≡ arrived turn answer.says answer.life (said_site self.old)) }
        ensures name { self.new.name ≡ self.old.name }
        ensures err { OnErr result (self.new ≡ self.old) }
    {
        let in_flight = self.in_flight;
        match in_flight {
            Some(flight) if flight.turn == turn => {
                let (answer, life) = answer.into_parts();
                let stood = self.standing.replace(CachedAnswer {
                    turn,
                    begun: flight.begun,
                    life,
                    answer,
                });
                *replaced = stood.map(|cached| cached.answer);
                self.in_flight = None;
                Ok(())
            }
            _ => Err(Stale),
        }
    }
}
