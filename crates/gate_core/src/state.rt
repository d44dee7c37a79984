//! What is known of an authority, and its policy in force.
//! RFC 9309, sections 2.3.1 and 2.4.
ghost use Rattle.std.specs.Prelude.{◌≡◌, IfSome};
ghost use Rattle.std.specs.Arc.{arc_value};
ghost use Rattle.robots_verdict.specs.Answer.{said};
ghost use Rattle.gate_core.specs.Gate.{history};
ghost use Rattle.gate_core.specs.Replies.{moment_at};
ghost use Rattle.gate_core.specs.States.{HasRulesInForce, IsState, standing_as};

use crate::book::Book;
use authority_cache::Look;
use robots_verdict::{Answer, Policy};
use std::sync::Arc;

/// The state of an authority's answer.
#[derive(Clone, Copy, Debug, PartialEq, Eq)]
pub enum Standing {
    /// There is no answer.
    Unknown,
    /// The answer is older than its life.
    Expired,
    /// The answer in force is closed.
    Closed,
    /// The answer in force is open.
    Open,
    /// The answer in force has rules.
    Rules,
}

/// What is known of an authority.
#[derive(Clone, Copy, Debug, PartialEq, Eq)]
pub struct State {
    /// The state of the answer.
    pub word: Standing,
    /// Whether a turn is in flight.
    pub fetching: bool,
}

impl Standing {
    /// The state while an answer is in force.
    pub fn of(answer: &Answer) -> Standing
        ensures { result ≡ standing_as (said answer.now) }
    {
        match answer {
            Answer::Rules(_) => Standing::Rules,
            Answer::Open(_) => Standing::Open,
            Answer::Closed(_) => Standing::Closed,
        }
    }
}

impl Book {
    /// What is known of an authority at the moment of the call. It allocates nothing.
    pub fn state_of(&self, authority: &str, moment: u64) -> State
        ensures { IsState (history self.now) authority.now (moment_at self.now moment) result }
    {
        let moment = self.moment_of_call(moment);
        let found = self.cache.find(authority);
        let word = match self.cache.look_at(found, moment) {
            Look::Unknown => Standing::Unknown,
            Look::Expired => Standing::Expired,
            Look::InForce(answer) => Standing::of(answer),
        };
        State {
            word,
            fetching: found.is_fetching(),
        }
    }

    /// A handle of the policy in force, if its verdicts are slow. None if a handle was refused.
    pub fn slow_hint(&self, authority: &str, moment: u64) -> Option<Arc<Policy>>
        ensures { IfSome result (λ policy. HasRulesInForce (history self.now) authority.now
            (moment_at self.now moment) (arc_value policy)) }
    {
        let policy = self.hint(authority, moment)?;
        if policy.is_slow() { Some(policy) } else { None }
    }

    /// A handle of the policy in force. None if it was refused.
    pub fn hint(&self, authority: &str, moment: u64) -> Option<Arc<Policy>>
        ensures { IfSome result (λ policy. HasRulesInForce (history self.now) authority.now
            (moment_at self.now moment) (arc_value policy)) }
    {
        let moment = self.moment_of_call(moment);
        match self.cache.look(authority, moment) {
            Look::InForce(Answer::Rules(rules)) => rules.handle().ok(),
            _ => None,
        }
    }
}
