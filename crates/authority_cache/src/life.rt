//! How long an answer is in force.
//! RFC 9309, section 2.4.
ghost use Rattle.std.specs.Prelude.{◌≡◌, ◌+◌, ◌<◌, ◌≤◌};
ghost use Rattle.robots_verdict.specs.Answer.{said, spares_of};
ghost use Rattle.authority_cache.specs.Lives.{IsOwnLife, behind_twin, life_of, timed, twin_of};

use robots_verdict::{Answer, Policy, Said};
use std::marker::Model;
use std::sync::Arc;

/// The longest lifetime of an answer in seconds: 24 hours.
pub const LIFE: u64 = 86_400;

/// The shortest lifetime of rules in seconds.
pub const LEAST_LIFE: u64 = 60;

/// The lifetime of an answer whose reply asked for `asked` seconds: rules from 60 to 86,400, other answers
/// always 86,400.
pub fn life_of(answer: &Answer, asked: u64) -> u64
    ensures { result ≡ life_of (said answer.now) asked }
{
    match answer {
        Answer::Rules(_) => asked.min(LIFE).max(LEAST_LIFE),
        Answer::Open(_) | Answer::Closed(_) => LIFE,
    }
}

/// An answer with its lifetime in seconds.
#[derive(Drop)]
pub struct TimedAnswer {
    answer: Answer,
    life: u64,
}

impl Model for TimedAnswer {
    ghost use Rattle.std.specs.Prelude.{◌≡◌};
    ghost use Rattle.robots_verdict.specs.Answer.{said, spares_of};
    ghost use Rattle.authority_cache.specs.Lives.{Timed, life_of};

    ghost Value = { Timed };

    ghost view = { λ t. record {
      says = said t.answer;
      spares = spares_of t.answer;
      life = t.life;
    } };

    ghost invariant = { λ t. life_of (said t.answer) t.life ≡ t.life };
}

impl TimedAnswer {
    /// The answer of a reply that asked for a lifetime of `asked` seconds.
    pub fn new(answer: Answer, asked: u64) -> TimedAnswer
        ensures { result ≡ timed answer asked }
    {
        TimedAnswer {
            life: life_of(&answer, asked),
            answer,
        }
    }

    /// The answer.
    pub fn answer(&self) -> &Answer
        ensures says { said result.now ≡ self.now.says }
        ensures spares { spares_of result.now ≡ self.now.spares }
    {
        &self.answer
    }

    /// Its lifetime in seconds.
    pub fn life(&self) -> u32
        ensures life { result ≡ self.now.life }
        ensures own { IsOwnLife self.now }
    {
        self.life as u32
    }

    /// How many twins it can still give.
    pub fn spares(&self) -> u8
        ensures { result ≡ self.now.spares }
    {
        self.answer.spares()
    }

    /// An answer that says the same, with the same lifetime. Takes no memory, but a spare if it has rules.
    pub fn twin(&mut self) -> TimedAnswer
        requires { 0 < self.old.spares }
        ensures twin { result ≡ twin_of self.old }
        ensures behind { self.new ≡ behind_twin self.old }
        ensures spends { self.old.spares ≤ self.new.spares + 1 }
    {
        TimedAnswer {
            answer: self.answer.twin(),
            life: self.life,
        }
    }

    /// Replaces its policy by this one, if the text is the same and no twin was given. Its meaning stays.
    pub fn share(&mut self, policy: Arc<Policy>)
        ensures { self.new ≡ self.old }
    {
        self.answer.share(policy);
    }

    /// The answer and its lifetime.
    pub fn into_parts(self) -> (Answer, u64)
        ensures says { said result.0 ≡ self.says }
        ensures spares { spares_of result.0 ≡ self.spares }
        ensures life { result.1 ≡ self.life }
        ensures own { IsOwnLife self }
    {
        (self.answer, self.life)
    }

    /// What it says, for a history to keep. Takes no memory.
    pub fn into_said(self) -> Said
        ensures { result ≡ self.says }
    {
        self.answer.into_said()
    }
}
