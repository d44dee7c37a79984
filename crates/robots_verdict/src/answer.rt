//! The result of a robots fetch.
//! RFC 9309, section 2.3.1.
ghost use Rattle.std.specs.Prelude.{◌≡◌, ◌<◌, IfOk};
ghost use Rattle.robots_verdict.specs.Answer.{said, spares_behind, spares_of, spares_of_twin};

use crate::policy::Policy;
use crate::rules::Rules;
use crate::said::Said;
use robots_text::RobotsText;
use std::alloc::{AllocError, Global};
use std::sync::Arc;

/// The answer of an authority's robots.txt. Answers are equal if they say the same.
#[derive(Drop, PartialEq, Eq)]
pub enum Answer {
    /// The rules of the robots.txt apply.
    Rules(Rules),
    /// No robots.txt applies: every page may be fetched.
    Open(Opening),
    /// The robots.txt can't be fetched or read: no page may be fetched.
    Closed(Closure),
}

/// Why an answer is open (RFC 9309, sections 2.3.1.2 and 2.3.1.3).
#[derive(Clone, Copy, Debug, PartialEq, Eq)]
pub enum Opening {
    /// A status from 400 to 499.
    Unavailable,
    /// A sixth redirect instead of the file.
    TooManyRedirects,
}

/// Why an answer is closed (RFC 9309, section 2.3.1.4).
#[derive(Clone, Copy, Debug, PartialEq, Eq)]
pub enum Closure {
    /// A status from 500 to 599.
    Server,
    /// The connection or the message failed.
    Network,
    /// A redirect without a target, or to no page URL.
    BadRedirect,
    /// A redirect to a scheme other than http.
    Scheme,
    /// A Content-Encoding other than identity.
    Coding,
    /// Any other status.
    Other,
}

impl Answer {
    /// The answer by the rules of a text, with two spares.
    pub fn rules(alloc: Global, text: RobotsText) -> Result<Answer, AllocError>
        ensures says { IfOk result (λ answer. said answer ≡ Said.Rules text) }
        ensures spares { IfOk result (λ answer. spares_of answer ≡ 2) }
    {
        Ok(Answer::Rules(Rules::new(alloc, text)?))
    }

    /// An answer that says the same. Takes no memory, but a spare if it has rules.
    pub fn twin(&mut self) -> Answer
        requires { 0 < spares_of self.old }
        ensures says { said result ≡ said self.old }
        ensures stays { said self.new ≡ said self.old }
        ensures spends { spares_of self.new ≡ spares_behind self.old }
        ensures spares { spares_of result ≡ spares_of_twin self.old }
    {
        match self {
            Answer::Rules(rules) => Answer::Rules(rules.twin()),
            Answer::Open(opening) => Answer::Open(*opening),
            Answer::Closed(closure) => Answer::Closed(*closure),
        }
    }

    /// Makes an index of its rules, if it pays and memory suffices. Its meaning stays.
    pub fn make_index(&mut self, alloc: Global)
        ensures { self.new ≡ self.old }
    {
        if let Answer::Rules(rules) = self {
            rules.make_index(alloc);
        }
    }

    /// Takes a policy's index if the text is the same and its own rules have none. Its meaning stays.
    pub fn take_index(&mut self, policy: Arc<Policy>)
        ensures { self.new ≡ self.old }
    {
        if let Answer::Rules(rules) = self {
            rules.take_index(policy);
        }
    }

    /// Replaces its policy by this one, if the text is the same and no twin was given. Its meaning stays.
    pub fn share(&mut self, policy: Arc<Policy>)
        ensures { self.new ≡ self.old }
    {
        if let Answer::Rules(rules) = self {
            rules.share(policy);
        }
    }

    /// What the answer says. Takes no spare, and no memory for a text, but a policy handle can be refused.
    pub fn says(&self) -> Result<Said, AllocError>
        ensures { IfOk result (λ says. says ≡ said self.now) }
    {
        match self {
            Answer::Rules(rules) => Ok(Said::Rules(rules.policy_handle()?)),
            Answer::Open(opening) => Ok(Said::Open(*opening)),
            Answer::Closed(closure) => Ok(Said::Closed(*closure)),
        }
    }

    /// What it says, for a history to keep. Takes no memory.
    pub fn into_said(self) -> Said
        ensures { result ≡ said self }
    {
        match self {
            Answer::Rules(rules) => Said::Rules(rules.into_handle()),
            Answer::Open(opening) => Said::Open(opening),
            Answer::Closed(closure) => Said::Closed(closure),
        }
    }

    /// How many twins it can still give: always 2 without rules.
    pub fn spares(&self) -> u8
        ensures { result ≡ spares_of self.now }
    {
        match self {
            Answer::Rules(rules) => rules.spares(),
            Answer::Open(_) | Answer::Closed(_) => 2,
        }
    }
}
