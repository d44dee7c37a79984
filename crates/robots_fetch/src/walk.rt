//! The walk from an authority's robots URL over redirects to the answer.
//! RFC 9309, sections 2.3.1.1 to 2.3.1.5.
ghost use Rattle.std.specs.Prelude.{◌≡◌, IfOk, string_bytes};
ghost use Rattle.std.specs.Option.{option_map};
ghost use Rattle.robots_text.specs.Lines.{kept};
ghost use Rattle.robots_verdict.specs.Answer.{said, spares_of};
ghost use Rattle.robots_verdict.specs.declared.said.Said.{Said};
ghost use Rattle.robots_fetch.specs.Steps.{FollowsRedirect, GivesRules, IsBegun, Steps, StepsAmong, for_a_day, next_url};
ghost use Rattle.robots_fetch.specs.declared.walk.Step.{Step as StepValue};

use crate::redirect::{Nowhere, Stop, redirect_target};
use crate::reply::RobotsReply;
use crate::status::{StatusClass, class_of};
use authority_cache::{LIFE, TimedAnswer};
use path_normal::{Authority, PageUrl, Schemes};
use robots_text::RobotsText;
use robots_verdict::{Answer, Closure, Opening};
use std::alloc::{AllocError, Global};

/// A robots fetch under way: the next URL, and how many redirects led to it, at most 5.
#[derive(Drop)]
pub struct Walk {
    url: PageUrl,
    followed: u64,
}

/// The effect of a reply on a walk.
#[derive(Drop)]
pub enum Step {
    /// It goes on: fetch its URL next.
    Go(Walk),
    /// It is done: the answer, and its lifetime in seconds: 60 to 86,400 for rules, else 86,400 (RFC 9309,
    /// 2.4).
    Done(TimedAnswer),
    /// Out of memory, or the crate `url` overflowed: the unchanged walk, for the same reply again.
    NoMemory(Walk),
}

impl Walk {
    /// The walk that begins at the robots URL of an authority.
    pub fn new(authority: &Authority) -> Result<Walk, AllocError>
        ensures { IfOk result (IsBegun authority.now) }
    {
        Ok(Walk {
            url: PageUrl::of_robots(authority)?,
            followed: 0,
        })
    }

    /// The URL to fetch next.
    pub fn url(&self) -> &PageUrl
        ensures { result.now ≡ next_url self.now }
    {
        &self.url
    }

    /// Takes the reply for the walk's URL, if only `http` is read. The answer holds for the authority where
    /// the walk began, wherever redirects led (RFC 9309, 2.3.1.2).
    pub fn step(self, alloc: Global, reply: &RobotsReply) -> Step
        ensures { Steps self reply.now result }
    {
        self.step_among(alloc, Schemes::Http, reply)
    }

    /// Like `step`, with these schemes.
    pub fn step_among(self, alloc: Global, schemes: Schemes, reply: &RobotsReply) -> Step
        ensures { StepsAmong schemes self reply.now result }
    {
        match reply {
            RobotsReply::CodingFault => closed(Closure::Coding),
            RobotsReply::NetworkFault => closed(Closure::Network),
            RobotsReply::Status {
                code,
                location,
                body,
                max_age,
            } => match class_of(*code) {
                StatusClass::Successful => self.rules(alloc, body.as_slice(), *max_age),
                StatusClass::Redirect => self.follow(schemes, location),
                StatusClass::Unavailable => open(Opening::Unavailable),
                StatusClass::Unreachable => closed(Closure::Server),
                StatusClass::Other => closed(Closure::Other),
            },
        }
    }

    fn rules(self, alloc: Global, body: &[u8], max_age: Option<u64>) -> Step
        ensures { GivesRules self body.now max_age result }
    {
        match rules_of(alloc, body) {
            Ok(answer) => Step::Done(TimedAnswer::new(answer, max_age.unwrap_or(LIFE))),
            Err(_) => Step::NoMemory(self),
        }
    }

    fn follow(self, schemes: Schemes, location: &Option<String>) -> Step
        ensures { FollowsRedirect schemes self (option_map string_bytes location.now) result }
    {
        match redirect_target(schemes, self.followed, &self.url, location) {
            Ok(url) => Step::Go(Walk {
                url,
                followed: self.followed + 1,
            }),
            Err(Nowhere::NoMemory) => Step::NoMemory(self),
            Err(Nowhere::Stop(Stop::TooManyRedirects)) => open(Opening::TooManyRedirects),
            Err(Nowhere::Stop(Stop::BadRedirect)) => closed(Closure::BadRedirect),
            Err(Nowhere::Stop(Stop::Scheme)) => closed(Closure::Scheme),
        }
    }
}

fn rules_of(alloc: Global, body: &[u8]) -> Result<Answer, AllocError>
    ensures says { IfOk result (λ answer. said answer ≡ Said.Rules (kept body.now)) }
    ensures spares { IfOk result (λ answer. spares_of answer ≡ 2) }
{
    Answer::rules(alloc, RobotsText::read(alloc, body)?)
}

fn open(opening: Opening) -> Step
    ensures { result ≡ StepValue.Done (for_a_day (Said.Open opening)) }
{
    Step::Done(TimedAnswer::new(Answer::Open(opening), LIFE))
}

fn closed(closure: Closure) -> Step
    ensures { result ≡ StepValue.Done (for_a_day (Said.Closed closure)) }
{
    Step::Done(TimedAnswer::new(Answer::Closed(closure), LIFE))
}
