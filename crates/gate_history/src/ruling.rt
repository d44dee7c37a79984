//! Whether a fetch is allowed, and why not, by the answer for its URL's authority.
//! RFC 9309, sections 2.2.2, 2.3.1 and 2.4.
ghost use Rattle.std.specs.Prelude.{◌≡◌, IfSome, List};
ghost use Rattle.std.specs.Arc.{arc_value};
ghost use Rattle.std.specs.List.{find};
ghost use Rattle.path_normal.specs.PageText.{authority_of};
ghost use Rattle.robots_verdict.specs.Answer.{said};
ghost use Rattle.authority_cache.specs.declared.standing_answer.StandingAnswer.{StandingAnswer};
ghost use Rattle.authority_cache.specs.declared.turn.Turn.{Turn};
ghost use Rattle.authority_cache.specs.Lists.{is_answer_for, TellsCache};
ghost use Rattle.gate_history.specs.Cause.{IsVerdictOn, Judges, outcome_of, Says};
ghost use Rattle.gate_history.specs.Ruling.{IsRuling};

use crate::outcome::{Cause, Reason};
use authority_cache::{Cache, Look};
use path_normal::PageUrl;
use robots_text::Token;
use robots_verdict::{Allowed, Answer, Policy, Verdict};
use std::sync::Arc;

/// A policy's verdict on a fetch, found in advance. It counts only if that policy's text is in force then.
#[derive(Drop)]
pub struct Ruling {
    policy: Arc<Policy>,
    verdict: Verdict,
}

impl Ruling {
    /// The policy's verdict on the fetch. It allocates nothing.
    pub fn of(policy: Arc<Policy>, token: &Token, url: &PageUrl) -> Ruling
        ensures { IsRuling token.now url.now result }
    {
        let verdict = policy.verdict(token, url.path_to_match());
        Ruling { policy, verdict }
    }

    /// The policy.
    pub fn into_policy(self) -> Arc<Policy>
        ensures { arc_value result ≡ arc_value self.policy }
    {
        self.policy
    }
}

/// The decision of the authority's answer on the fetch now. A ruling that counts saves the walk over the
/// rules.
pub fn decide(
    cache: &Cache,
    token: &Token,
    url: &PageUrl,
    ruling: Option<&Ruling>,
    moment: u64,
) -> Result<Reason, Cause>
    requires { IfSome ruling (λ ruling. IsRuling token.now url.now ruling.now) }
    ensures { (standing : List StandingAnswer) (in_flight : List Turn)
        → TellsCache cache.now standing in_flight
        → Judges (find (is_answer_for (authority_of url.now)) standing) token.now url.now moment
        result }
{
    match cache.look(url.authority(), moment) {
        Look::Unknown => Err(Cause::Unknown),
        Look::Expired => Err(Cause::Expired),
        Look::InForce(answer) => says(answer, token, url, ruling),
    }
}

// The decision of an answer in force.
fn says(
    answer: &Answer,
    token: &Token,
    url: &PageUrl,
    ruling: Option<&Ruling>,
) -> Result<Reason, Cause>
    requires { IfSome ruling (λ ruling. IsRuling token.now url.now ruling.now) }
    ensures { Says (said answer.now) token.now url.now result }
{
    match answer {
        Answer::Rules(rules) => outcome_of(verdict_on(rules.policy(), token, url, ruling)),
        Answer::Open(_) => Ok(Reason::Open),
        Answer::Closed(_) => Err(Cause::Closed),
    }
}

// The policy's verdict, which is known if it was found with an equal text.
fn verdict_on(policy: &Policy, token: &Token, url: &PageUrl, ruling: Option<&Ruling>) -> Verdict
    requires { IfSome ruling (λ ruling. IsRuling token.now url.now ruling.now) }
    ensures { IsVerdictOn policy.now token.now url.now result }
{
    match ruling {
        Some(ruling) if ruling.policy.text().bytes() == policy.text().bytes() => ruling.verdict,
        _ => policy.verdict(token, url.path_to_match()),
    }
}

fn outcome_of(verdict: Verdict) -> Result<Reason, Cause>
    ensures { result ≡ outcome_of verdict }
{
    match verdict {
        Verdict::Allow(Allowed::Line(line)) => Ok(Reason::Line(line)),
        Verdict::Allow(Allowed::NoRule) => Ok(Reason::NoRule),
        Verdict::Allow(Allowed::RobotsPath) => Ok(Reason::RobotsPath),
        Verdict::Deny(line) => Err(Cause::Line(line)),
    }
}
