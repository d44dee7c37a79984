//! Laws of verdicts, and other ways to compute them for comparison.
//! RFC 9309, section 2.2.2.
ghost use Rattle.std.specs.Prelude.{◌≡◌, ◌↔◌, ℕ, List, IfOk, IsTrue};
ghost use Rattle.robots_text.specs.Records.{Numbered, numbered_records};
ghost use Rattle.robots_verdict.specs.declared.decision.Verdict.{Verdict as VerdictValue};
ghost use Rattle.robots_verdict.specs.Answer.{said};
ghost use Rattle.robots_verdict.specs.Strongest.{IsBest};
ghost use Rattle.robots_verdict.specs.Verdict.{IsVerdict};

use crate::answer::Answer;
use crate::decision::{Allowed, Verdict, is_robots_path, verdict_of, verdict_on};
use crate::policy::Policy;
use crate::weight::{Weight, stronger};
use path_pattern::{Path, Pattern};
use robots_text::{RobotsText, Token};
use std::alloc::{AllocError, Global};

/// A text has one verdict for a token and a path.
pub fn one_verdict()
    ensures { (lines : List Numbered) (word path : List ℕ) (one other : VerdictValue)
        → IsVerdict lines word path one → IsVerdict lines word path other → one ≡ other }
{}

/// Whether two answers are equal: if they say the same.
pub fn are_equal(one: &Answer, other: &Answer) -> bool
    ensures { IsTrue result ↔ (said one.now ≡ said other.now) }
{
    one == other
}

/// The verdict of a policy by trying each rule for the token, whether indexed or not. Takes no memory.
pub fn verdict_plain(policy: &Policy, token: &Token, path: &[u8]) -> Verdict
    ensures { IsVerdict (numbered_records policy.now) token.now path.now result }
{
    verdict_on(path, policy.strongest_by_text(token, &mut Path::new(path)))
}

/// The verdict of a text by trying each rule for the token. Makes a pattern of each.
pub fn verdict_by_patterns(
    alloc: Global,
    text: &RobotsText,
    token: &Token,
    path: &[u8],
) -> Result<Verdict, AllocError>
    ensures { IfOk result (λ verdict.
        IsVerdict (numbered_records text.now) token.now path.now verdict) }
{
    if is_robots_path(path) {
        return Ok(Verdict::Allow(Allowed::RobotsPath));
    }
    let best = strongest(alloc, text, token, path)?;
    Ok(verdict_of(best))
}

fn strongest(
    alloc: Global,
    text: &RobotsText,
    token: &Token,
    path: &[u8],
) -> Result<Option<Weight>, AllocError>
    ensures { IfOk result (IsBest (numbered_records text.now) token.now path.now) }
{
    let mut best = None;
    let mut rules = text.rules_for(token);
    while let Some(rule) = rules.next() {
        let pattern = Pattern::new(alloc, rule.pattern)?;
        if pattern.matches(path) {
            best = Some(stronger(
                best,
                Weight {
                    octets: pattern.octets(),
                    kind: rule.kind,
                    line: rule.line,
                },
            ));
        }
    }
    Ok(best)
}
