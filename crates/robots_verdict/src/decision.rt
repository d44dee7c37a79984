//! What a policy says of a path, and by which line.
//! RFC 9309, section 2.2.2.
ghost use Rattle.std.specs.Prelude.{◌≡◌, ◌↔◌, ℕ, IsTrue, List};
ghost use Rattle.robots_text.specs.Records.{Numbered};
ghost use Rattle.robots_verdict.specs.Verdict.{IsVerdict, robots_path};
ghost use Rattle.robots_verdict.specs.Strongest.{IsBest, verdict_of};

use crate::weight::Weight;
use robots_text::RuleKind;

/// Whether a path may be fetched. Lines count from 1.
#[derive(Clone, Copy, Debug, PartialEq, Eq)]
pub enum Verdict {
    Allow(Allowed),
    /// Denied by the line of this number.
    Deny(u64),
}

/// Why a path may be fetched.
#[derive(Clone, Copy, Debug, PartialEq, Eq)]
pub enum Allowed {
    /// The line of this number allows it.
    Line(u64),
    /// No line for the token matches.
    NoRule,
    /// It is the path of robots.txt.
    RobotsPath,
}

pub(crate) fn is_robots_path(path: &[u8]) -> bool
    ensures { IsTrue result ↔ (path.now ≡ robots_path) }
{
    path == b"/robots.txt".as_slice()
}

/// The verdict on a path, in normal form, by the strongest line that applies to it.
pub fn verdict_on(path: &[u8], strongest: Option<Weight>) -> Verdict
    ensures { (lines : List Numbered) (word : List ℕ) → IsBest lines word path.now strongest
        → IsVerdict lines word path.now result }
{
    if is_robots_path(path) {
        Verdict::Allow(Allowed::RobotsPath)
    } else {
        verdict_of(strongest)
    }
}

/// The verdict by the strongest line that applies.
pub(crate) fn verdict_of(strongest: Option<Weight>) -> Verdict
    ensures { result ≡ verdict_of strongest }
{
    match strongest {
        None => Verdict::Allow(Allowed::NoRule),
        Some(
            Weight {
                kind: RuleKind::Allow,
                line,
                ..
            },
        ) => Verdict::Allow(Allowed::Line(line)),
        Some(
            Weight {
                kind: RuleKind::Disallow,
                line,
                ..
            },
        ) => Verdict::Deny(line),
    }
}
