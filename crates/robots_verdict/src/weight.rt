//! How the rule lines that match a path rank.
//! RFC 9309, section 2.2.2.
ghost use Rattle.std.specs.Prelude.{◌≡◌};
ghost use Rattle.robots_verdict.specs.Weights.{falling, is_above, kind_place};
ghost use Rattle.std.specs.Ordering.{nat_cmp};
ghost use Rattle.robots_verdict.specs.Strongest.{stronger};

use robots_text::RuleKind;
use std::cmp::Ordering;

/// A rule line's rank: the octets of its pattern in normal form, then its kind, then its line.
#[derive(Clone, Copy, Debug, PartialEq, Eq)]
pub struct Weight {
    pub octets: usize,
    pub kind: RuleKind,
    pub line: u64,
}

impl Weight {
    /// The order in which the stronger comes first.
    pub(crate) fn falling(&self, other: &Weight) -> Ordering
        ensures { result ≡ falling self.now other.now }
    {
        other
            .octets
            .cmp(&self.octets)
            .then(compare_kinds(self.kind, other.kind))
            .then(self.line.cmp(&other.line))
    }

    pub(crate) fn is_above(&self, other: &Weight) -> bool
        ensures { result ≡ is_above self.now other.now }
    {
        self.falling(other).is_lt()
    }
}

// The order of two kinds, stronger first.
fn compare_kinds(one: RuleKind, other: RuleKind) -> Ordering
    ensures { result ≡ nat_cmp (kind_place one) (kind_place other) }
{
    match (one, other) {
        (RuleKind::Allow, RuleKind::Disallow) => Ordering::Less,
        (RuleKind::Disallow, RuleKind::Allow) => Ordering::Greater,
        _ => Ordering::Equal,
    }
}

/// The stronger of the two; if they rank alike, the former.
pub fn stronger(best: Option<Weight>, other: Weight) -> Weight
    ensures { result ≡ stronger best other }
{
    match best {
        Some(best) if !other.is_above(&best) => best,
        _ => other,
    }
}
