//! The rule lines for a token in order, with their patterns normalized once for all URLs, and their places
//! by number. RFC 9309, section 2.2.2.
ghost use Rattle.std.specs.Prelude.{◌≡◌, ◌<◌, ℕ, IfOk, None, map};
ghost use Rattle.std.specs.List.{All};
ghost use Rattle.path_normal.specs.Normal.{normal_pattern};
ghost use Rattle.robots_text.specs.Grouped.{grouped_seen};
ghost use Rattle.robots_text.specs.Walk.{rule_seen, rules_from, speaks};
ghost use Rattle.robots_check.specs.Forms.{IsFormed, formed_rule};
ghost use Rattle.robots_check.specs.Rules.{IsRising, IsRuleAt};

use path_normal::{is_kept_pattern, normal_pattern};
use robots_text::{GroupedRecord, RuleLine, RuleWalk, Whom};
use std::alloc::{AllocError, Global};

/// A rule line, with its pattern's normal form if that is written otherwise.
#[derive(Drop)]
pub(crate) struct Formed<'t> {
    pub(crate) rule: RuleLine<'t>,
    rewritten: Option<Vec<u8>>,
}

impl<'t> Formed<'t> {
    // Most patterns are in normal form and are not copied.
    fn of(alloc: Global, rule: RuleLine<'t>) -> Result<Formed<'t>, AllocError>
        ensures rule { IfOk result (λ formed. formed_rule formed ≡ rule_seen rule.entry) }
        ensures formed { IfOk result IsFormed }
    {
        let rewritten = if is_kept_pattern(rule.pattern) {
            None
        } else {
            Some(normal_pattern(alloc, rule.pattern)?)
        };
        Ok(Formed { rule, rewritten })
    }

    /// The pattern in normal form.
    pub(crate) fn form(&self) -> &[u8]
        requires { IsFormed self.now }
        ensures { result.now ≡ normal_pattern (formed_rule self.now).pattern }
    {
        match &self.rewritten {
            Some(form) => form.as_slice(),
            None => self.rule.pattern,
        }
    }
}

/// The rule lines for them.
pub(crate) fn rules_in<'t>(
    alloc: Global,
    said: &[GroupedRecord<'t>],
    whom: Whom<'_>,
) -> Result<Vec<Formed<'t>>, AllocError>
    ensures rules { IfOk result (λ rules. map formed_rule rules.items
        ≡ rules_from (speaks whom.entry) None (map grouped_seen said.now)) }
    ensures formed { IfOk result (λ rules. All IsFormed rules.items) }
{
    let mut rules = Vec::new(alloc);
    let mut walk = RuleWalk::new(whom);
    for line in said {
        if let Some(rule) = walk.rule_of(*line) {
            rules.push(Formed::of(alloc, rule)?)?;
        }
    }
    Ok(rules)
}

/// The place of the rule line with a number, which must exist.
pub(crate) fn place_of(rules: &[Formed<'_>], line: u64) -> usize
    requires rising { IsRising (map formed_rule rules.now) }
    requires there { (place : ℕ) × IsRuleAt (map formed_rule rules.now) line place }
    ensures { IsRuleAt (map formed_rule rules.now) line result }
{
    let mut low = 0;
    let mut high = rules.len();
    while low < high {
        let middle = low + (high - low) / 2;
        if rules[middle].rule.line < line {
            low = middle + 1;
        } else {
            high = middle;
        }
    }
    low
}
