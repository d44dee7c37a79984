//! A robots text with the normal forms of its patterns, and the verdict by its lines.
//! RFC 9309, section 2.2.2.
ghost use Rattle.std.specs.Prelude.{◌≡◌, Contains, IfOk, MatchOption};
ghost use Rattle.path_normal.specs.Normal.{normal_pattern};
ghost use Rattle.robots_text.specs.Grouped.{grouped_records};
ghost use Rattle.robots_text.specs.Groups.{record_ruled};
ghost use Rattle.robots_text.specs.Records.{numbered_records};
ghost use Rattle.robots_text.specs.Walk.{rule_seen};
ghost use Rattle.robots_verdict.specs.Rewritten.{HasForm, HasNoForm, rewritten_in};
ghost use Rattle.robots_verdict.specs.Strongest.{IsBest};

use crate::rewritten::Rewritten;
use crate::weight::{Weight, stronger};
use path_pattern::{Path, matches};
use robots_text::{RobotsText, RuleLine, Token};
use std::alloc::{AllocError, Global};
use std::boxed::Box;
use std::marker::Model;

/// A text, and the normal forms of the patterns that are written otherwise.
#[derive(Drop)]
pub(crate) struct NormalText {
    text: RobotsText,
    // In its own allocation: most texts have none.
    rewritten: Option<Box<Rewritten>>,
}

impl Model for NormalText {
    ghost use Rattle.std.specs.Prelude.{List, ℕ};
    ghost use Rattle.std.specs.Coded.{coded_list, coded_ℕ};

    ghost Value = { List ℕ };

    ghost coded = { coded_list coded_ℕ };

    ghost use Rattle.std.specs.Prelude.{◌≡◌, [], MatchOption, box_value};
    ghost use Rattle.robots_text.specs.Grouped.{grouped_records};
    ghost use Rattle.robots_verdict.specs.Rewritten.{rewritten_in};

    ghost view = { λ normal. normal.text };

    ghost invariant = { λ normal. MatchOption normal.rewritten
        (rewritten_in (grouped_records normal.text) ≡ [])
        (λ rewritten. (box_value rewritten).of_lines
        ≡ rewritten_in (grouped_records normal.text)) };
}

impl NormalText {
    pub(crate) fn of(alloc: Global, text: RobotsText) -> Result<NormalText, AllocError>
        ensures { IfOk result (λ normal. normal ≡ text) }
    {
        let rewritten = Rewritten::of(alloc, &text)?;
        if rewritten.is_empty() {
            return Ok(NormalText {
                text,
                rewritten: None,
            });
        }
        Ok(NormalText {
            text,
            rewritten: Some(Box::new(alloc, rewritten)?),
        })
    }

    pub(crate) fn text(&self) -> &RobotsText
        ensures { result.now ≡ self.now }
    {
        &self.text
    }

    /// The weight of the strongest line for the token that matches the path. Takes no memory.
    pub(crate) fn strongest(&self, token: &Token, path: &mut Path<'_, '_>) -> Option<Weight>
        ensures { IsBest (numbered_records self.now) token.now path.old result }
    {
        let mut best = None;
        let mut near = 0;
        let mut rules = self.text.rules_for(token);
        while let Some(rule) = rules.next() {
            let form = self.form(rule, &mut near);
            if matches(form, path) {
                best = Some(stronger(
                    best,
                    Weight {
                        octets: form.len(),
                        kind: rule.kind,
                        line: rule.line,
                    },
                ));
            }
        }
        best
    }

    /// A line's pattern in normal form, perhaps kept near this place.
    pub(crate) fn form<'s>(&'s self, rule: RuleLine<'s>, near: &mut usize) -> &'s [u8]
        requires { Contains (numbered_records self.now) (record_ruled (rule_seen rule)) }
        ensures { result.now ≡ normal_pattern rule.entry.pattern.now }
    {
        match self.rewritten_form(rule.line, near) {
            Some(form) => form,
            None => rule.pattern,
        }
    }

    fn rewritten_form(&self, line: u64, near: &mut usize) -> Option<&[u8]>
        ensures { MatchOption result
            (HasNoForm (rewritten_in (grouped_records self.now)) line)
            (λ octets. HasForm (rewritten_in (grouped_records self.now)) line octets.now) }
    {
        match &self.rewritten {
            Some(rewritten) => rewritten.form_near(line, near),
            None => None,
        }
    }
}
