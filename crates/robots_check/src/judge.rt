//! Judges paths by a robots text for one crawler.
//! RFC 9309, section 2.2.2.
ghost use Rattle.std.specs.Prelude.{ℕ, List};
ghost use Rattle.robots_text.specs.Records.{numbered_records};
ghost use Rattle.robots_verdict.specs.Verdict.{IsVerdict};
ghost use Rattle.robots_verdict.specs.declared.decision.Verdict.TheVariants.{Allow};
ghost use Rattle.robots_check.specs.Answers.{IsAnswerOn, answer_seen};
ghost use Rattle.robots_check.specs.Ready.{IsReady};

use crate::agents::AgentLine;
use crate::detail::Detail;
use crate::finding::Finding;
use crate::rows::strongest;
use crate::rules::{Formed, place_of};
use path_pattern::Path;
use robots_text::{RobotsText, Token};
use robots_verdict::{Allowed, Policy, Verdict, pays_to_sort, verdict_on};

/// A robots text, prepared to judge paths for a crawler: by its policy, if it has one, or by its rule
/// lines.
#[derive(Clone, Copy)]
pub(crate) struct Judge<'t> {
    pub(crate) text: &'t RobotsText,
    pub(crate) policy: Option<&'t Policy>,
    pub(crate) token: &'t Token,
    pub(crate) rules: &'t [Formed<'t>],
    pub(crate) agents: &'t [AgentLine<'t>],
    pub(crate) detail: Detail,
}

impl<'t> Judge<'t> {
    /// Whether sorting the path's places pays.
    pub(crate) fn wants_places(self, path: &[u8]) -> bool {
        self.policy.is_none() && pays_to_sort(self.text, path)
    }

    /// The finding for a path in normal form.
    pub(crate) fn find(self, path: &mut Path<'_, '_>) -> Finding<'t>
        requires { IsReady self }
        ensures { IsAnswerOn (numbered_records self.entry.text.now) self.entry.token.now path.old
            (answer_seen result) }
    {
        let verdict = self.verdict(path);
        self.find_by(verdict)
    }

    fn verdict(self, path: &mut Path<'_, '_>) -> Verdict
        requires { IsReady self }
        ensures { IsVerdict (numbered_records self.entry.text.now) self.entry.token.now path.old
            result }
    {
        match self.policy {
            Some(policy) => policy.verdict(self.token, path.octets()),
            None => {
                let strongest = strongest(self.rules, path);
                verdict_on(path.octets(), strongest)
            }
        }
    }

    /// The finding by the verdict on a path.
    pub(crate) fn find_by(self, verdict: Verdict) -> Finding<'t>
        requires ready { IsReady self }
        requires said { (path : List ℕ)
            × IsVerdict (numbered_records self.text.now) self.token.now path verdict }
        ensures { (path : List ℕ)
            → IsVerdict (numbered_records self.entry.text.now) self.entry.token.now path verdict
            → IsAnswerOn (numbered_records self.entry.text.now) self.entry.token.now path
            (answer_seen result) }
    {
        match verdict {
            Verdict::Allow(allowed) => self.find_allowed(allowed),
            Verdict::Deny(line) => Finding::Denied(self.rules[place_of(self.rules, line)].rule),
        }
    }

    fn find_allowed(self, allowed: Allowed) -> Finding<'t>
        requires ready { IsReady self }
        requires said { (path : List ℕ)
            × IsVerdict (numbered_records self.text.now) self.token.now path (Allow allowed) }
        ensures { (path : List ℕ)
            → IsVerdict (numbered_records self.entry.text.now) self.entry.token.now path
            (Allow allowed)
            → IsAnswerOn (numbered_records self.entry.text.now) self.entry.token.now path
            (answer_seen result) }
    {
        match allowed {
            Allowed::RobotsPath => Finding::RobotsFile,
            Allowed::NoRule => Finding::NoRule,
            Allowed::Line(line) => Finding::Allowed(self.rules[place_of(self.rules, line)].rule),
        }
    }
}
