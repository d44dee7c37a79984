//! The answer to a URL, and its line.
//! See docs/FORMATS.md.
ghost use Rattle.std.specs.Prelude.{◌≡◌};
ghost use Rattle.line_text.specs.Pieces.{pieces_text};
ghost use Rattle.robots_check.specs.AnswerText.{answer_text, rule_answer_text, url_answer_text};
ghost use Rattle.robots_check.specs.Answers.{answer_seen};
ghost use Rattle.robots_check.specs.Outcomes.{outcome_of_one};

use crate::check_outcome::CheckOutcome;
use line_text::{Piece, Pieces};
use path_normal::UrlFault;
use robots_text::RuleLine;

/// The answer to a URL.
#[derive(Clone, Copy)]
pub(crate) enum Finding<'t> {
    Allowed(RuleLine<'t>),
    /// No rule line for the token matches it.
    NoRule,
    /// It is the URL of a robots.txt.
    RobotsFile,
    Denied(RuleLine<'t>),
    Unread(UrlFault),
}

impl<'t> Finding<'t> {
    pub(crate) fn outcome(self) -> CheckOutcome
        ensures { result ≡ outcome_of_one (answer_seen self.entry) }
    {
        match self {
            Finding::Allowed(_) | Finding::NoRule | Finding::RobotsFile => CheckOutcome::Allowed,
            Finding::Denied(_) => CheckOutcome::Denied,
            Finding::Unread(_) => CheckOutcome::Unread,
        }
    }
}

/// The answer's line for a URL.
pub(crate) fn finding_pieces<'a>(finding: Finding<'a>, url: &'a [u8]) -> Pieces<'a>
    ensures { pieces_text result ≡ answer_text url.now (answer_seen finding.entry) }
{
    match finding {
        Finding::Allowed(rule) => rule_pieces("allowed line ", " allow ", rule, url),
        Finding::Denied(rule) => rule_pieces("denied line ", " disallow ", rule, url),
        Finding::NoRule => url_pieces("allowed norule ", url),
        Finding::RobotsFile => url_pieces("allowed robots ", url),
        Finding::Unread(fault) => Pieces::of(&[
            Piece::Text("ERR "),
            Piece::Text(fault.words()),
            Piece::Text(" "),
            Piece::Escaped(url),
            Piece::Text("\n"),
        ]),
    }
}

fn rule_pieces<'a>(front: &'a str, kind: &'a str, rule: RuleLine<'a>, url: &'a [u8]) -> Pieces<'a>
    ensures { pieces_text result ≡ rule_answer_text front.now rule.entry.line kind.now
        rule.entry.pattern.now url.now }
{
    Pieces::of(&[
        Piece::Text(front),
        Piece::Number(rule.line),
        Piece::Text(kind),
        Piece::Escaped(rule.pattern),
        Piece::Text(" "),
        Piece::Escaped(url),
        Piece::Text("\n"),
    ])
}

fn url_pieces<'a>(front: &'a str, url: &'a [u8]) -> Pieces<'a>
    ensures { pieces_text result ≡ url_answer_text front.now url.now }
{
    Pieces::of(&[Piece::Text(front), Piece::Escaped(url), Piece::Text("\n")])
}
