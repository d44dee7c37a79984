//! Explains an answer: the lines that it comes from, and why the winning one wins.
//! RFC 9309, section 2.2; see docs/FORMATS.md.
ghost use Rattle.std.specs.Prelude.{◌≡◌, ◌++◌, flat_map, map};
ghost use Rattle.counted_io.specs.Output.{Pushes};
ghost use Rattle.line_text.specs.Pieces.{pieces_text};
ghost use Rattle.robots_check.specs.AgentText.{agents_text, head_seen};
ghost use Rattle.robots_check.specs.Answers.{answer_seen};
ghost use Rattle.robots_check.specs.Explained.{IsSecondFor, alike_text, because_by, because_text, hits_text, octets_of, row_text};
ghost use Rattle.robots_check.specs.Rows.{row_seen};
ghost use Rattle.robots_text.specs.Walk.{rule_seen};

use crate::agents::{AgentLine, push_agents};
use crate::finding::Finding;
use crate::rows::{ComparedRule, second};
use counted_io::{DeviceFault, Output, Sink};
use line_text::{AsPieces, Piece, Pieces, gap_before, push_each, rule_word};
use robots_text::RuleLine;
use robots_verdict::Weight;

/// Pushes the explanation: the user-agent lines, the rows, and the reason.
pub(crate) fn push_explanation<W: Sink>(
    agents: &[AgentLine<'_>],
    rows: &[ComparedRule<'_>],
    reason: Pieces<'_>,
    output: &mut Output,
    sink: &mut W,
) -> Result<(), DeviceFault>
    ensures { Pushes (W.written sink.old) (W.written sink.new)
        (W.failures sink.old) (W.failures sink.new) output.old output.new
        (agents_text (map head_seen agents.now) ++ (flat_map (λ row. row_text (row_seen row)) rows.now
        ++ pieces_text reason.entry)) result }
{
    push_agents(agents, output, sink)?;
    push_rows_and(rows, reason, output, sink)
}

fn push_rows_and<W: Sink>(
    rows: &[ComparedRule<'_>],
    reason: Pieces<'_>,
    output: &mut Output,
    sink: &mut W,
) -> Result<(), DeviceFault>
    ensures { Pushes (W.written sink.old) (W.written sink.new)
        (W.failures sink.old) (W.failures sink.new) output.old output.new
        (flat_map (λ row. row_text (row_seen row)) rows.now ++ pieces_text reason.entry) result }
{
    push_each(rows, output, sink)?;
    reason.push(output, sink)
}

impl AsPieces for ComparedRule<'_> {
    ghost use Rattle.robots_check.specs.Explained.{row_text};
    ghost use Rattle.robots_check.specs.Rows.{row_seen};

    ghost text = { λ row. row_text (row_seen row) };

    fn pieces(&self) -> Pieces<'_> {
        Pieces::of(&[
            Piece::Text("rule line "),
            Piece::Number(self.rule.line),
            Piece::Text(" "),
            Piece::Text(rule_word(self.rule.kind)),
            Piece::Text(gap_before(self.rule.pattern)),
            Piece::Escaped(self.rule.pattern),
            Piece::Text(" octets "),
            Piece::Number(self.octets as u64),
            Piece::Text(hits_word(self.matches)),
        ])
    }
}

fn hits_word(hits: bool) -> &'static str
    ensures { result.now ≡ hits_text hits }
{
    if hits { " matches\n" } else { " no\n" }
}

/// The weight of the strongest matching row other than the winning line's.
pub(crate) fn second_for(rows: &[ComparedRule<'_>], finding: Finding<'_>) -> Option<Weight>
    ensures { IsSecondFor (map row_seen rows.now) (answer_seen finding.entry) result }
{
    match finding {
        Finding::Allowed(rule) | Finding::Denied(rule) => second(rows, rule.line),
        Finding::NoRule | Finding::RobotsFile | Finding::Unread(_) => None,
    }
}

/// The octets of the winning line's normalized pattern, if any.
pub(crate) fn octets_of(weight: Option<Weight>) -> usize
    ensures { result ≡ octets_of weight }
{
    match weight {
        Some(weight) => weight.octets,
        None => 0,
    }
}

/// The line with the reason.
pub(crate) fn reason_pieces(
    octets: usize,
    finding: Finding<'_>,
    second: Option<Weight>,
) -> Pieces<'static>
    ensures { pieces_text result ≡ because_text octets (answer_seen finding.entry) second }
{
    match finding {
        Finding::Allowed(rule) | Finding::Denied(rule) => above_pieces(octets, rule, second),
        Finding::NoRule => Pieces::whole("because norule\n"),
        Finding::RobotsFile => Pieces::whole("because robots\n"),
        Finding::Unread(_) => Pieces::whole(""),
    }
}

fn above_pieces(octets: usize, rule: RuleLine<'_>, second: Option<Weight>) -> Pieces<'static>
    ensures { pieces_text result ≡ because_by octets (rule_seen rule.entry) second }
{
    match second {
        None => Pieces::whole("because only\n"),
        Some(other) if other.octets == octets => alike_pieces(rule, other),
        Some(other) => Pieces::of(&[
            Piece::Text("because octets "),
            Piece::Number(octets as u64),
            Piece::Text(" above "),
            Piece::Number(other.octets as u64),
            Piece::Text(" of line "),
            Piece::Number(other.line),
            Piece::Text("\n"),
        ]),
    }
}

fn alike_pieces(rule: RuleLine<'_>, other: Weight) -> Pieces<'static>
    ensures { pieces_text result ≡ alike_text (rule_seen rule.entry) other }
{
    if rule.kind == other.kind {
        return Pieces::of(&[
            Piece::Text("because first of line "),
            Piece::Number(rule.line),
            Piece::Text(" and "),
            Piece::Number(other.line),
            Piece::Text("\n"),
        ]);
    }
    Pieces::of(&[
        Piece::Text("because allow above disallow of line "),
        Piece::Number(other.line),
        Piece::Text("\n"),
    ])
}
