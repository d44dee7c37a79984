//! The user-agent lines of a token's groups, and their lines in an explanation.
//! RFC 9309, section 2.2.1.
ghost use Rattle.std.specs.Prelude.{◌≡◌, IfOk, flat_map, map};
ghost use Rattle.std.specs.List.Sorted.{IsNonDecreasing};
ghost use Rattle.counted_io.specs.Output.{Pushes};
ghost use Rattle.line_text.specs.Pieces.{piece_text, pieces_text};
ghost use Rattle.robots_text.specs.Grouped.{grouped_seen};
ghost use Rattle.robots_text.specs.Walk.{speaks};
ghost use Rattle.robots_check.specs.AgentText.{agent_line_text, agent_text, agents_text, beside_text, head_seen, heads_in, is_head_of};

use crate::groups::has_group;
use counted_io::{DeviceFault, Output, Sink};
use line_text::{AsPieces, Piece, Pieces, push_each};
use robots_text::{Agent, GroupedRecord, RecordKind, Whom, speaks};
use std::alloc::{AllocError, Global};

/// A user-agent line of a group for the token.
#[derive(Clone, Copy)]
pub(crate) struct AgentLine<'t> {
    pub(crate) line: u64,
    pub(crate) kind: RecordKind<'t>,
    /// Whether the line itself names the token.
    pub(crate) speaks: bool,
}

/// The user-agent lines of these groups.
pub(crate) fn heads_in<'t>(
    alloc: Global,
    said: &[GroupedRecord<'t>],
    whom: Whom<'_>,
    groups: &[u64],
) -> Result<Vec<AgentLine<'t>>, AllocError>
    requires { IsNonDecreasing groups.now }
    ensures { IfOk result (λ heads. map head_seen heads.items
        ≡ heads_in (speaks whom.entry) groups.now (map grouped_seen said.now)) }
{
    let mut heads = Vec::new(alloc);
    for line in said {
        if is_head_of(groups, *line) {
            heads.push(AgentLine {
                line: line.line,
                kind: line.kind,
                speaks: speaks(whom, line.kind),
            })?;
        }
    }
    Ok(heads)
}

fn is_head_of(groups: &[u64], line: GroupedRecord<'_>) -> bool
    requires { IsNonDecreasing groups.now }
    ensures { result ≡ is_head_of groups.now (grouped_seen line.entry) }
{
    match line.kind {
        RecordKind::Agent(_) => has_group(groups, line.group),
        _ => false,
    }
}

/// Pushes their lines, or one that says that there are none.
pub(crate) fn push_agents<W: Sink>(
    agents: &[AgentLine<'_>],
    output: &mut Output,
    sink: &mut W,
) -> Result<(), DeviceFault>
    ensures { Pushes (W.written sink.old) (W.written sink.new)
        (W.failures sink.old) (W.failures sink.new) output.old output.new
        (agents_text (map head_seen agents.now)) result }
{
    if agents.is_empty() {
        return Pieces::whole("agent none\n").push(output, sink);
    }
    push_each(agents, output, sink)
}

impl AsPieces for AgentLine<'_> {
    ghost use Rattle.robots_check.specs.AgentText.{agent_text, head_seen};

    ghost text = { λ head. agent_text (head_seen head) };

    fn pieces(&self) -> Pieces<'_> {
        match self.kind {
            RecordKind::Agent(Agent::Name(name)) => {
                named_pieces(self.line, " name ", Piece::LowerCase(name), self.speaks)
            }
            RecordKind::Agent(Agent::All) => {
                named_pieces(self.line, " all", Piece::Text(""), self.speaks)
            }
            RecordKind::Agent(Agent::Nobody) => {
                named_pieces(self.line, " none", Piece::Text(""), self.speaks)
            }
            _ => named_pieces(self.line, "", Piece::Text(""), self.speaks),
        }
    }
}

fn beside_word(speaks: bool) -> &'static str
    ensures { result.now ≡ beside_text speaks }
{
    if speaks { "\n" } else { " same group\n" }
}

fn named_pieces<'a>(line: u64, word: &'a str, name: Piece<'a>, speaks: bool) -> Pieces<'a>
    ensures { pieces_text result ≡ agent_line_text line word.now (piece_text name.entry)
        (beside_text speaks) }
{
    Pieces::of(&[
        Piece::Text("agent line "),
        Piece::Number(line),
        Piece::Text(word),
        name,
        Piece::Text(beside_word(speaks)),
    ])
}
