//! The line that `lines` writes for a record.
//! See docs/FORMATS.md.
ghost use Rattle.std.specs.Prelude.{◌≡◌};
ghost use Rattle.robots_text.specs.Records.{agent, agent_seen, line_seen, rule};
ghost use Rattle.robots_check.specs.LinesText.{numbered, numbered_text};
ghost use Rattle.line_text.specs.Pieces.{pieces_text};

use line_text::{Piece, Pieces, gap_before};
use robots_text::{Agent, RecordKind, RecordLine, RuleKind};

/// A record's line, with its number.
pub(crate) fn record_pieces(item: RecordLine<'_>) -> Pieces<'_>
    ensures { pieces_text result ≡ numbered_text (line_seen item.entry) }
{
    match item.kind {
        RecordKind::Agent(who) => agent_record_pieces(item.line, who),
        RecordKind::Rule(kind, value) => rule_record_pieces(item.line, kind, value),
        RecordKind::Other => Pieces::numbered(item.line, "other", "", Piece::Text("")),
    }
}

fn agent_record_pieces(line: u64, who: Agent<'_>) -> Pieces<'_>
    ensures { pieces_text result ≡ numbered_text (numbered line (agent (agent_seen who.entry))) }
{
    match who {
        Agent::All => Pieces::numbered(line, "agent all", "", Piece::Text("")),
        Agent::Name(name) => Pieces::numbered(line, "agent name", " ", Piece::LowerCase(name)),
        Agent::Nobody => Pieces::numbered(line, "agent none", "", Piece::Text("")),
    }
}

fn rule_record_pieces(line: u64, kind: RuleKind, value: &[u8]) -> Pieces<'_>
    ensures { pieces_text result ≡ numbered_text (numbered line (rule kind value.now)) }
{
    let gap = gap_before(value);
    match kind {
        RuleKind::Allow => Pieces::numbered(line, "allow", gap, Piece::Escaped(value)),
        RuleKind::Disallow => Pieces::numbered(line, "disallow", gap, Piece::Escaped(value)),
    }
}
