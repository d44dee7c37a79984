//! The reply to WHY: the standing answer of an authority, as in the text of a history (docs/FORMATS.md,
//! replies).
//! Used by `ClientReply`. RFC 9309, section 2.4.
ghost use Rattle.std.specs.Prelude.{◌≡◌};
ghost use Rattle.counted_io.specs.Output.{Pushes};
ghost use Rattle.command_lines.specs.WhyText.{explained_text, why_text};

use crate::refusal_text::refusal_pieces;
use authority_cache::StandingAnswer;
use counted_io::{DeviceFault, Output, Sink};
use crawl_job::Refusal;
use gate_core::NoMemory;
use history_text::standing_pieces;
use line_text::{Piece, Pieces};
use path_normal::Authority;

/// Pushes the line.
pub fn push_why<W: Sink>(
    authority: &Authority,
    answer: &Result<Option<StandingAnswer>, NoMemory>,
    output: &mut Output,
    sink: &mut W,
) -> Result<(), DeviceFault>
    ensures { Pushes (W.written sink.old) (W.written sink.new)
        (W.failures sink.old) (W.failures sink.new) output.old output.new
        (why_text authority.now answer.now) result }
{
    match answer {
        Ok(Some(answer)) => push_explained(answer, output, sink),
        Ok(None) => {
            let word = Piece::Text("unknown");
            Pieces::three_words("WHY", Piece::Text(authority.text()), word).push(output, sink)
        }
        Err(_) => refusal_pieces(Refusal::NoMemory).push(output, sink),
    }
}

fn push_explained<W: Sink>(
    answer: &StandingAnswer,
    output: &mut Output,
    sink: &mut W,
) -> Result<(), DeviceFault>
    ensures { Pushes (W.written sink.old) (W.written sink.new)
        (W.failures sink.old) (W.failures sink.new) output.old output.new
        (explained_text answer.now) result }
{
    standing_pieces("WHY ", answer).push(output, sink)?;
    output.push(sink, b"\n")
}
