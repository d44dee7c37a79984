//! The lines of a job's hops in the reply to FETCH and in a shift's report (docs/FORMATS.md, hops).
ghost use Rattle.std.specs.Prelude.{◌≡◌, ◌+◌, ◌++◌, ◌^◌, ◌<◌, length};
ghost use Rattle.counted_io.specs.Output.{Pushes};
ghost use Rattle.line_text.specs.Pieces.{piece_text, pieces_text};
ghost use Rattle.command_lines.specs.HopText.{hop_text, hops_text, lead_text};

use crate::hop_text::hop_pieces;
use counted_io::{DeviceFault, Output, Sink};
use crawl_job::Hop;
use line_text::{Piece, Pieces};

/// Pushes a line for each hop: the lead, its number from `first` on, and the hop.
pub fn push_hops<W: Sink>(
    lead: Piece<'_>,
    first: u64,
    hops: &[Hop],
    output: &mut Output,
    sink: &mut W,
) -> Result<(), DeviceFault>
    requires { first + length hops.now < 2 ^ 64 }
    ensures { Pushes (W.written sink.old) (W.written sink.new)
        (W.failures sink.old) (W.failures sink.new) output.old output.new
        (hops_text (piece_text lead.entry) first hops.now) result }
{
    let [hop, later @ ..] = hops else {
        return Ok(());
    };
    push_hop(lead, first, hop, output, sink)?;
    push_hops(lead, first + 1, later, output, sink)
}

fn push_hop<W: Sink>(
    lead: Piece<'_>,
    number: u64,
    hop: &Hop,
    output: &mut Output,
    sink: &mut W,
) -> Result<(), DeviceFault>
    ensures { Pushes (W.written sink.old) (W.written sink.new)
        (W.failures sink.old) (W.failures sink.new) output.old output.new
        (lead_text (piece_text lead.entry) number ++ hop_text hop.now) result }
{
    numbered(lead, number).push(output, sink)?;
    hop_pieces(hop).push(output, sink)
}

// What precedes a hop in its line.
fn numbered<'a>(lead: Piece<'a>, number: u64) -> Pieces<'a>
    ensures { pieces_text result ≡ lead_text (piece_text lead.entry) number }
{
    let space = Piece::Text(" ");
    Pieces::of(&[lead, space, Piece::Number(number), space])
}
