//! The reply to SEAL (docs/FORMATS.md, replies): a segment's text, written directly from it.
ghost use Rattle.std.specs.Prelude.{◌≡◌, ◌-◌, ◌^◌, min, length};
ghost use Rattle.counted_io.specs.Output.{Pushes};
ghost use Rattle.command_lines.specs.SealText.{handed_text, line_count, lines_before, seal_text, sealed_line};
ghost use Rattle.line_text.specs.Pieces.{pieces_text};

use crate::refusal_text::refusal_pieces;
use counted_io::{DeviceFault, Output, Sink};
use crawl_job::Refusal;
use gate_core::NoMemory;
use gate_history::{Base, Segment};
use history_text::push_segment_text;
use line_text::{Piece, Pieces};

pub fn push_sealed<W: Sink>(
    sealed: &Result<Segment, NoMemory>,
    output: &mut Output,
    sink: &mut W,
) -> Result<(), DeviceFault>
    ensures { Pushes (W.written sink.old) (W.written sink.new)
        (W.failures sink.old) (W.failures sink.new) output.old output.new
        (seal_text sealed.now) result }
{
    match sealed {
        Ok(segment) => push_segment(segment, output, sink),
        Err(_) => refusal_pieces(Refusal::NoMemory).push(output, sink),
    }
}

// The number of lines and the lines, if there are entries.
fn push_segment<W: Sink>(
    segment: &Segment,
    output: &mut Output,
    sink: &mut W,
) -> Result<(), DeviceFault>
    ensures { Pushes (W.written sink.old) (W.written sink.new)
        (W.failures sink.old) (W.failures sink.new) output.old output.new
        (handed_text segment.now) result }
{
    if segment.entries().is_empty() {
        return sealed_pieces(0).push(output, sink);
    }
    sealed_pieces(line_count(segment)).push(output, sink)?;
    push_segment_text(segment, output, sink)
}

fn sealed_pieces(count: u64) -> Pieces<'static>
    ensures { pieces_text result ≡ sealed_line count }
{
    Pieces::two_words("SEALED", Piece::Number(count))
}

// How many lines a segment's text has.
fn line_count(segment: &Segment) -> u64
    ensures { result ≡ line_count segment.now }
{
    lines_before(segment.base()).saturating_add(segment.entries().len() as u64)
}

// How many lines precede the entries.
fn lines_before(base: &Base) -> u64
    ensures { result ≡ min (lines_before base.now) (2 ^ 64 - 1) }
{
    if base.entries() == 0 {
        return 1;
    }
    answer_count(base)
        .saturating_add(base.in_flight().len() as u64)
        .saturating_add(base.grants().len() as u64)
        .saturating_add(base.unspent().len() as u64)
        .saturating_add(base.running().len() as u64)
        .saturating_add(3)
}

// How many answers stand.
#[tactic(auto, using(std::proofs::lemmas::List::Sorted::length_permutation))]
fn answer_count(base: &Base) -> u64
    ensures { result ≡ length base.now.standing }
{
    base.standing().len() as u64
}
