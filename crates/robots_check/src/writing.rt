//! `lines`: the records of a robots text, a line for each.
//! `crawlgate lines` runs it over standard input and output.
ghost use Rattle.std.specs.Prelude.{◌≡◌, flat_map};
ghost use Rattle.counted_io.specs.Output.{Pushes};
ghost use Rattle.robots_text.specs.Left.{records_left};
ghost use Rattle.robots_check.specs.LinesText.{numbered_text};
ghost use Rattle.robots_check.specs.Checks.{failures_after_reads, failures_after_writes};
ghost use Rattle.robots_check.specs.Prints.{Prints, WritesLines};

use crate::body::read_body;
use crate::fault::TextFault;
use crate::lines_text::record_pieces;
use counted_io::{DeviceFault, Output, Sink, Source};
use robots_text::{Records, RobotsText};
use std::alloc::Global;

/// Reads a robots text, at most one octet more than the limit, and writes what each of its lines says. Its
/// only faults are `Read`, `Write` and `NoMemory`.
pub fn lines<R: Source, W: Sink>(
    alloc: Global,
    reader: &mut R,
    writer: &mut W,
) -> Result<(), TextFault>
    ensures prints { Prints (R.left reader.old) (R.left reader.new)
        (W.written writer.old) (W.written writer.new) result }
    ensures reads { R.failures reader.new ≡ failures_after_reads (R.failures reader.old) result }
    ensures writes { W.failures writer.new
        ≡ failures_after_writes (W.failures writer.old) result }
{
    let body = read_body(alloc, reader)?;
    lines_of(alloc, body.as_slice(), writer)
}

/// Writes what each line of a body says. Its only faults are `Write` and `NoMemory`.
pub fn lines_of<W: Sink>(alloc: Global, body: &[u8], writer: &mut W) -> Result<(), TextFault>
    ensures lines { WritesLines body.now (W.written writer.old) (W.written writer.new) result }
    ensures writes { W.failures writer.new
        ≡ failures_after_writes (W.failures writer.old) result }
{
    let text = RobotsText::read(alloc, body)?;
    let mut output = Output::new(alloc)?;
    push_records(text.records(), &mut output, writer)?;
    output.flush(writer)?;
    Ok(())
}

fn push_records<W: Sink>(
    records: Records<'_>,
    output: &mut Output,
    sink: &mut W,
) -> Result<(), DeviceFault>
    ensures { Pushes (W.written sink.old) (W.written sink.new)
        (W.failures sink.old) (W.failures sink.new) output.old output.new
        (flat_map numbered_text (records_left records.entry)) result }
{
    let mut left = records;
    while let Some(item) = left.next() {
        record_pieces(item).push(output, sink)?;
    }
    Ok(())
}
