//! The export: a segment of a history, or the present one of a book, as a text of version 2 or 3.
//! See docs/FORMATS.md.
ghost use Rattle.std.specs.Prelude.{◌≡◌, ◌++◌, ◌<◌, [], All, OnErr, OnOk};
ghost use Rattle.std.specs.Io.KnownBytes.{Appends};
ghost use Rattle.counted_io.specs.Device.{AppendsPrefix, failures_after};
ghost use Rattle.counted_io.specs.Output.{Pushes};
ghost use Rattle.gate_history.specs.Base.{empty_base};
ghost use Rattle.gate_history.specs.Grants.{IsSlotGrant};
ghost use Rattle.gate_history.specs.Order.{IsInOrder};
ghost use Rattle.history_text.specs.declared.version.Version.TheVariants.{Two};
ghost use Rattle.history_text.specs.BaseFields.{HasBaseFields};
ghost use Rattle.history_text.specs.Entries.{HasFields};
ghost use Rattle.history_text.specs.Exports.{IsExport, IsSegmentText, present_segment};
ghost use Rattle.history_text.specs.Spell.{entry_lines, spell};
ghost use Rattle.history_text.specs.SpellBase.{spell_segment};

use crate::base_parts::{push_base, push_rows};
use counted_io::{DeviceFault, Output, Sink};
use gate_core::Book;
use gate_history::{Base, Entry, Segment};

/// Writes the output's pending octets, and then the present segment of the book: its base, if something was
/// sealed, and the entries since. It takes memory to put the base's answers in order; if memory runs out it
/// takes none, and longer. After a fault a prefix of that was written, and nothing is pending.
pub fn export<W: Sink>(book: &Book, output: &mut Output, sink: &mut W) -> Result<(), DeviceFault>
    ensures ok { OnOk result (Appends (W.written sink.old) (W.written sink.new)
        (output.old ++ spell_segment (present_segment book.now))) }
    ensures err { OnErr result (AppendsPrefix (W.written sink.old) (W.written sink.new)
        (output.old ++ spell_segment (present_segment book.now))) }
    ensures count { W.failures sink.new ≡ failures_after (W.failures sink.old) result }
    ensures segment { OnOk result (IsSegmentText (present_segment book.now)) }
    ensures export { OnOk result (book.now.base ≡ empty_base → IsExport Two book.now.entries) }
{
    let _ = book.limits();
    push_segment(book.base(), book.history(), output, sink)?;
    output.flush(sink)
}

/// Like `export`, for a segment: its base, if something was sealed before it, and its entries. After a fault
/// a prefix was written, and nothing is pending.
pub fn export_segment<W: Sink>(
    segment: &Segment,
    output: &mut Output,
    sink: &mut W,
) -> Result<(), DeviceFault>
    ensures ok { OnOk result (Appends (W.written sink.old) (W.written sink.new)
        (output.old ++ spell_segment segment.now)) }
    ensures err { OnErr result (AppendsPrefix (W.written sink.old) (W.written sink.new)
        (output.old ++ spell_segment segment.now)) }
    ensures count { W.failures sink.new ≡ failures_after (W.failures sink.old) result }
    ensures segment { OnOk result (IsSegmentText segment.now) }
{
    push_segment(segment.base(), segment.entries(), output, sink)?;
    output.flush(sink)
}

/// Like `export`, for a base without entries: what the text of a segment after it begins with. After a fault a
/// prefix was written, and nothing is pending.
pub fn export_base<W: Sink>(
    base: &Base,
    output: &mut Output,
    sink: &mut W,
) -> Result<(), DeviceFault>
    ensures ok { OnOk result (Appends (W.written sink.old) (W.written sink.new)
        (output.old ++ spell_segment (record { base = base.now; entries = [] }))) }
    ensures err { OnErr result (AppendsPrefix (W.written sink.old) (W.written sink.new)
        (output.old ++ spell_segment (record { base = base.now; entries = [] }))) }
    ensures count { W.failures sink.new ≡ failures_after (W.failures sink.old) result }
{
    push_segment(base, &[], output, sink)?;
    output.flush(sink)
}

/// Pushes a segment's text, with memory for the order of its base's answers, or longer without. What fits
/// stays pending.
pub fn push_segment_text<W: Sink>(
    segment: &Segment,
    output: &mut Output,
    sink: &mut W,
) -> Result<(), DeviceFault>
    ensures { Pushes (W.written sink.old) (W.written sink.new)
        (W.failures sink.old) (W.failures sink.new) output.old output.new
        (spell_segment segment.now) result }
{
    push_segment(segment.base(), segment.entries(), output, sink)
}

/// Pushes the lines of entries that follow others. Takes no memory. What fits stays pending.
pub fn push_entries<W: Sink>(
    entries: &[Entry],
    output: &mut Output,
    sink: &mut W,
) -> Result<(), DeviceFault>
    ensures pushes { Pushes (W.written sink.old) (W.written sink.new)
        (W.failures sink.old) (W.failures sink.new) output.old output.new
        (entry_lines Two entries.now) result }
    ensures fields { OnOk result (All HasFields entries.now) }
{
    push_rows("", entries, output, sink)
}

fn push_segment<W: Sink>(
    base: &Base,
    entries: &[Entry],
    output: &mut Output,
    sink: &mut W,
) -> Result<(), DeviceFault>
    ensures pushes { Pushes (W.written sink.old) (W.written sink.new)
        (W.failures sink.old) (W.failures sink.new) output.old output.new
        (spell_segment (record { base = base.now; entries = entries.now })) result }
    ensures base { OnOk result (0 < base.now.entries → HasBaseFields base.now) }
    ensures fields { OnOk result (All HasFields entries.now) }
    ensures grants { All IsSlotGrant base.now.grants }
    ensures order { IsInOrder base.now }
{
    let _ = base.grants();
    if base.entries() == 0 {
        return push_history(entries, output, sink);
    }
    push_base(base, output, sink)?;
    push_rows("", entries, output, sink)
}

// Pushes the text of a history that nothing sealed precedes.
fn push_history<W: Sink>(
    entries: &[Entry],
    output: &mut Output,
    sink: &mut W,
) -> Result<(), DeviceFault>
    ensures pushes { Pushes (W.written sink.old) (W.written sink.new)
        (W.failures sink.old) (W.failures sink.new) output.old output.new
        (spell Two entries.now) result }
    ensures fields { OnOk result (All HasFields entries.now) }
{
    output.push(sink, b"V 2\n")?;
    push_rows("", entries, output, sink)
}
