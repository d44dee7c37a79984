//! The text of a base in parts: single lines, and the lines of what it left open.
//! See docs/FORMATS.md.
ghost use Rattle.std.specs.Prelude.{◌≡◌, ◌++◌, All, OnOk, flat_map};
ghost use Rattle.counted_io.specs.Output.{Pushes};
ghost use Rattle.line_text.specs.Pieces.{pieces_text};
ghost use Rattle.history_text.specs.BaseFields.{HasBaseFields, HasNumbers};
ghost use Rattle.history_text.specs.Parts.{HasPartFields, part_text};
ghost use Rattle.history_text.specs.Spell.{line_end};
ghost use Rattle.history_text.specs.SpellBase.{base_text, ended, numbers_line};

use crate::answer_lines::push_answers;
use crate::base_kinds::counts;
use crate::text_line::TextLine;
use authority_cache::Turn;
use counted_io::{DeviceFault, Output, Sink};
use gate_history::{Base, Numbers, SlotGrant};
use line_text::Pieces;
use permit_book::GrantedPermit;

/// A part of a base's text.
#[derive(Clone, Copy)]
pub(crate) enum BasePart<'a> {
    /// A single line.
    Line(&'static str),
    /// The line of a base's numbers.
    Numbers(&'a Base),
    /// The lines of a base's answers, in order.
    Answers(&'a Base),
    Turns(&'a [Turn]),
    Grants(&'a [SlotGrant]),
    /// Permits, after the letter that says how they are out.
    Permits(&'static str, &'a [GrantedPermit]),
}

impl<'a> BasePart<'a> {
    fn push<W: Sink>(&self, output: &mut Output, sink: &mut W) -> Result<(), DeviceFault>
        ensures pushes { Pushes (W.written sink.old) (W.written sink.new)
            (W.failures sink.old) (W.failures sink.new) output.old output.new
            (part_text self.now) result }
        ensures fields { OnOk result (HasPartFields self.now) }
    {
        match self {
            BasePart::Line(line) => push_line(Pieces::whole(line), output, sink),
            BasePart::Numbers(base) => push_line(numbers_pieces(base), output, sink),
            BasePart::Answers(base) => push_answers(base, output, sink),
            BasePart::Turns(turns) => push_rows("", turns, output, sink),
            BasePart::Grants(grants) => push_rows("", grants, output, sink),
            BasePart::Permits(letter, permits) => push_rows(letter, permits, output, sink),
        }
    }
}

/// Pushes the text of a base.
pub(crate) fn push_base<W: Sink>(
    base: &Base,
    output: &mut Output,
    sink: &mut W,
) -> Result<(), DeviceFault>
    ensures pushes { Pushes (W.written sink.old) (W.written sink.new)
        (W.failures sink.old) (W.failures sink.new) output.old output.new
        (base_text base.now) result }
    ensures fields { OnOk result (HasBaseFields base.now) }
{
    let parts = [
        BasePart::Line("V 3"),
        BasePart::Numbers(base),
        BasePart::Answers(base),
        BasePart::Turns(base.in_flight()),
        BasePart::Grants(base.grants()),
        BasePart::Permits("U", base.unspent()),
        BasePart::Permits("Y", base.running()),
        BasePart::Line("E"),
    ];
    push_parts(&parts, output, sink)
}

fn numbers_pieces(base: &Base) -> Pieces<'static>
    ensures text { pieces_text result ≡ numbers_line base.now }
    ensures numbers { HasNumbers base.now }
{
    counts(Numbers {
        begins: base.begins(),
        moment: base.moment(),
        entries: base.entries(),
        started: base.started(),
    })
}

fn push_parts<W: Sink>(
    parts: &[BasePart<'_>],
    output: &mut Output,
    sink: &mut W,
) -> Result<(), DeviceFault>
    ensures pushes { Pushes (W.written sink.old) (W.written sink.new)
        (W.failures sink.old) (W.failures sink.new) output.old output.new
        (flat_map part_text parts.now) result }
    ensures fields { OnOk result (All HasPartFields parts.now) }
{
    for part in parts {
        part.push(output, sink)?;
    }
    Ok(())
}

/// Pushes the lines of these rows in order.
pub(crate) fn push_rows<T: TextLine, W: Sink>(
    letter: &'static str,
    rows: &[T],
    output: &mut Output,
    sink: &mut W,
) -> Result<(), DeviceFault>
    ensures pushes { Pushes (W.written sink.old) (W.written sink.new)
        (W.failures sink.old) (W.failures sink.new) output.old output.new
        (flat_map (λ row. ended (T.line letter.now row)) rows.now) result }
    ensures fields { OnOk result (All T.has_fields rows.now) }
{
    for row in rows {
        push_line(row.pieces(letter), output, sink)?;
    }
    Ok(())
}

/// Pushes a line and its end.
pub(crate) fn push_line<W: Sink>(
    line: Pieces<'_>,
    output: &mut Output,
    sink: &mut W,
) -> Result<(), DeviceFault>
    ensures { Pushes (W.written sink.old) (W.written sink.new)
        (W.failures sink.old) (W.failures sink.new) output.old output.new
        (pieces_text line.entry ++ line_end) result }
{
    line.push(output, sink)?;
    output.push(sink, b"\n")
}
