//! The lines of a base's answers, in order.
//! See docs/FORMATS.md.
ghost use Rattle.std.specs.Prelude.{All, OnOk, flat_map};
ghost use Rattle.counted_io.specs.Output.{Pushes};
ghost use Rattle.history_text.specs.BaseFields.{IsAnswerRow};
ghost use Rattle.history_text.specs.SpellBase.{answer_line, ended};

use crate::base_parts::{push_line, push_rows};
use crate::text_line::TextLine;
use counted_io::{DeviceFault, Output, Sink};
use gate_history::Base;

/// Pushes the lines of a base's answers in order. If memory for the order runs out it takes none, and longer:
/// for each line it looks at every answer.
pub(crate) fn push_answers<W: Sink>(
    base: &Base,
    output: &mut Output,
    sink: &mut W,
) -> Result<(), DeviceFault>
    ensures pushes { Pushes (W.written sink.old) (W.written sink.new)
        (W.failures sink.old) (W.failures sink.new) output.old output.new
        (flat_map (λ s. ended (answer_line s)) base.now.standing) result }
    ensures fields { OnOk result (All IsAnswerRow base.now.standing) }
{
    match base.answers_in_order() {
        Ok(answers) => push_rows("", answers.as_slice(), output, sink),
        Err(_) => push_each(base, output, sink),
    }
}

// Pushes one answer after the other. Takes no memory.
fn push_each<W: Sink>(base: &Base, output: &mut Output, sink: &mut W) -> Result<(), DeviceFault>
    ensures pushes { Pushes (W.written sink.old) (W.written sink.new)
        (W.failures sink.old) (W.failures sink.new) output.old output.new
        (flat_map (λ s. ended (answer_line s)) base.now.standing) result }
    ensures fields { OnOk result (All IsAnswerRow base.now.standing) }
{
    let mut last = None;
    while let Some(answer) = base.answer_behind(last) {
        push_line(answer.pieces(""), output, sink)?;
        last = Some(answer);
    }
    Ok(())
}
