//! The replies that a page gets if all goes well (docs/FORMATS.md, replies).
//! Most lines get one of them. Each is pushed without a row of pieces, whose stack would be cleared each time.
ghost use Rattle.std.specs.Prelude.{◌++◌, Ok, decimal};
ghost use Rattle.counted_io.specs.Output.{Pushes};
ghost use Rattle.command_lines.specs.ReplyText.{ask_text, finish_text, go_text};

use crate::reply_text::go_pieces;
use counted_io::{DeviceFault, Output, Sink};
use gate_history::Reason;
use itoa::Buffer;
use permit_book::PermitNo;

/// Pushes the reply to an ASK that is granted.
pub fn push_permit<W: Sink>(
    number: PermitNo,
    output: &mut Output,
    sink: &mut W,
) -> Result<(), DeviceFault>
    ensures { Pushes (W.written sink.old) (W.written sink.new)
        (W.failures sink.old) (W.failures sink.new) output.old output.new
        (ask_text (Ok number)) result }
{
    push_numbered("PERMIT ", number.number(), "\n", output, sink)
}

/// Pushes the reply to a START that is allowed.
pub fn push_go<W: Sink>(
    number: PermitNo,
    reason: Reason,
    output: &mut Output,
    sink: &mut W,
) -> Result<(), DeviceFault>
    ensures { Pushes (W.written sink.old) (W.written sink.new)
        (W.failures sink.old) (W.failures sink.new) output.old output.new
        (go_text number reason) result }
{
    match reason {
        Reason::Open => push_numbered("GO ", number.number(), " open\n", output, sink),
        _ => push_other_go(number, reason, output, sink),
    }
}

/// Pushes the reply to a DONE that ends a fetch.
pub fn push_done<W: Sink>(
    number: PermitNo,
    output: &mut Output,
    sink: &mut W,
) -> Result<(), DeviceFault>
    ensures { Pushes (W.written sink.old) (W.written sink.new)
        (W.failures sink.old) (W.failures sink.new) output.old output.new
        (finish_text number (Ok tt)) result }
{
    push_numbered("DONE ", number.number(), "\n", output, sink)
}

#[inline(never)]
fn push_other_go<W: Sink>(
    number: PermitNo,
    reason: Reason,
    output: &mut Output,
    sink: &mut W,
) -> Result<(), DeviceFault>
    ensures { Pushes (W.written sink.old) (W.written sink.new)
        (W.failures sink.old) (W.failures sink.new) output.old output.new
        (go_text number reason) result }
{
    go_pieces(number, reason).push(output, sink)
}

fn push_numbered<W: Sink>(
    front: &str,
    number: u64,
    behind: &str,
    output: &mut Output,
    sink: &mut W,
) -> Result<(), DeviceFault>
    ensures { Pushes (W.written sink.old) (W.written sink.new)
        (W.failures sink.old) (W.failures sink.new) output.old output.new
        (front.now ++ (decimal number ++ behind.now)) result }
{
    output.push(sink, front.as_bytes())?;
    push_number(number, behind, output, sink)
}

fn push_number<W: Sink>(
    number: u64,
    behind: &str,
    output: &mut Output,
    sink: &mut W,
) -> Result<(), DeviceFault>
    ensures { Pushes (W.written sink.old) (W.written sink.new)
        (W.failures sink.old) (W.failures sink.new) output.old output.new
        (decimal number ++ behind.now) result }
{
    output.push(sink, Buffer::new().format(number).as_bytes())?;
    output.push(sink, behind.as_bytes())
}
