//! `lines` and `lines --notes` over the standard streams.
//! Input and output are in docs/FORMATS.md.
ghost use Rattle.std.specs.Prelude.{◌≡◌, IfOk};
ghost use Rattle.robots_check.specs.Checks.{failures_after_reads, failures_after_writes};
ghost use Rattle.robots_check.specs.Notes.{IsNoted, NotesText, notes_text};
ghost use Rattle.robots_check.specs.Prints.{Prints};

use crate::ending::Ending;
use crate::reasoned::Reasoned;
use crate::streams::Stream;
use crate::telling::tell_failed;
use counted_io::{Counted, Sink, Source};
use program_arguments::Notes;
use robots_check::{TextFault, lines, lines_of, read_body, tell_notes};
use robots_text::RobotsText;
use std::alloc::{AllocError, Global};

/// Writes the records of standard input to standard output, on request after notes on standard error.
pub(crate) fn lines_streams(rt: &HostRuntime, notes: Notes) -> Ending {
    let mut reader = Counted::new(Reasoned::new(rt.stdin()));
    let mut writer = Counted::new(Reasoned::new(rt.stdout()));
    let end = match notes {
        Notes::Untold => lines(rt.alloc(), &mut reader, &mut writer),
        Notes::Told => {
            let mut errors = Counted::new(rt.stderr());
            lines_noted(rt.alloc(), &mut reader, &mut writer, &mut errors)
        }
    };
    let end = tell_failed(rt, Ending::of_lines(end), Stream::Input, reader);
    tell_failed(rt, end, Stream::Output, writer)
}

// Writes the lines of a source like `lines`, after notes on what may surprise.
fn lines_noted<R: Source, W: Sink, E: Sink>(
    alloc: Global,
    reader: &mut R,
    writer: &mut W,
    errors: &mut E,
) -> Result<(), TextFault>
    ensures prints { Prints (R.left reader.old) (R.left reader.new)
        (W.written writer.old) (W.written writer.new) result }
    ensures reads { R.failures reader.new ≡ failures_after_reads (R.failures reader.old) result }
    ensures writes { W.failures writer.new
        ≡ failures_after_writes (W.failures writer.old) result }
    ensures notes { IfOk result (λ _. NotesText (R.left reader.old) (R.left reader.new)
        (E.written errors.old) (E.written errors.new)
        (E.failures errors.old) (E.failures errors.new)) }
{
    let body = read_body(alloc, reader)?;
    note_body(alloc, body.as_slice(), errors)?;
    lines_of(alloc, body.as_slice(), writer)
}

fn note_body<E: Sink>(alloc: Global, body: &[u8], errors: &mut E) -> Result<(), AllocError>
    ensures { IfOk result (λ _. IsNoted (notes_text body.now)
        (E.written errors.old) (E.written errors.new)
        (E.failures errors.old) (E.failures errors.new)) }
{
    let text = RobotsText::read(alloc, body)?;
    tell_notes(alloc, &text, body.len(), errors)
}
