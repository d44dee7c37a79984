//! Reports the lines of a shift that can't be read as a job.
ghost use Rattle.std.specs.Prelude.{◌≡◌, [], flat_map, IfOk};
ghost use Rattle.counted_io.specs.Output.{Pushes};
ghost use Rattle.std.specs.Io.KnownBytes.{Appends};
ghost use Rattle.line_text.specs.Pieces.{pieces_text};
ghost use Rattle.crawl_shift.specs.JobLines.{bad_line_text, bad_line_words};

use crate::job_lines::BadJobLine;
use command_lines::LineFault;
use counted_io::{DeviceFault, Output, Sink};
use line_text::{AsPieces, Piece, Pieces, push_each};
use std::alloc::Global;

/// Writes a line for each, with its number and fault. If memory runs out, nothing is written.
pub fn tell_bad_lines<E: Sink>(
    alloc: Global,
    bad: &[BadJobLine],
    errors: &mut E,
) -> Result<(), DeviceFault>
    ensures { IfOk result
        (λ _. Appends (E.written errors.old) (E.written errors.new)
        (flat_map bad_line_text bad.now)) }
{
    let mut output = Output::new(alloc).map_err(|_| DeviceFault)?;
    write_bad_lines(bad, &mut output, errors)
}

fn write_bad_lines<E: Sink>(
    bad: &[BadJobLine],
    output: &mut Output,
    errors: &mut E,
) -> Result<(), DeviceFault>
    requires { output.old ≡ [] }
    ensures { IfOk result
        (λ _. Appends (E.written errors.old) (E.written errors.new)
        (flat_map bad_line_text bad.now)) }
{
    push_each(bad, output, errors)?;
    output.flush(errors)
}

impl AsPieces for BadJobLine {
    ghost use Rattle.crawl_shift.specs.JobLines.{bad_line_text};

    ghost text = { bad_line_text };

    fn pieces(&self) -> Pieces<'_> {
        Pieces::of(&[
            Piece::Text("line "),
            Piece::Number(self.number),
            Piece::Text(": "),
            Piece::Text(words_of(self.fault)),
            Piece::Text("\n"),
        ])
    }
}

// What is wrong with a line.
fn words_of(fault: LineFault) -> &'static str
    ensures { result.now ≡ bad_line_words fault }
{
    match fault {
        LineFault::Lines => "a shift has at most 4096 jobs",
        other => other.words(),
    }
}
