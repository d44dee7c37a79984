//! Notes on a robots text, apart from its answers.
//! See docs/FORMATS.md.
ghost use Rattle.std.specs.Prelude.{◌≡◌, ◌++◌, [], IfOk, flat_map};
ghost use Rattle.counted_io.specs.Output.{Pushes};
ghost use Rattle.line_text.specs.Pieces.{pieces_text};
ghost use Rattle.robots_text.specs.Grouped.{grouped_seen, numbered_of};
ghost use Rattle.robots_text.specs.Records.{numbered_records};
ghost use Rattle.robots_check.specs.Notes.{IsNoted, apostrophe_note, behind_question, cut_note, has_query_apostrophe, line_note, notes_of, silent_note};

use crate::said::SaidLines;
use counted_io::{DeviceFault, Output, Sink};
use line_text::{Piece, Pieces};
use robots_text::{GroupedRecord, MAX_TEXT, RecordKind, RobotsText};
use std::alloc::{AllocError, Global};

/// Notes on a text, whose body had so many octets, that may surprise readers of its verdicts. A failed
/// write ends the notes only.
pub fn tell_notes<E: Sink>(
    alloc: Global,
    text: &RobotsText,
    count: usize,
    errors: &mut E,
) -> Result<(), AllocError>
    ensures { IfOk result (λ _. IsNoted (notes_of count (numbered_records text.now))
        (E.written errors.old) (E.written errors.new)
        (E.failures errors.old) (E.failures errors.new)) }
{
    let said = SaidLines::of(alloc, text)?;
    tell_said_notes(alloc, &said, count, errors)
}

/// Like `tell_notes`, for a text with its lines.
pub(crate) fn tell_said_notes<E: Sink>(
    alloc: Global,
    said: &SaidLines<'_>,
    count: usize,
    errors: &mut E,
) -> Result<(), AllocError>
    ensures { IfOk result (λ _. IsNoted (notes_of count (numbered_records said.now.text.now))
        (E.written errors.old) (E.written errors.new)
        (E.failures errors.old) (E.failures errors.new)) }
{
    let mut output = Output::new(alloc)?;
    let _ = write_notes(said, count, &mut output, errors);
    Ok(())
}

fn write_notes<E: Sink>(
    said: &SaidLines<'_>,
    count: usize,
    output: &mut Output,
    errors: &mut E,
) -> Result<(), DeviceFault>
    requires { output.old ≡ [] }
    ensures { IsNoted (notes_of count (numbered_records said.now.text.now))
        (E.written errors.old) (E.written errors.new)
        (E.failures errors.old) (E.failures errors.new) }
{
    push_notes(said, count, output, errors)?;
    output.flush(errors)?;
    Ok(())
}

fn push_notes<E: Sink>(
    said: &SaidLines<'_>,
    count: usize,
    output: &mut Output,
    errors: &mut E,
) -> Result<(), DeviceFault>
    ensures { Pushes (E.written errors.old) (E.written errors.new)
        (E.failures errors.old) (E.failures errors.new) output.old output.new
        (notes_of count (numbered_records said.now.text.now)) result }
{
    head_pieces(said, count).push(output, errors)?;
    push_line_notes(said.lines.as_slice(), output, errors)
}

// The notes on the whole text.
fn head_pieces(said: &SaidLines<'_>, count: usize) -> Pieces<'static>
    ensures { pieces_text result
        ≡ cut_note count ++ silent_note (numbered_records said.now.text.now) }
{
    Pieces::of(&[Piece::Text(cut_note(count)), Piece::Text(silent_note(said))])
}

fn cut_note(count: usize) -> &'static str
    ensures { result.now ≡ cut_note count }
{
    if count <= MAX_TEXT {
        ""
    } else {
        "crawlgate: of the robots.txt only the lines that end within 512,000 bytes are read\n"
    }
}

fn silent_note(said: &SaidLines<'_>) -> &'static str
    ensures { result.now ≡ silent_note (numbered_records said.now.text.now) }
{
    if !said.lines.as_slice().is_empty() {
        return "";
    }
    match said.text.records().next() {
        Some(_) => "crawlgate: no line of the robots.txt is a record, so it allows all\n",
        None => "",
    }
}

fn push_line_notes<E: Sink>(
    lines: &[GroupedRecord<'_>],
    output: &mut Output,
    errors: &mut E,
) -> Result<(), DeviceFault>
    ensures { Pushes (E.written errors.old) (E.written errors.new)
        (E.failures errors.old) (E.failures errors.new) output.old output.new
        (flat_map (λ line. line_note (numbered_of (grouped_seen line))) lines.now) result }
{
    for line in lines {
        push_line_note(*line, output, errors)?;
    }
    Ok(())
}

// Pushes the note on a line, if any: few lines have one.
fn push_line_note<E: Sink>(
    line: GroupedRecord<'_>,
    output: &mut Output,
    errors: &mut E,
) -> Result<(), DeviceFault>
    ensures { Pushes (E.written errors.old) (E.written errors.new)
        (E.failures errors.old) (E.failures errors.new) output.old output.new
        (line_note (numbered_of (grouped_seen line.entry))) result }
{
    match line.kind {
        RecordKind::Rule(_, pattern) if has_query_apostrophe(pattern) => {
            apostrophe_pieces(line.line).push(output, errors)
        }
        _ => Ok(()),
    }
}

fn apostrophe_pieces(line: u64) -> Pieces<'static>
    ensures { pieces_text result ≡ apostrophe_note line }
{
    Pieces::of(&[
        Piece::Text("crawlgate: line "),
        Piece::Number(line),
        Piece::Text(" matches no URL: a URL has %27 for ' in its query\n"),
    ])
}

// Whether an apostrophe follows a question mark.
fn has_query_apostrophe(value: &[u8]) -> bool
    ensures { result ≡ has_query_apostrophe value.now }
{
    behind_question(value).iter().any(|octet| *octet == b'\'')
}

fn behind_question(value: &[u8]) -> &[u8]
    ensures { result.now ≡ behind_question value.now }
{
    let mut left = value;
    while let [octet, rest @ ..] = left {
        if *octet == b'?' {
            return rest;
        }
        left = rest;
    }
    &[]
}
