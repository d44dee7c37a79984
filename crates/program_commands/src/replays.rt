//! `replay` and `replay --export` over the standard streams.
//! Input and output are in docs/FORMATS.md.
ghost use Rattle.std.specs.Prelude.{◌≡◌, []};
ghost use Rattle.gate_core.specs.Limits.{AreLimits};
ghost use Rattle.program_commands.specs.Messages.{BlamesDevice, CountsWrite, TellsExport, TellsReplay, WritesBehind, WritesPresent};

use crate::books::new_book;
use crate::ending::Ending;
use crate::reasoned::Reasoned;
use crate::streams::Stream;
use crate::telling::tell_failed;
use command_lines::replay_among;
use counted_io::{Counted, Output, Sink, Source};
use gate_core::Book;
use history_text::export;
use path_normal::Schemes;
use program_arguments::ReplayOptions;
use std::alloc::Global;
use std::io;

/// Replays standard input to standard output.
pub(crate) fn replay_streams(rt: &HostRuntime, options: ReplayOptions) -> Ending
    requires { AreLimits options.limits }
{
    match new_book(rt, options.limits) {
        Ok(mut book) => replay_from(rt, options.schemes, &mut book),
        Err(ending) => ending,
    }
}

fn replay_from(rt: &HostRuntime, schemes: Schemes, book: &mut Book) -> Ending {
    let mut reader = Counted::new(Reasoned::new(rt.stdin()));
    let mut writer = Counted::new(Reasoned::new(rt.stdout()));
    let end = replay_over(rt.alloc(), schemes, &mut reader, &mut writer, book);
    let end = tell_failed(rt, end, Stream::Input, reader);
    tell_failed(rt, end, Stream::Output, writer)
}

// Replays a source over a book.
fn replay_over<R: Source, W: Sink>(
    alloc: Global,
    schemes: Schemes,
    reader: &mut R,
    replies: &mut W,
    book: &mut Book,
) -> Ending
    ensures tells { TellsReplay schemes book.old book.new
        (R.left reader.old) (R.left reader.new)
        (W.written replies.old) (W.written replies.new) result }
    ensures blames { BlamesDevice (R.failures reader.old) (R.failures reader.new)
        (W.failures replies.old) (W.failures replies.new) result }
{
    Ending::of(replay_among(alloc, schemes, reader, replies, book))
}

/// Replays standard input, and then writes the history to standard output, unless a device failed or memory
/// ran out.
pub(crate) fn export_streams(rt: &HostRuntime, options: ReplayOptions) -> Ending
    requires { AreLimits options.limits }
{
    match new_book(rt, options.limits) {
        Ok(mut book) => export_from(rt, options.schemes, &mut book),
        Err(ending) => ending,
    }
}

// The export's output is allocated before a line is read.
fn export_from(rt: &HostRuntime, schemes: Schemes, book: &mut Book) -> Ending {
    match Output::new(rt.alloc()) {
        Ok(mut output) => export_through(rt, schemes, book, &mut output),
        Err(_) => Ending::NoMemory,
    }
}

fn export_through(
    rt: &HostRuntime,
    schemes: Schemes,
    book: &mut Book,
    output: &mut Output,
) -> Ending
    requires { output.old ≡ [] }
{
    let mut reader = Counted::new(Reasoned::new(rt.stdin()));
    let mut nowhere = Counted::new(io::sink());
    let mut writer = Counted::new(Reasoned::new(rt.stdout()));
    let end = export_over(
        rt.alloc(),
        schemes,
        &mut reader,
        &mut nowhere,
        &mut writer,
        book,
        output,
    );
    let end = tell_failed(rt, end, Stream::Input, reader);
    tell_failed(rt, end, Stream::Output, writer)
}

// Replays a source over a book, and then writes the history.
fn export_over<R: Source, N: Sink, W: Sink>(
    alloc: Global,
    schemes: Schemes,
    reader: &mut R,
    replies: &mut N,
    writer: &mut W,
    book: &mut Book,
    output: &mut Output,
) -> Ending
    requires { output.old ≡ [] }
    ensures { TellsExport schemes book.old book.new (R.left reader.old) (R.left reader.new)
        (N.written replies.old) (N.written replies.new)
        (W.written writer.old) (W.written writer.new) result }
{
    let ended = replay_over(alloc, schemes, reader, replies, book);
    write_behind(book, output, writer, ended)
}

// Writes the history of a book after such a session.
fn write_behind<W: Sink>(book: &Book, output: &mut Output, writer: &mut W, ended: Ending) -> Ending
    requires { output.old ≡ [] }
    ensures { WritesBehind book.now (W.written writer.old) (W.written writer.new) ended result }
{
    match ended {
        Ending::NoMemory | Ending::Device => ended,
        _ => write_present(book, output, writer, ended),
    }
}

fn write_present<W: Sink>(book: &Book, output: &mut Output, writer: &mut W, ended: Ending) -> Ending
    requires { output.old ≡ [] }
    ensures text { WritesPresent book.now (W.written writer.old) (W.written writer.new)
        ended result }
    ensures count { CountsWrite ended (W.failures writer.old) (W.failures writer.new) result }
{
    match export(book, output, writer) {
        Ok(()) => ended,
        Err(_) => Ending::Device,
    }
}
