//! Prints results and endings of the program.
//! docs/FORMATS.md has the lines of results, docs/crawlgate.1.md those of endings.
ghost use Rattle.std.specs.Prelude.{◌≡◌, [], OnOk};
ghost use Rattle.std.specs.Io.KnownBytes.{Appends};
ghost use Rattle.counted_io.specs.Device.{failures_after};
ghost use Rattle.line_text.specs.Pieces.{pieces_text};
ghost use Rattle.program_commands.specs.Messages.{CountsWrite, Tells};

use crate::audit_result::AuditResult;
use crate::ending::Ending;
use crate::reasoned::Reasoned;
use crate::server_line::ServerLine;
use crate::streams::Stream;
use counted_io::{Counted, DeviceFault, Output, Sink};
use line_text::Pieces;
use program_arguments::ListenAddress;
use std::alloc::Global;
use std::io;

/// Prints how the program ended, unless printed already.
pub fn tell_ending(rt: &HostRuntime, ending: Ending) {
    if let Some(message) = ending.message() {
        // If standard error fails too, the status stays.
        let _ = eprintln!(rt; "crawlgate: {message}");
    }
}

/// Prints the number of the first bad line of the input; the program ends.
pub fn tell_bad_line(rt: &HostRuntime, line: u64) -> Ending {
    tell(rt, AuditResult::BadLine(line).pieces(), Ending::BadLine)
}

/// Prints the port for clients; returns the ending.
pub fn tell_listening(rt: &HostRuntime, port: u16) -> Ending {
    tell(rt, ServerLine::Listens { port }.pieces(), Ending::Done)
}

/// Prints the path of the socket for clients; returns the ending.
pub fn tell_listening_at(rt: &HostRuntime, path: &str) -> Ending {
    tell(rt, ServerLine::ListensAt { path }.pieces(), Ending::Done)
}

/// Prints the port for overseers; returns the ending.
pub fn tell_sealing(rt: &HostRuntime, port: u16) -> Ending {
    tell(rt, ServerLine::Seals { port }.pieces(), Ending::Done)
}

/// Prints the path of the socket for overseers; returns the ending.
pub fn tell_sealing_at(rt: &HostRuntime, path: &str) -> Ending {
    tell(rt, ServerLine::SealsAt { path }.pieces(), Ending::Done)
}

/// Prints the port for clients of HTTP; returns the ending.
pub fn tell_http(rt: &HostRuntime, port: u16) -> Ending {
    tell(rt, ServerLine::ServesHttp { port }.pieces(), Ending::Done)
}

/// Prints the path of the socket for clients of HTTP; returns the ending.
pub fn tell_http_at(rt: &HostRuntime, path: &str) -> Ending {
    tell(rt, ServerLine::ServesHttpAt { path }.pieces(), Ending::Done)
}

/// Prints why nothing can listen at a place; the program ends.
pub fn tell_no_place(rt: &HostRuntime, place: &ListenAddress, error: &io::Error) -> Ending {
    let reason = error.kind();
    if !is_named(reason) {
        return Ending::Device;
    }
    // If standard error fails too, the status stays.
    let _ = match place {
        ListenAddress::Port(port) => eprintln!(rt; "crawlgate: device: port {port}: {reason}"),
        ListenAddress::Socket(path) => eprintln!(rt; "crawlgate: device: socket {path}: {reason}"),
    };
    Ending::ToldDevice
}

/// Prints why a pipe can't be read to its end; returns the ending.
pub fn tell_bad_pipe(rt: &HostRuntime, path: &str, reason: io::ErrorKind) -> Ending {
    // If standard error fails too, the status stays.
    let _ = if is_named(reason) {
        eprintln!(rt; "crawlgate: device: pipe {path:?}: {reason}")
    } else {
        eprintln!(rt; "crawlgate: device: pipe {path:?}")
    };
    Ending::ToldDevice
}

/// Prints that what should be a pipe is a regular file or a folder; the program ends.
pub fn tell_no_pipe(rt: &HostRuntime, path: &str) -> Ending {
    // If standard error fails too, the status stays.
    let _ = eprintln!(rt; "crawlgate: device: {path:?} is no pipe");
    Ending::ToldDevice
}

/// Prints why a standard stream failed, if it did and the program ends for a device.
pub fn tell_failed<D: Drop>(
    rt: &HostRuntime,
    ending: Ending,
    stream: Stream,
    device: Counted<Reasoned<D>>,
) -> Ending {
    match (ending, device.into_inner().reason) {
        (Ending::Device, Some(reason)) if is_named(reason) => {
            let name = stream.name();
            let _ = eprintln!(rt; "crawlgate: device: {name}: {reason}");
            Ending::ToldDevice
        }
        _ => ending,
    }
}

fn is_named(reason: io::ErrorKind) -> bool {
    match reason {
        io::ErrorKind::Other | io::ErrorKind::Uncategorized => false,
        _ => true,
    }
}

/// Prints what a server has done; the program ends.
pub fn tell_served(rt: &HostRuntime, connections: u64, events: u64) -> Ending {
    let line = ServerLine::Served {
        connections,
        events,
    };
    tell(rt, line.pieces(), Ending::Done)
}

/// Prints that the history of a server's gate is full.
pub fn tell_full_log(rt: &HostRuntime) {
    let _ = eprintln!(rt; "crawlgate: the log is full");
}

/// Prints after how many connections a server ends, which nobody has chosen.
pub fn tell_usual_end(rt: &HostRuntime, connections: u64) {
    // If standard error fails, the server still serves.
    let _ = eprintln!(rt;
        "crawlgate: serve: ends after {connections} connections; with --endless it does not end by itself"
    );
}

// Writes a line to standard output, and returns the program's ending.
fn tell(rt: &HostRuntime, line: Pieces<'_>, ending: Ending) -> Ending {
    let mut writer = Counted::new(Reasoned::new(rt.stdout()));
    let end = tell_to(rt.alloc(), &mut writer, line, ending);
    tell_failed(rt, end, Stream::Output, writer)
}

/// Writes a line to a sink, and returns the program's ending.
pub(crate) fn tell_to<W: Sink>(
    alloc: Global,
    writer: &mut W,
    line: Pieces<'_>,
    ending: Ending,
) -> Ending
    ensures tells { Tells (pieces_text line.entry) ending (W.written writer.old)
        (W.written writer.new) result }
    ensures count { CountsWrite ending (W.failures writer.old) (W.failures writer.new) result }
{
    match Output::new(alloc) {
        Ok(mut output) => tell_through(&mut output, writer, line, ending),
        Err(_) => Ending::NoMemory,
    }
}

fn tell_through<W: Sink>(
    output: &mut Output,
    writer: &mut W,
    line: Pieces<'_>,
    ending: Ending,
) -> Ending
    requires { output.old ≡ [] }
    ensures tells { Tells (pieces_text line.entry) ending (W.written writer.old)
        (W.written writer.new) result }
    ensures count { CountsWrite ending (W.failures writer.old) (W.failures writer.new) result }
{
    match write_line(line, output, writer) {
        Ok(()) => ending,
        Err(_) => Ending::Device,
    }
}

fn write_line<W: Sink>(
    line: Pieces<'_>,
    output: &mut Output,
    sink: &mut W,
) -> Result<(), DeviceFault>
    requires { output.old ≡ [] }
    ensures ok { OnOk result
        (Appends (W.written sink.old) (W.written sink.new) (pieces_text line.entry)) }
    ensures count { W.failures sink.new ≡ failures_after (W.failures sink.old) result }
{
    line.push(output, sink)?;
    output.flush(sink)
}
