//! `serve`: a session of a client with a keeper.
//! `crawlgate serve` runs one for each connection.
ghost use Rattle.std.specs.Prelude.{◌≡◌};
ghost use Rattle.command_server.specs.Clients.{AnswersClient, Serves};
ghost use Rattle.command_lines.specs.Limits.{max_client_line, max_lines};
ghost use Rattle.command_server.specs.declared.first_line.FirstLine.TheVariants as first_lines;
ghost use Rattle.command_lines.specs.declared.verbs.Speaker.TheVariants as speakers;
ghost use Rattle.command_lines.specs.Session.{Session, failures_after_reads, failures_after_writes};

use crate::client_lines::{Client, ClientLines};
use crate::first_line::FirstLine;
use crate::numbered_clock::NumberedClock;
use crate::server_counters::ServerCounters;
use command_lines::{MAX_LINES, SessionFault, Speaker, run_session};
use counted_io::{Sink, Source};
use keepers::Keeper;
use robots_text::LastToken;
use std::alloc::Global;

/// The most octets of a client's line, without its end.
pub const MAX_CLIENT_LINE: usize = 8192;

/// Reads a client's lines, makes their calls on the keeper, and writes the replies, before each read that
/// may wait and at the end. Reads the clock for each line, and again for fetches; moments are in seconds.
/// At QUIT, and once more at any end, gives back all that the session has out. INFO tells of no connections.
pub fn serve<R: Source, W: Sink, K: Keeper, C: NumberedClock>(
    alloc: Global,
    reader: &mut R,
    writer: &mut W,
    keeper: &mut K,
    clock: &C,
) -> Result<(), SessionFault>
    ensures session { Serves K.deals speakers.Client first_lines.Any
        (C.reads clock.now) keeper.old keeper.new
        (R.left reader.old) (R.left reader.new)
        (W.written writer.old) (W.written writer.new) result }
    ensures reads { R.failures reader.new ≡ failures_after_reads (R.failures reader.old) result }
    ensures writes { W.failures writer.new
        ≡ failures_after_writes (W.failures writer.old) result }
{
    let counters = ServerCounters::new(None, None, None);
    serve_from(
        alloc,
        reader,
        writer,
        keeper,
        clock,
        FirstLine::Any,
        &counters,
    )
}

/// Like `serve`, but ends the session after a first line that is turned away, and counts in these counters,
/// which INFO tells.
pub fn serve_from<R: Source, W: Sink, K: Keeper, C: NumberedClock>(
    alloc: Global,
    reader: &mut R,
    writer: &mut W,
    keeper: &mut K,
    clock: &C,
    first: FirstLine,
    counters: &ServerCounters<'_>,
) -> Result<(), SessionFault>
    ensures session { Serves K.deals speakers.Client first (C.reads clock.now) keeper.old keeper.new
        (R.left reader.old) (R.left reader.new)
        (W.written writer.old) (W.written writer.new) result }
    ensures reads { R.failures reader.new ≡ failures_after_reads (R.failures reader.old) result }
    ensures writes { W.failures writer.new
        ≡ failures_after_writes (W.failures writer.old) result }
{
    let lines = ClientLines {
        speaker: Speaker::Client,
        clock,
        first,
        counters,
        last: LastToken::none(),
    };
    serve_lines(alloc, reader, writer, keeper, &lines)
}

/// Like `serve_from`, for an overseer: its lines can't ask for permits or fetches.
pub fn serve_overseer<R: Source, W: Sink, K: Keeper, C: NumberedClock>(
    alloc: Global,
    reader: &mut R,
    writer: &mut W,
    keeper: &mut K,
    clock: &C,
    first: FirstLine,
    counters: &ServerCounters<'_>,
) -> Result<(), SessionFault>
    ensures session { Serves K.deals speakers.Overseer first
        (C.reads clock.now) keeper.old keeper.new
        (R.left reader.old) (R.left reader.new)
        (W.written writer.old) (W.written writer.new) result }
    ensures reads { R.failures reader.new ≡ failures_after_reads (R.failures reader.old) result }
    ensures writes { W.failures writer.new
        ≡ failures_after_writes (W.failures writer.old) result }
{
    let lines = ClientLines {
        speaker: Speaker::Overseer,
        clock,
        first,
        counters,
        last: LastToken::none(),
    };
    serve_lines(alloc, reader, writer, keeper, &lines)
}

// Answers the lines, and ends the session whatever it met.
fn serve_lines<R: Source, W: Sink, K: Keeper, C: NumberedClock>(
    alloc: Global,
    reader: &mut R,
    writer: &mut W,
    keeper: &mut K,
    lines: &ClientLines<'_, C>,
) -> Result<(), SessionFault>
    ensures session { Serves K.deals lines.now.speaker lines.now.first
        (C.reads lines.now.clock.now) keeper.old keeper.new
        (R.left reader.old) (R.left reader.new)
        (W.written writer.old) (W.written writer.new) result }
    ensures reads { R.failures reader.new ≡ failures_after_reads (R.failures reader.old) result }
    ensures writes { W.failures writer.new
        ≡ failures_after_writes (W.failures writer.old) result }
{
    let mut client = Client { keeper, number: 0 };
    let end = run_lines(alloc, reader, writer, lines, &mut client);
    client.keeper.end();
    end
}

// Answers the lines with the lent keeper.
fn run_lines<'k, R: Source, W: Sink, K: Keeper, C: NumberedClock>(
    alloc: Global,
    reader: &mut R,
    writer: &mut W,
    lines: &ClientLines<'_, C>,
    client: &mut Client<'k, K>,
) -> Result<(), SessionFault>
    ensures keeper { client.new.keeper.ghost_name ≡ client.old.keeper.ghost_name }
    ensures session { Session
        (AnswersClient K.deals lines.now.speaker lines.now.first (C.reads lines.now.clock.now))
        max_client_line max_lines
        (record { keeper = client.old.keeper.now; number = client.old.number })
        (record { keeper = client.new.keeper.now; number = client.new.number })
        (R.left reader.old) (R.left reader.new)
        (W.written writer.old) (W.written writer.new) result }
    ensures reads { R.failures reader.new ≡ failures_after_reads (R.failures reader.old) result }
    ensures writes { W.failures writer.new
        ≡ failures_after_writes (W.failures writer.old) result }
{
    run_session(
        alloc,
        reader,
        writer,
        lines,
        client,
        MAX_CLIENT_LINE,
        MAX_LINES,
    )
}
