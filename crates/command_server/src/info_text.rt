//! The reply to INFO: how much the gate keeps, and what its server has counted (docs/FORMATS.md, replies).
//! Used by `ClientReply`.
ghost use Rattle.std.specs.Prelude.{◌≡◌};
ghost use Rattle.counted_io.specs.Output.{Pushes};
ghost use Rattle.line_text.specs.Pieces.{pieces_text};
ghost use Rattle.command_server.specs.InfoText.{after_authorities, begin_of_info, denials_of_info, end_of_info, events_of_info, faults_of_info, info_text, journal_of_info, rest_of_info, server_of_info, work_of_info};
ghost use Rattle.command_server.specs.InfoText.{causes_of_info, records_of_info, refusals_of_info, unheard_of_info};

use crate::server_counters::{DenialCounts, ServerCounts};
use counted_io::{DeviceFault, Output, Sink};
use fetchers::RobotsFaults;
use journal::JournalCounts;
use keepers::Counts;
use line_text::{Piece, Pieces};

/// Pushes the line.
pub(crate) fn push_info<W: Sink>(
    counts: Counts,
    server: ServerCounts,
    output: &mut Output,
    sink: &mut W,
) -> Result<(), DeviceFault>
    ensures { Pushes (W.written sink.old) (W.written sink.new)
        (W.failures sink.old) (W.failures sink.new) output.old output.new
        (info_text counts server) result }
{
    opening_pieces(counts).push(output, sink)?;
    push_rest(counts, server, output, sink)
}

fn push_rest<W: Sink>(
    counts: Counts,
    server: ServerCounts,
    output: &mut Output,
    sink: &mut W,
) -> Result<(), DeviceFault>
    ensures { Pushes (W.written sink.old) (W.written sink.new)
        (W.failures sink.old) (W.failures sink.new) output.old output.new
        (rest_of_info counts server) result }
{
    closing_pieces(counts).push(output, sink)?;
    push_server(counts, server, output, sink)
}

fn push_server<W: Sink>(
    counts: Counts,
    server: ServerCounts,
    output: &mut Output,
    sink: &mut W,
) -> Result<(), DeviceFault>
    ensures { Pushes (W.written sink.old) (W.written sink.new)
        (W.failures sink.old) (W.failures sink.new) output.old output.new
        (after_authorities counts server) result }
{
    server_pieces(counts, server).push(output, sink)?;
    push_events(server, output, sink)
}

fn push_events<W: Sink>(
    server: ServerCounts,
    output: &mut Output,
    sink: &mut W,
) -> Result<(), DeviceFault>
    ensures { Pushes (W.written sink.old) (W.written sink.new)
        (W.failures sink.old) (W.failures sink.new) output.old output.new
        (events_of_info server) result }
{
    denial_pieces(server.denials).push(output, sink)?;
    push_work(server, output, sink)
}

fn push_work<W: Sink>(
    server: ServerCounts,
    output: &mut Output,
    sink: &mut W,
) -> Result<(), DeviceFault>
    ensures { Pushes (W.written sink.old) (W.written sink.new)
        (W.failures sink.old) (W.failures sink.new) output.old output.new
        (work_of_info server) result }
{
    fault_pieces(server).push(output, sink)?;
    push_records(server, output, sink)
}

fn push_records<W: Sink>(
    server: ServerCounts,
    output: &mut Output,
    sink: &mut W,
) -> Result<(), DeviceFault>
    ensures { Pushes (W.written sink.old) (W.written sink.new)
        (W.failures sink.old) (W.failures sink.new) output.old output.new
        (records_of_info server) result }
{
    journal_pieces(server.journal).push(output, sink)?;
    push_causes(server, output, sink)
}

fn push_causes<W: Sink>(
    server: ServerCounts,
    output: &mut Output,
    sink: &mut W,
) -> Result<(), DeviceFault>
    ensures { Pushes (W.written sink.old) (W.written sink.new)
        (W.failures sink.old) (W.failures sink.new) output.old output.new
        (causes_of_info server) result }
{
    unheard_pieces(server.robots_faults).push(output, sink)?;
    refusal_pieces(server).push(output, sink)
}

// The entries, the starts, and the permits out.
#[tactic(auto, unfolding(crate::specs::InfoText::begin_of_info))]
fn opening_pieces(counts: Counts) -> Pieces<'static>
    ensures { pieces_text result ≡ begin_of_info counts }
{
    Pieces::of(&[
        Piece::Text("INFO entries "),
        Piece::Number(counts.entries),
        Piece::Text(" ever "),
        Piece::Number(counts.ever),
        Piece::Text(" starts "),
        Piece::Number(counts.starts),
        Piece::Text(" permits "),
        Piece::Number(counts.permits),
    ])
}

// The fetches under way, and the authorities.
#[tactic(auto, unfolding(crate::specs::InfoText::end_of_info))]
fn closing_pieces(counts: Counts) -> Pieces<'static>
    ensures { pieces_text result ≡ end_of_info counts }
{
    Pieces::of(&[
        Piece::Text(" running "),
        Piece::Number(counts.running),
        Piece::Text(" turns "),
        Piece::Number(counts.turns),
        Piece::Text(" authorities "),
        Piece::Number(counts.authorities),
        Piece::Text(" room "),
    ])
}

// The room of the history, and the server's connections.
#[tactic(auto, unfolding(crate::specs::InfoText::server_of_info))]
fn server_pieces(counts: Counts, server: ServerCounts) -> Pieces<'static>
    ensures { pieces_text result ≡ server_of_info counts server }
{
    Pieces::of(&[
        Piece::Number(counts.room),
        Piece::Text(" connections "),
        Piece::Number(server.connections),
        Piece::Text(" clients "),
        Piece::Number(server.clients),
    ])
}

// The denials by cause, but for those of spent permits.
#[tactic(auto, unfolding(crate::specs::InfoText::denials_of_info))]
fn denial_pieces(denials: DenialCounts) -> Pieces<'static>
    ensures { pieces_text result ≡ denials_of_info denials }
{
    Pieces::of(&[
        Piece::Text(" denied_line "),
        Piece::Number(denials.line),
        Piece::Text(" denied_closed "),
        Piece::Number(denials.closed),
        Piece::Text(" denied_unknown "),
        Piece::Number(denials.unknown),
        Piece::Text(" denied_expired "),
        Piece::Number(denials.expired),
        Piece::Text(" denied_spent "),
    ])
}

// The denials of spent permits, and the fetches without a response.
#[tactic(auto, unfolding(crate::specs::InfoText::faults_of_info))]
fn fault_pieces(server: ServerCounts) -> Pieces<'static>
    ensures { pieces_text result ≡ faults_of_info server }
{
    Pieces::of(&[
        Piece::Number(server.denials.spent),
        Piece::Text(" failed_pages "),
        Piece::Number(server.failed_pages),
        Piece::Text(" failed_robots "),
        Piece::Number(server.failed_robots),
        Piece::Text(" journal_octets "),
    ])
}

// What the journal has written.
#[tactic(auto, unfolding(crate::specs::InfoText::journal_of_info))]
fn journal_pieces(journal: JournalCounts) -> Pieces<'static>
    ensures { pieces_text result ≡ journal_of_info journal }
{
    Pieces::of(&[
        Piece::Number(journal.octets),
        Piece::Text(" journal_syncs "),
        Piece::Number(journal.syncs),
        Piece::Text(" slowest_sync "),
        Piece::Number(journal.slowest_sync),
        Piece::Text(" robots_no_name "),
    ])
}

// The fetches of robots.txt files that heard nothing of a server, by cause.
#[tactic(auto, unfolding(crate::specs::InfoText::unheard_of_info))]
fn unheard_pieces(faults: RobotsFaults) -> Pieces<'static>
    ensures { pieces_text result ≡ unheard_of_info faults }
{
    Pieces::of(&[
        Piece::Number(faults.no_name),
        Piece::Text(" robots_refused "),
        Piece::Number(faults.refused),
        Piece::Text(" robots_timed_out "),
        Piece::Number(faults.timed_out),
        Piece::Text(" robots_tls "),
    ])
}

// The other failed fetches of robots.txt files, by cause, and the clients that wait.
#[tactic(auto, unfolding(crate::specs::InfoText::refusals_of_info))]
fn refusal_pieces(server: ServerCounts) -> Pieces<'static>
    ensures { pieces_text result ≡ refusals_of_info server }
{
    Pieces::of(&[
        Piece::Number(server.robots_faults.tls),
        Piece::Text(" robots_status "),
        Piece::Number(server.robots_faults.status),
        Piece::Text(" robots_other "),
        Piece::Number(server.robots_faults.other),
        Piece::Text(" waiting "),
        Piece::Number(server.waiting),
        Piece::Text("\n"),
    ])
}
