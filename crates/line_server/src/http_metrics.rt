//! The page of numbers for a collector: what INFO tells, and how busy the loop of HTTP clients is.
//! docs/FORMATS.md has its lines.
ghost use Rattle.std.specs.Prelude.{◌≡◌, IfOk, OnOk, codes};
ghost use Rattle.line_server.specs.HttpMetrics.{metrics_text, with_clients, with_counter, with_counts, with_faults, with_gauge, with_journal, with_load, with_metric, with_robots, with_rulings, with_wants};

use command_server::{DenialCounts, ServerCounters, ServerCounts};
use fetchers::RobotsFaults;
use gate_history::Cause;
use http_front::Metrics;
use itoa::Buffer;
use journal::JournalCounts;
use keepers::Counts;
use std::alloc::{AllocError, Global};
use std::sync::Wait;
use turns::{Dispatcher, Load};

/// What there is to tell of a server beside its gate.
#[derive(Drop)]
pub(crate) struct ServerMetrics<'a, R> {
    pub(crate) rt: &'a R,
    pub(crate) counters: &'a ServerCounters<'a>,
    pub(crate) dispatcher: &'a Dispatcher,
}

impl<R: Wait> Metrics for ServerMetrics<'_, R> {
    ghost use Rattle.std.specs.Prelude.{◌≡◌};
    ghost use Rattle.command_server.specs.declared.server_counters.ServerCounts.{ServerCounts};
    ghost use Rattle.line_server.specs.HttpMetrics.{metrics_text};
    ghost use Rattle.turns.specs.declared.load.Load.{Load};

    ghost tells = { λ _ counts text. (server : ServerCounts) × (load : Load)
        × (text ≡ metrics_text counts server load) };

    fn text(&self, alloc: Global, counts: Counts) -> Result<Vec<u8>, AllocError> {
        metrics_text(
            alloc,
            counts,
            self.counters.read(),
            self.dispatcher.load(self.rt),
        )
    }

    fn note_denial(&self, cause: Cause) {
        self.counters.deny(cause);
    }

    fn note_failed_page(&self) {
        self.counters.fail_page();
    }
}

fn metrics_text(
    alloc: Global,
    counts: Counts,
    server: ServerCounts,
    load: Load,
) -> Result<Vec<u8>, AllocError>
    ensures { IfOk result (λ text. text.items ≡ metrics_text counts server load) }
{
    let mut text = Vec::new(alloc);
    push_counts(&mut text, counts)?;
    push_clients(&mut text, server)?;
    push_rulings(&mut text, server.denials)?;
    push_wants(&mut text, server.denials)?;
    push_faults(&mut text, server)?;
    push_journal(&mut text, server.journal)?;
    push_robots(&mut text, server.robots_faults)?;
    push_load(&mut text, load)?;
    Ok(text)
}

fn push_counts(text: &mut Vec<u8>, counts: Counts) -> Result<(), AllocError>
    ensures { OnOk result (text.new.items ≡ with_counts text.old.items counts) }
{
    push_gauge(text, "entries", counts.entries)?;
    push_counter(text, "entries_total", counts.ever)?;
    push_counter(text, "starts_total", counts.starts)?;
    push_gauge(text, "permits", counts.permits)?;
    push_gauge(text, "running", counts.running)?;
    push_gauge(text, "turns", counts.turns)?;
    push_gauge(text, "authorities", counts.authorities)?;
    push_gauge(text, "room", counts.room)
}

fn push_clients(text: &mut Vec<u8>, server: ServerCounts) -> Result<(), AllocError>
    ensures { OnOk result (text.new.items ≡ with_clients text.old.items server) }
{
    push_counter(text, "connections_total", server.connections)?;
    push_gauge(text, "clients", server.clients)?;
    push_gauge(text, "waiting", server.waiting)
}

// The denials by an answer.
fn push_rulings(text: &mut Vec<u8>, denials: DenialCounts) -> Result<(), AllocError>
    ensures { OnOk result (text.new.items ≡ with_rulings text.old.items denials) }
{
    push_counter(text, "denied_by_lines_total", denials.line)?;
    push_counter(text, "denied_closed_total", denials.closed)
}

// The denials for want of an answer in force, or of a permit.
fn push_wants(text: &mut Vec<u8>, denials: DenialCounts) -> Result<(), AllocError>
    ensures { OnOk result (text.new.items ≡ with_wants text.old.items denials) }
{
    push_counter(text, "denied_unknown_total", denials.unknown)?;
    push_counter(text, "denied_expired_total", denials.expired)?;
    push_counter(text, "denied_spent_total", denials.spent)
}

fn push_faults(text: &mut Vec<u8>, server: ServerCounts) -> Result<(), AllocError>
    ensures { OnOk result (text.new.items ≡ with_faults text.old.items server) }
{
    push_counter(text, "failed_pages_total", server.failed_pages)?;
    push_counter(text, "failed_robots_total", server.failed_robots)
}

fn push_journal(text: &mut Vec<u8>, journal: JournalCounts) -> Result<(), AllocError>
    ensures { OnOk result (text.new.items ≡ with_journal text.old.items journal) }
{
    push_counter(text, "journal_octets_total", journal.octets)?;
    push_counter(text, "journal_syncs_total", journal.syncs)?;
    push_gauge(
        text,
        "journal_slowest_sync_microseconds",
        journal.slowest_sync,
    )
}

// The failed fetches of robots.txt files by cause.
fn push_robots(text: &mut Vec<u8>, faults: RobotsFaults) -> Result<(), AllocError>
    ensures { OnOk result (text.new.items ≡ with_robots text.old.items faults) }
{
    push_counter(text, "robots_no_name_total", faults.no_name)?;
    push_counter(text, "robots_refused_total", faults.refused)?;
    push_counter(text, "robots_timed_out_total", faults.timed_out)?;
    push_counter(text, "robots_tls_total", faults.tls)?;
    push_counter(text, "robots_status_total", faults.status)?;
    push_counter(text, "robots_other_total", faults.other)
}

fn push_load(text: &mut Vec<u8>, load: Load) -> Result<(), AllocError>
    ensures { OnOk result (text.new.items ≡ with_load text.old.items load) }
{
    push_gauge(text, "http_connections", load.open as u64)?;
    push_gauge(text, "http_waiting", load.called as u64)?;
    push_gauge(text, "http_waiting_visits", load.called_slow as u64)?;
    push_gauge(text, "http_visits", load.slow as u64)
}

fn push_gauge(text: &mut Vec<u8>, name: &str, number: u64) -> Result<(), AllocError>
    ensures { OnOk result (text.new.items ≡ with_gauge text.old.items name.now number) }
{
    push_metric(text, name, "gauge", number)
}

fn push_counter(text: &mut Vec<u8>, name: &str, number: u64) -> Result<(), AllocError>
    ensures { OnOk result (text.new.items ≡ with_counter text.old.items name.now number) }
{
    push_metric(text, name, "counter", number)
}

#[tactic(auto, unfolding(crate::specs::HttpMetrics::with_metric))]
fn push_metric(text: &mut Vec<u8>, name: &str, kind: &str, number: u64) -> Result<(), AllocError>
    ensures { OnOk result (text.new.items ≡ with_metric text.old.items name.now kind.now number) }
{
    let mut buffer = Buffer::new();
    text.extend_from_slice(b"# TYPE crawlgate_")?;
    text.extend_from_slice(name.as_bytes())?;
    text.extend_from_slice(b" ")?;
    text.extend_from_slice(kind.as_bytes())?;
    text.extend_from_slice(b"\ncrawlgate_")?;
    text.extend_from_slice(name.as_bytes())?;
    text.extend_from_slice(b" ")?;
    text.extend_from_slice(buffer.format(number).as_bytes())?;
    text.extend_from_slice(b"\n")
}
