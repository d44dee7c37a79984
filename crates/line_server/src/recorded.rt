//! A gate with its journal: no reply and no fetch goes past what is recorded.
//! Without a journal nothing has to be recorded first.
use crate::line_turns::LineTurns;
use command_server::ServerCounters;
use gate_journal::Recording;
use gate_lock::{Gate, GateLock};
use journal::{CaughtUp, Recorder};
use journal_keepers::{JournalRecords, JournaledFetcher};
use std::sync::Wait;

/// A gate, its journal, and what its server counts, with the turns of its sessions.
#[derive(Drop)]
pub(crate) struct Recorded<'a, G: Gate, J: Recorder, R: Wait> {
    pub(crate) gate: &'a GateLock<G>,
    pub(crate) chronicle: Recording<'a, G, R>,
    pub(crate) journal: &'a J,
    pub(crate) counters: ServerCounters<'a>,
    pub(crate) turns: LineTurns,
}

impl<'a, G: Gate, J: Recorder, R: Wait> Recorded<'a, G, J, R> {
    /// The fetcher of a desk, which waits for the journal.
    pub(crate) fn journaled<'b, F>(
        &'b self,
        fetcher: &'b F,
    ) -> JournaledFetcher<'b, CaughtUp<'b, Recording<'a, G, R>, J, R>, F> {
        JournaledFetcher {
            ahead: self.caught_up(),
            fetcher,
        }
    }

    /// The journal, as a keeper sees it.
    pub(crate) fn records(&self) -> JournalRecords<'_, Recording<'a, G, R>, J> {
        JournalRecords {
            chronicle: &self.chronicle,
            journal: self.journal,
        }
    }

    /// What records before each write to a client, and before each fetch.
    pub(crate) fn caught_up(&self) -> CaughtUp<'_, Recording<'a, G, R>, J, R> {
        CaughtUp {
            rt: self.chronicle.rt,
            chronicle: &self.chronicle,
            journal: self.journal,
        }
    }
}
