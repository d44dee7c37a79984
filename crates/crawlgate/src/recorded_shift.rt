//! `crawlgate shift`: its jobs are done, and its output is written. With a journal output and requests wait
//! until all earlier entries are in the files, and the shift continues from where these end.
ghost use Rattle.std.specs.Prelude.{◌≤◌, length};
ghost use Rattle.job_line.specs.Limits.{IsCrew, max_jobs};

use crate::journal_start::{OpenJournal, Past};
use crate::shift_ending;
use counted_io::{Counted, Sink};
use crawl_job::Job;
use crawl_shift::{ClosedSites, EarlyEnd, NotShifted, Shift};
use fetchers::Fetcher;
use gate_journal::Recording;
use gate_lock::{Gate, GateLock, Receipts};
use job_line::{MAX_JOBS, MAX_WORKERS};
use journal::{CaughtUp, GroupJournal, JournaledSink, Recorder, Unrecorded};
use journal_keepers::{JournaledFetcher, Looks};
use keepers::{NoKeeper, fetch_anew};
use page_worker::Clock;
use program_arguments::ShiftOutput;
use program_commands::{Ending, Reasoned, Stream, tell_failed, tell_failed_journal};
use std::sync::Wait;
use std::sync::atomic::{AtomicU64, Ordering};
use std::thread::Threads;
use std::time::Duration;
use std::{thread, time};

// The time between two looks at entries that nobody waits for, and how many looks are between two syncs, if
// those come once a second.
const NAP_MILLISECONDS: u64 = 20;

const SYNC_LOOKS: u64 = 50;

/// Begins the journal, if any, and does these jobs. Reports a failure of the journal.
pub(crate) fn shift_recorded<
    G: Gate + Send + Sync,
    E: Sink + Send,
    F: Fetcher + Sync,
    C: Clock + Sync,
    R: Threads + Wait + time::Clock + Sync,
>(
    host: &HostRuntime,
    shift: &Shift<'_, '_, E, F, C, R>,
    jobs: &[Job],
    gate: &GateLock<G>,
    past: Past<G>,
    journal: Option<OpenJournal<'_>>,
    told: ShiftOutput,
) -> Ending {
    let chronicle = Recording {
        alloc: shift.alloc,
        rt: shift.rt,
        shared: gate.shared(),
    };
    let Some(journal) = journal else {
        let unrecorded = RecordedShift {
            gate,
            chronicle: &chronicle,
            journal: &Unrecorded,
        };
        return unrecorded.do_some(host, shift, jobs, past, told);
    };
    let OpenJournal {
        name,
        folder,
        sync,
        room,
    } = journal;
    match GroupJournal::begin(shift.alloc, &chronicle, folder, sync, room, past.first) {
        Ok(journal) => {
            let recorded = RecordedShift {
                gate,
                chronicle: &chronicle,
                journal: &journal,
            };
            // (no history is written beside the journal, which has it)
            let told = match told {
                ShiftOutput::History => ShiftOutput::Outcomes,
                told => told,
            };
            let ending = recorded.work(host, shift, jobs, past, told);
            match journal.fault(shift.rt) {
                Some(fault) => tell_failed_journal(host, name, fault),
                None => ending,
            }
        }
        Err(fault) => tell_failed_journal(host, name, fault),
    }
}

// A gate and its journal, which may be none.
#[derive(Clone, Copy)]
struct RecordedShift<'r, 'a, G: Gate, J: Recorder, R: Wait> {
    gate: &'a GateLock<G>,
    chronicle: &'r Recording<'a, G, R>,
    journal: &'r J,
}

impl<
    'r,
    'a,
    G: Gate + Send + Sync,
    J: Recorder + Sync,
    R: Threads + Wait + time::Clock + Sync,
> RecordedShift<'r, 'a, G, J, R> {
    // Does the jobs, and records meanwhile what nobody waits for. Without threads, what is named first runs
    // last.
    fn work<E: Sink + Send, F: Fetcher + Sync, C: Clock + Sync>(
        &self,
        host: &HostRuntime,
        shift: &Shift<'_, '_, E, F, C, R>,
        jobs: &[Job],
        past: Past<G>,
        told: ShiftOutput,
    ) -> Ending {
        let ended = AtomicU64::new(0);
        let ((), ending) = thread::join(
            self.chronicle.rt,
            || self.record(&ended),
            || {
                let ending = self.do_some(host, shift, jobs, past, told);
                ended.store(1, Ordering::SeqCst);
                ending
            },
        );
        ending
    }

    // Records entries until the jobs have ended, and then all that is left.
    fn record(&self, ended: &AtomicU64) {
        let rt = self.chronicle.rt;
        let mut looks = Looks::new(SYNC_LOOKS);
        for _ in rt.forever() {
            let is_last = ended.load(Ordering::SeqCst) > 0;
            // (a fault is kept, and each write returns it)
            let _ = looks.look(rt, self.chronicle, self.journal, is_last);
            if is_last {
                return;
            }
            thread::sleep(rt, Duration::from_millis(NAP_MILLISECONDS));
        }
    }

    // Does the jobs, if their number and the workers' are within the limits: a thread's closure does not
    // know what its maker was promised.
    fn do_some<E: Sink + Send, F: Fetcher + Sync, C: Clock + Sync>(
        &self,
        host: &HostRuntime,
        shift: &Shift<'_, '_, E, F, C, R>,
        jobs: &[Job],
        past: Past<G>,
        told: ShiftOutput,
    ) -> Ending {
        let workers = shift.workers;
        if jobs.len() as u64 > MAX_JOBS || workers == 0 || workers > MAX_WORKERS {
            return Ending::Device;
        }
        self.do_jobs(host, shift, jobs, past, told)
    }

    // Fetches anew what the last process was fetching, and does the jobs.
    fn do_jobs<E: Sink + Send, F: Fetcher + Sync, C: Clock + Sync>(
        &self,
        host: &HostRuntime,
        shift: &Shift<'_, '_, E, F, C, R>,
        jobs: &[Job],
        past: Past<G>,
        told: ShiftOutput,
    ) -> Ending
        requires jobs { length jobs.now ≤ max_jobs }
        requires workers { IsCrew shift.now.workers }
    {
        let fetcher = JournaledFetcher {
            ahead: self.caught_up(),
            fetcher: shift.fetcher,
        };
        let behind = Shift {
            rt: shift.rt,
            alloc: shift.alloc,
            workers: shift.workers,
            delay: shift.delay,
            fetcher: &fetcher,
            clock: shift.clock,
            status: shift.status,
            early: shift.early,
        };
        match self.receipts_before(&behind, past) {
            Ok(receipts) => self.write_jobs(host, &behind, jobs, receipts, told),
            Err(NoKeeper::NoMemory) => Ending::NoMemory,
            Err(NoKeeper::DesksFull) => Ending::Device,
        }
    }

    // Does the jobs, and writes the output.
    fn write_jobs<E: Sink + Send, F: Fetcher + Sync, C: Clock + Sync>(
        &self,
        host: &HostRuntime,
        shift: &Shift<'_, '_, E, F, C, R>,
        jobs: &[Job],
        past: Vec<Receipts<G>>,
        told: ShiftOutput,
    ) -> Ending
        requires jobs { length jobs.now ≤ max_jobs }
        requires workers { IsCrew shift.now.workers }
    {
        let gate = self.gate;
        let output = Counted::new(Reasoned::new(host.stdout()));
        let mut writer = JournaledSink::new(self.caught_up(), output);
        let closed = ClosedSites::new(shift.rt, shift.alloc);
        let end = write_told(shift, jobs, &mut writer, gate, past, told, &closed);
        // (a failing standard error does not change the status)
        let _ = closed.tell(&mut Counted::new(host.stderr()));
        if end == Err(NotShifted::Over) {
            tell_left(host, shift.early, jobs);
        }
        tell_failed(host, shift_ending(end), Stream::Output, writer.into_sink())
    }

    // The receipts from before the jobs: of an earlier process, and of the robots.txt files that it was
    // fetching, which are fetched anew.
    fn receipts_before<E: Sink + Send, F: Fetcher + Sync, C: Clock + Sync>(
        &self,
        shift: &Shift<'_, '_, E, F, C, R>,
        past: Past<G>,
    ) -> Result<Vec<Receipts<G>>, NoKeeper> {
        let Past {
            receipts,
            sites,
            first: _,
        } = past;
        let mut all = Vec::new(shift.alloc);
        if all.push(receipts).is_err() {
            return Err(NoKeeper::NoMemory);
        }
        if !sites.is_empty() {
            let (fetcher, clock) = (shift.fetcher, shift.clock);
            // (the jobs wait for all)
            let left = AtomicU64::new(1);
            let fetched = fetch_anew(
                shift.rt,
                shift.alloc,
                self.gate,
                fetcher,
                clock,
                sites.as_slice(),
                &left,
            )?;
            if all.push(fetched).is_err() {
                return Err(NoKeeper::NoMemory);
            }
        }
        Ok(all)
    }

    // What records before each write and fetch.
    fn caught_up(&self) -> CaughtUp<'r, Recording<'a, G, R>, J, R> {
        CaughtUp {
            rt: self.chronicle.rt,
            chronicle: self.chronicle,
            journal: self.journal,
        }
    }
}

// Reports the jobs that are not done, ignoring a failing standard error.
fn tell_left<R: Wait>(host: &HostRuntime, early: &EarlyEnd<'_, R>, jobs: &[Job]) {
    if let Ok(left) = early.left(jobs) {
        let _ = left.tell(&mut Counted::new(host.stderr()));
    }
}

// Does the jobs, and writes the output to this sink.
fn write_told<
    G: Gate + Send + Sync,
    W: Sink + Send,
    E: Sink + Send,
    F: Fetcher + Sync,
    C: Clock + Sync,
    R: Threads + Wait + time::Clock + Sync,
>(
    shift: &Shift<'_, '_, E, F, C, R>,
    jobs: &[Job],
    writer: &mut W,
    gate: &GateLock<G>,
    past: Vec<Receipts<G>>,
    told: ShiftOutput,
    closed: &ClosedSites<'_, R>,
) -> Result<(), NotShifted>
    requires jobs { length jobs.now ≤ max_jobs }
    requires workers { IsCrew shift.now.workers }
{
    match told {
        ShiftOutput::Table => shift.table(jobs, writer, gate, past),
        ShiftOutput::Outcomes => shift.report(jobs, writer, gate, past, closed),
        ShiftOutput::History => shift.history(jobs, writer, gate, closed),
    }
}
