//! The program: does what its arguments ask, over the standard streams.
//! docs/crawlgate.1.md is its manual page.
#![tactic(auto)]

mod fetching;
mod http_place;
mod journal_start;
mod recorded_shift;
mod serving;
mod tls_program;
mod until_pipe;

ghost use Rattle.std.specs.Prelude.{◌≡◌, ◌≤◌, IfOk, length};
ghost use Rattle.gate_core.specs.Resuming.{IsIdle};
ghost use Rattle.job_line.specs.Limits.{IsCrew, max_jobs};
ghost use Rattle.program_arguments.specs.Options.{AreForShift};

use crate::fetching::{Ways, new_fetcher};
use crate::journal_start::{JournalStart, OpenJournal, Past, begin_with, clock_of, open_journal};
use crate::recorded_shift::shift_recorded;
use crate::serving::serve;
use crate::tls_program::find_tls_program;
use crate::until_pipe::asked_by;
use counted_io::{Counted, Sink};
use crawl_job::Job;
use crawl_shift::{
    BadJobLine, BadLines, ClosedSites, EarlyEnd, JobLines, JobLinesFault, NotShifted, Shift,
    StatusLine, read_job_lines, tell_bad_lines,
};
use fetchers::Fetcher;
use gate_lock::{Blanks, Gate, GateLock};
use journal::FirstFile;
use page_worker::Clock;
use program_arguments::{BadJobs, ShiftOptions, ShiftOutput};
use program_commands::{
    Ending, Next, Reasoned, Stream, run, tell_bad_line, tell_ending, tell_failed,
};
use std::io::IsTerminal;
use std::marker::Brand;
use std::process::ExitCode;
use std::sync::Wait;
use std::thread::Threads;
use std::time;
use std::time::Duration;

fn main(rt: HostRuntime) -> ExitCode {
    let ending = match run(&rt) {
        Next::Ends(ending) => ending,
        Next::Shift(options) => match shift(&rt, &rt, options) {
            Ok(ending) | Err(ending) => ending,
        },
        Next::Serve(options) => serve(&rt, &rt, options),
    };
    tell_ending(&rt, ending);
    ExitCode::from(ending.status())
}

// Does a shift. The first handle is for threads, the second for streams.
fn shift<R: Threads + Wait + time::Clock + Sync>(
    rt: &R,
    host: &HostRuntime,
    options: ShiftOptions,
) -> Result<Ending, Ending>
    requires { AreForShift options }
{
    find_tls_program(host, options.tls_by, options.times.connect)?;
    let ways = Ways {
        times: options.times,
        reach: options.reach,
        not_to: options.not_to.as_slice(),
        tls_by: options.tls_by,
        retry_closed: options.retry_closed,
        page_connections: options.page_connections,
        texts: None,
        page_limit: None,
    };
    let Ok(fetcher) = new_fetcher(host, ways, &options.contact) else {
        return Err(Ending::NoMemory);
    };
    let asked = asked_by(rt, host, &options.until)?;
    let early = EarlyEnd::new(rt, host.alloc(), &asked);
    let journal = open_journal(host, &options.journal)?;
    let begun = begin_with(host, options.limits, &journal)?;
    shift_watched(rt, host, &options, begun, journal, &fetcher, &early)
}

// Does it with a progress line if standard error is a watched terminal.
fn shift_watched<'r, F: Fetcher + Sync, R: Threads + Wait + time::Clock + Sync>(
    rt: &'r R,
    host: &HostRuntime,
    options: &ShiftOptions,
    begun: JournalStart,
    journal: Option<OpenJournal<'_>>,
    fetcher: &'r F,
    early: &'r EarlyEnd<'r, R>,
) -> Result<Ending, Ending>
    requires options { AreForShift options.now }
    requires book { IsIdle begun.book }
{
    let clock = clock_of(rt, host, &begun.book);
    let mut errors = Counted::new(host.stderr());
    let sink = watched(is_watched(host), &mut errors);
    let Ok(status) = StatusLine::new(rt, host.alloc(), sink) else {
        return Err(Ending::NoMemory);
    };
    let shift = Shift {
        rt,
        alloc: host.alloc(),
        workers: options.workers,
        delay: Duration::from_secs(options.delay),
        fetcher,
        clock: &clock,
        status: &status,
        early,
    };
    let blanks = Blanks::new();
    shift_jobs::<Brand, _, _, _, _>(host, options, &shift, begun, journal, blanks)
}

// What a progress line is written to, if anybody watches.
fn watched<W: Sink>(is_watched: bool, sink: &mut W) -> Option<&mut W> {
    if is_watched { Some(sink) } else { None }
}

fn is_watched(host: &HostRuntime) -> bool {
    host.stderr().is_terminal() && !host.stdout().is_terminal()
}

// Does the jobs on standard input from a gate's beginning.
fn shift_jobs<
    G: Gate + Send + Sync,
    E: Sink + Send,
    F: Fetcher + Sync,
    C: Clock + Sync,
    R: Threads + Wait + time::Clock + Sync,
>(
    host: &HostRuntime,
    options: &ShiftOptions,
    shift: &Shift<'_, '_, E, F, C, R>,
    begun: JournalStart,
    journal: Option<OpenJournal<'_>>,
    blanks: Blanks,
) -> Result<Ending, Ending>
    requires workers { IsCrew shift.now.workers }
    requires book { IsIdle begun.book }
    requires blanks { blanks ≡ G.ledgers }
{
    // (nobody puts bases beside a shift: its journal's file has one)
    let JournalStart {
        book,
        sites,
        first: _,
    } = begun;
    let (gate, receipts) = GateLock::<G>::resume(host.alloc(), book, blanks);
    let past = Past {
        receipts,
        sites,
        first: FirstFile::WithBase,
    };
    let lines = read_jobs(host, shift.fetcher, options.bad_jobs)?;
    tell_lines(host, lines.bad.as_slice());
    let jobs = lines.jobs.as_slice();
    match shift_recorded(host, shift, jobs, &gate, past, journal, options.told) {
        // Skipped lines were reported already.
        Ending::Done if !lines.bad.is_empty() => Ok(Ending::BadLine),
        ending => Ok(ending),
    }
}

// Reads the jobs on standard input, or reports why they can't be read.
fn read_jobs<F: Fetcher>(
    host: &HostRuntime,
    fetcher: &F,
    bad_jobs: BadJobs,
) -> Result<JobLines, Ending>
    ensures { IfOk result (λ lines. length lines.jobs.items ≤ max_jobs) }
{
    let bad_lines = match bad_jobs {
        BadJobs::End => BadLines::End,
        BadJobs::Skip => BadLines::Skip,
    };
    let mut reader = Counted::new(Reasoned::new(host.stdin()));
    match read_job_lines(host.alloc(), fetcher.schemes(), bad_lines, &mut reader) {
        Ok(lines) => Ok(lines),
        Err(JobLinesFault::BadLine(line)) => {
            tell_lines(host, &[line]);
            Err(tell_bad_line(host, line.number))
        }
        Err(JobLinesFault::Read) => {
            Err(tell_failed(host, Ending::Device, Stream::Input, reader))
        }
        Err(JobLinesFault::NoMemory) => Err(Ending::NoMemory),
    }
}

// Reports lines that are no jobs, ignoring a failing standard error.
fn tell_lines(host: &HostRuntime, lines: &[BadJobLine]) {
    let mut errors = Counted::new(host.stderr());
    let _ = tell_bad_lines(host.alloc(), lines, &mut errors);
}

// The ending of a shift whose jobs were read.
fn shift_ending(end: Result<(), NotShifted>) -> Ending {
    match end {
        Ok(()) => Ending::Done,
        Err(NotShifted::BadLine(_)) => Ending::BadLine,
        Err(NotShifted::NoMemory) => Ending::NoMemory,
        Err(NotShifted::Device) => Ending::Device,
        Err(NotShifted::Over) => Ending::EndedEarly,
    }
}
