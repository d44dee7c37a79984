//! The jobs of a shift, and the lines that can't be read, each with its fault (docs/FORMATS.md, jobs).
ghost use Rattle.std.specs.Prelude.{◌≡◌, [], IfErr, IfOk, Some, true};
ghost use Rattle.command_lines.specs.Answers.{ends_session};
ghost use Rattle.crawl_shift.specs.JobLines.{AreJobLines, FailsToReadLines, IsLinesFault, LeavesBadly, LeavesWell, MeetsFault, Skips, TakesLine, next_number};

use crate::job_list::{JobList, MAX_JOB_LINE};
use command_lines::{Answerer, Flow, LineFault, SessionFault, run_session};
use counted_io::{Counted, DeviceFault, Output, Sink, Source};
use crawl_job::Job;
use job_line::MAX_JOBS;
use path_normal::Schemes;
use std::alloc::{AllocError, Global};
use std::io;

/// What to do about lines that can't be read as a job.
#[derive(Clone, Copy, Debug, PartialEq, Eq)]
pub enum BadLines {
    /// The first one ends the reading, without jobs.
    End,
    /// Keep it with its fault, and read on.
    Skip,
}

/// A line that can't be read as a job, and its first fault: `Long` with more than 8,192 octets, `Lines` for
/// line 4,097. Lines count from 1.
#[derive(Clone, Copy, Debug, PartialEq, Eq)]
pub struct BadJobLine {
    pub number: u64,
    pub fault: LineFault,
}

/// The jobs of the readable lines, and the other lines, each in input order.
#[derive(Drop)]
pub struct JobLines {
    pub jobs: Vec<Job>,
    pub bad: Vec<BadJobLine>,
}

/// Why no jobs were read.
#[derive(Clone, Copy, Debug, PartialEq, Eq)]
pub enum JobLinesFault {
    /// This line ended the reading.
    BadLine(BadJobLine),
    /// A read failed.
    Read,
    /// An allocation failed.
    NoMemory,
}

// What was read so far. The list keeps the fault of a line that ends the reading.
#[derive(Drop)]
pub(crate) struct Reading {
    pub(crate) list: JobList,
    pub(crate) bad: Vec<BadJobLine>,
}

impl Reading {
    // The number of the next line.
    fn next_number(&self) -> u64
        ensures { result ≡ next_number self.now }
    {
        self.list.jobs.len() as u64 + self.bad.len() as u64 + 1
    }

    fn take(&mut self, alloc: Global, schemes: Schemes, bad_lines: BadLines, line: &[u8]) -> Flow
        ensures { TakesLine schemes bad_lines self.old line.now [] (ends_session result) self.new }
    {
        match self.list.take(alloc, schemes, line) {
            Ok(()) => Flow::Goes,
            Err(fault) => self.meet(bad_lines, fault),
        }
    }

    // A line has this fault.
    fn meet(&mut self, bad_lines: BadLines, fault: LineFault) -> Flow
        ensures { MeetsFault bad_lines self.old fault (ends_session result) self.new }
    {
        match bad_lines {
            BadLines::End => self.end_with(fault),
            BadLines::Skip => match fault {
                LineFault::Memory => self.end_with(LineFault::Memory),
                _ => match self.skip(fault) {
                    Ok(()) => Flow::Goes,
                    Err(_) => self.end_with(LineFault::Memory),
                },
            },
        }
    }

    // This line's fault ends the reading.
    fn end_with(&mut self, fault: LineFault) -> Flow
        ensures flow { ends_session result ≡ true }
        ensures jobs { self.new.list.jobs.items ≡ self.old.list.jobs.items }
        ensures bad { self.new.bad.items ≡ self.old.bad.items }
        ensures fault { self.new.list.fault ≡ Some fault }
    {
        self.list.fault = Some(fault);
        Flow::Ends
    }

    fn skip(&mut self, fault: LineFault) -> Result<(), AllocError>
        ensures { Skips self.old fault result self.new }
    {
        self.bad.reserve(1)?;
        let number = self.next_number();
        self.bad.push_reserved(BadJobLine { number, fault });
        Ok(())
    }

    // What was read, if the input came to its end.
    fn end(self, end: Result<(), SessionFault>) -> Result<JobLines, JobLinesFault>
        ensures lines { IfOk result (LeavesWell self end) }
        ensures fault { IfErr result (LeavesBadly self end) }
    {
        let number = self.next_number();
        match self.list.fault {
            Some(LineFault::Memory) => return Err(JobLinesFault::NoMemory),
            Some(fault) => return Err(JobLinesFault::BadLine(BadJobLine { number, fault })),
            None => {}
        }
        match end {
            Ok(()) => Ok(JobLines {
                jobs: self.list.jobs,
                bad: self.bad,
            }),
            Err(SessionFault::LongLine) => Err(JobLinesFault::BadLine(BadJobLine {
                number,
                fault: LineFault::Long,
            })),
            Err(SessionFault::Lines) => Err(JobLinesFault::BadLine(BadJobLine {
                number,
                fault: LineFault::Lines,
            })),
            Err(SessionFault::Read) => Err(JobLinesFault::Read),
            // Nothing is written, so no write fails.
            Err(SessionFault::Write | SessionFault::NoMemory) => Err(JobLinesFault::NoMemory),
        }
    }
}

/// A line has an empty reply.
#[derive(Drop)]
struct LineTaker {
    schemes: Schemes,
    bad_lines: BadLines,
}

impl Answerer<Reading> for LineTaker {
    ghost use Rattle.crawl_shift.specs.JobLines.{TakesLine};

    ghost answers = { λ taker _. TakesLine taker.schemes taker.bad_lines };

    fn answer<W: Sink>(
        &self,
        alloc: Global,
        reading: &mut Reading,
        line: &[u8],
        output: &mut Output,
        sink: &mut W,
    ) -> Result<Flow, DeviceFault> {
        Ok(reading.take(alloc, self.schemes, self.bad_lines, line))
    }
}

/// Reads a source's jobs to its end, with pages of these schemes: at most 4,096 lines, each ended by LF or
/// CR LF.
pub fn read_job_lines<R: Source>(
    alloc: Global,
    schemes: Schemes,
    bad_lines: BadLines,
    reader: &mut R,
) -> Result<JobLines, JobLinesFault>
    ensures lines { IfOk result
        (AreJobLines schemes bad_lines (R.left reader.old) (R.left reader.new)) }
    ensures fault { IfErr result
        (IsLinesFault schemes bad_lines (R.left reader.old) (R.left reader.new)) }
    ensures reads { IfErr result
        (FailsToReadLines (R.failures reader.old) (R.failures reader.new)) }
{
    let mut reading = Reading {
        list: JobList::new(alloc),
        bad: Vec::new(alloc),
    };
    let mut nowhere = Counted::new(io::sink());
    let taker = LineTaker { schemes, bad_lines };
    let end = run_session(
        alloc,
        reader,
        &mut nowhere,
        &taker,
        &mut reading,
        MAX_JOB_LINE,
        MAX_JOBS,
    );
    reading.end(end)
}
