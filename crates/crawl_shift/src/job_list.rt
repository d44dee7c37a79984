//! The jobs of a shift, one a line (docs/FORMATS.md, jobs).
ghost use Rattle.std.specs.Prelude.{◌≡◌, [], None};
ghost use Rattle.crawl_shift.specs.JobLists.{AddsJob};

use command_lines::{LineFault, read_job};
use crawl_job::Job;
use path_normal::Schemes;
use std::alloc::Global;

/// The most octets of a job's line, without its end.
pub const MAX_JOB_LINE: usize = 8192;

// The jobs of the lines so far, and the last line's fault, if any.
#[derive(Drop)]
pub(crate) struct JobList {
    pub(crate) jobs: Vec<Job>,
    pub(crate) fault: Option<LineFault>,
}

impl JobList {
    pub(crate) fn new(alloc: Global) -> JobList
        ensures jobs { result.jobs.items ≡ [] }
        ensures fault { result.fault ≡ None }
    {
        JobList {
            jobs: Vec::new(alloc),
            fault: None,
        }
    }

    pub(crate) fn take(
        &mut self,
        alloc: Global,
        schemes: Schemes,
        line: &[u8],
    ) -> Result<(), LineFault>
        ensures { AddsJob schemes self.old line.now result self.new }
    {
        self.jobs.reserve(1)?;
        self.jobs.push_reserved(read_job(alloc, schemes, line)?);
        Ok(())
    }
}
