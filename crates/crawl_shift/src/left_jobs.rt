//! The jobs that a shift left undone when it ended early, reported on standard error.
ghost use Rattle.std.specs.Prelude.{◌≡◌};
ghost use Rattle.line_text.specs.Pieces.{pieces_text};
ghost use Rattle.crawl_shift.specs.LeftText.{left_job_text, left_jobs_text};

use counted_io::{DeviceFault, Output, Sink};
use crawl_job::Job;
use line_text::{AsPieces, Piece, Pieces, push_each};
use std::alloc::{AllocError, Global};

/// Jobs that are not done, in order.
#[derive(Drop)]
pub struct LeftJobs<'j> {
    alloc: Global,
    jobs: Vec<LeftJob<'j>>,
}

/// A job that is not done, and its number from 1.
#[derive(Clone, Copy)]
pub(crate) struct LeftJob<'j> {
    pub(crate) number: u64,
    pub(crate) job: &'j Job,
}

impl<'j> LeftJobs<'j> {
    /// Those of these jobs that are not done; there may be fewer marks than jobs.
    pub(crate) fn of(
        alloc: Global,
        jobs: &'j [Job],
        are_done: &[bool],
    ) -> Result<LeftJobs<'j>, AllocError> {
        let mut left = Vec::new(alloc);
        for (number, job) in jobs.iter().enumerate() {
            if are_done.get(number) != Some(&true) {
                left.push(LeftJob {
                    number: (number as u64).saturating_add(1),
                    job,
                })?;
            }
        }
        Ok(LeftJobs { alloc, jobs: left })
    }

    /// Writes how many these are, and a line for each.
    pub fn tell<E: Sink>(&self, errors: &mut E) -> Result<(), DeviceFault> {
        let mut output = Output::new(self.alloc).map_err(|_| DeviceFault)?;
        count_line(self.jobs.len() as u64).push(&mut output, errors)?;
        push_each(self.jobs.as_slice(), &mut output, errors)?;
        output.flush(errors)
    }
}

fn count_line<'a>(count: u64) -> Pieces<'a>
    ensures { pieces_text result ≡ left_jobs_text count }
{
    Pieces::of(&[
        Piece::Text("crawlgate: shift: ended early, "),
        Piece::Number(count),
        Piece::Text(" jobs were not done\n"),
    ])
}

impl AsPieces for LeftJob<'_> {
    ghost use Rattle.crawl_shift.specs.LeftText.{left_job_text};

    ghost text = { left_job_text };

    fn pieces(&self) -> Pieces<'_> {
        Pieces::of(&[
            Piece::Number(self.number),
            Piece::Text(" "),
            Piece::Text(self.job.token.text()),
            Piece::Text(" "),
            Piece::Text(self.job.url.text()),
            Piece::Text("\n"),
        ])
    }
}
