//! The report of a shift as texts in order: the lines of each job, and the last line.
//! `Progress` writes them as soon as they may be written.
ghost use Rattle.std.specs.Prelude.{◌≡◌, ◌+◌, ◌-◌, ◌^◌, OnOk, length, min};
ghost use Rattle.counted_io.specs.Device.{failures_after};
ghost use Rattle.crawl_shift.specs.ReportText.{hop_count, job_text, report_texts, whole_report};
ghost use Rattle.crawl_shift.specs.ShiftText.{early_sums_text, sums_text};
ghost use Rattle.texts_in_order.specs.Order.{FinishesKnown, FinishesWith, TakesText, WritesPrefixWith};

use crate::report_text::{early_sums, sums};
use crate::sums::Sums;
use command_lines::push_hops;
use counted_io::{DeviceFault, Output, Sink};
use crawl_job::Hop;
use crawl_workers::Crawled;
use line_text::Piece;
use texts_in_order::{Text, Texts, TextsInOrder};

// The lines of a job, whose number is counted from 1.
#[derive(Clone, Copy)]
struct JobText<'h> {
    number: u64,
    hops: &'h [Hop],
}

impl Text for JobText<'_> {
    ghost octets = { λ job. job_text job.number job.hops.now };

    fn push<W: Sink>(&self, output: &mut Output, sink: &mut W) -> Result<(), DeviceFault> {
        push_hops(Piece::Number(self.number), 1, self.hops, output, sink)
    }
}

// The lines of each job, and the last line.
#[derive(Clone, Copy)]
struct WholeReport<'o> {
    outcomes: &'o [Crawled],
    hops: u64,
    starts: u64,
}

impl Texts for WholeReport<'_> {
    ghost texts = { λ report. report_texts 1 report.outcomes.now
        (sums_text (length report.outcomes.now) report.hops report.starts) };

    fn count(&self) -> usize {
        self.outcomes.len() + 1
    }

    fn push_at<W: Sink>(
        &self,
        number: usize,
        output: &mut Output,
        sink: &mut W,
    ) -> Result<(), DeviceFault> {
        match self.outcomes.get(number) {
            Some(crawled) => {
                let lead = Piece::Number(number as u64 + 1);
                push_hops(lead, 1, crawled.hops.as_slice(), output, sink)
            }
            None => sums(self.outcomes.len() as u64, self.hops, self.starts).push(output, sink),
        }
    }
}

// The last line of a report that ended early, with this many jobs left.
#[derive(Clone, Copy)]
struct EarlyEnding {
    done: Sums,
    left: u64,
}

impl Text for EarlyEnding {
    ghost octets = { λ end. early_sums_text end.done.jobs end.done.hops end.done.starts end.left };

    fn push<W: Sink>(&self, output: &mut Output, sink: &mut W) -> Result<(), DeviceFault> {
        let done = self.done;
        early_sums(done.jobs, done.hops, done.starts, self.left).push(output, sink)
    }
}

/// Takes the lines of a job, whose number is counted from 0.
pub(crate) fn take_job<W: Sink>(
    texts: &mut TextsInOrder,
    number: usize,
    hops: &[Hop],
    sink: &mut W,
) -> Result<(), DeviceFault>
    ensures ok { OnOk result (TakesText number (job_text (number + 1) hops.now)
        (W.written sink.old) (W.written sink.new) texts.old texts.new) }
    ensures prefix { WritesPrefixWith number (job_text (number + 1) hops.now)
        (W.written sink.old) (W.written sink.new) texts.old }
    ensures count { W.failures sink.new ≡ failures_after (W.failures sink.old) result }
{
    let Some(counted) = (number as u64).checked_add(1) else {
        // (no list has so many jobs)
        return Ok(());
    };
    let text = JobText {
        number: counted,
        hops,
    };
    texts.take(number, &text, sink)
}

/// Writes what is left of the report: the lines of the jobs that wait or are not known, and the last line.
pub(crate) fn finish_report<W: Sink>(
    texts: &mut TextsInOrder,
    outcomes: &[Crawled],
    starts: u64,
    sink: &mut W,
) -> Result<(), DeviceFault>
    ensures { OnOk result (FinishesWith (whole_report outcomes.now starts)
        (W.written sink.old) (W.written sink.new) texts.old) }
{
    let report = WholeReport {
        outcomes,
        hops: hop_count(outcomes),
        starts,
    };
    texts.finish(&report, sink)
}

/// Writes what is known of a report that ends early: the lines of the jobs that wait, and the last line.
pub(crate) fn end_report<W: Sink>(
    texts: &mut TextsInOrder,
    done: Sums,
    left: u64,
    sink: &mut W,
) -> Result<(), DeviceFault>
    ensures { OnOk result (FinishesKnown (early_sums_text done.jobs done.hops done.starts left)
        (W.written sink.old) (W.written sink.new) texts.old) }
{
    texts.finish_known(&EarlyEnding { done, left }, sink)
}

// How many hops all outcomes have, as far as a number goes.
fn hop_count(outcomes: &[Crawled]) -> u64
    ensures { result ≡ min (hop_count outcomes.now) (2 ^ 64 - 1) }
{
    let mut hops: u64 = 0;
    for crawled in outcomes {
        hops = hops.saturating_add(crawled.hops.len() as u64);
    }
    hops
}
