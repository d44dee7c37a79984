//! Shifts as texts: jobs read from lines, done by several workers, and reported.
//! docs/FORMATS.md has the lines of jobs and of reports.
#![tactic(auto)]

mod both;
mod causes;
mod closed_sites;
mod early_end;
mod flushing;
mod hop_row;
mod job_lines;
mod job_list;
mod left_jobs;
mod not_shifted;
mod progress;
mod report_lines;
mod report_text;
mod shifting;
mod status_line;
mod sums;
mod table;
mod told_lines;
mod under_way;

pub use closed_sites::ClosedSites;
pub use early_end::EarlyEnd;
pub use job_lines::{BadJobLine, BadLines, JobLines, JobLinesFault, read_job_lines};
pub use job_list::MAX_JOB_LINE;
pub use left_jobs::LeftJobs;
pub use not_shifted::NotShifted;
pub use shifting::Shift;
pub use status_line::StatusLine;
pub use told_lines::tell_bad_lines;
