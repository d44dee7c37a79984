//! Readers and writers that count their failures, and lines read from them.
//! Used by every crate that reads or writes.
#![tactic(auto)]

mod counted;
mod fail_at;
mod fault;
mod line_end;
mod line_part;
mod line_reader;
mod next_line;
mod output;
mod reading;
mod sink;
mod source;

pub use crate::counted::Counted;
pub use crate::fail_at::FailAt;
pub use crate::fault::DeviceFault;
pub use crate::line_end::LineEnd;
pub use crate::line_part::part_len;
pub use crate::line_reader::{LINE_BUFFER, LineReader};
pub use crate::next_line::{NextLine, ReadLineFault};
pub use crate::output::{OUTPUT_BUFFER, Output};
pub use crate::reading::read_to;
pub use crate::sink::{Sink, write_all};
pub use crate::source::Source;
