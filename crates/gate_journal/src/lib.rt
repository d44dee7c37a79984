//! A gate for a journal: the text of its history, for an audit, and the book that continues a journal's last
//! file, with what ends that file's text (docs/FORMATS.md).
#![tactic(auto)]

mod desk_sealer;
mod laws;
mod pieces;
mod recording;
mod resume_fault;
mod resuming;
mod spelling;

pub use crate::desk_sealer::DeskSealer;
pub use crate::laws::a_crash_leaves_lines;
pub use crate::recording::Recording;
pub use crate::resume_fault::ResumeFault;
pub use crate::resuming::{MOST_CLOSED, Resumed, resume};
pub use crate::spelling::{base_entries_of, rest_of, write_base_of};
