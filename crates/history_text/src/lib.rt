//! Histories of the gate as texts: the lines of entries and of bases, and the text of a segment or of a
//! book
//! (docs/FORMATS.md). `crawl_audit` reads such texts.
#![tactic(auto)]

mod answer_lines;
pub mod base_kinds;
mod base_parts;
mod entry_pieces;
mod export_text;
pub mod kinds;
mod text_line;
mod version;

pub use entry_pieces::told_by;
pub use export_text::{export, export_base, export_segment, push_entries, push_segment_text};
pub use text_line::{TextLine, standing_pieces};
pub use version::Version;
