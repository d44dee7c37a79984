//! Histories of the gate as texts: their export, and the audit of such texts, alone or in chains, which derives
//! every decision anew (docs/FORMATS.md; RFC 9309, sections 2.2.2, 2.3.1 and 2.4).
#![tactic(auto)]

mod audit_text;
mod auditor;
mod base_row;
mod ending;
mod fault;
mod fields;
mod first_base;
pub mod laws;
mod listing;
mod loading;
mod next_base;
mod numbers;
mod open_state;
mod read;
mod read_base;
mod record;
mod record_pieces;
mod recover_fault;
mod recovering;
mod unread_line;
mod whole_lines;

pub use audit_text::{audit, audit_among};
pub use auditor::{MAX_LINE, MAX_LINES};
pub use fault::{AuditFault, Audited};
pub use history_text::{
    Version, export, export_segment, push_entries, push_segment_text, standing_pieces,
};
pub use recover_fault::RecoverFault;
pub use recovering::{Recovered, recover, recover_among};
