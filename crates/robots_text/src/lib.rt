//! The parts of a robots.txt: its lines, its records, and the product token that names a crawler.
//! RFC 9309, sections 2.2 and 2.5.
#![tactic(auto)]

mod grouped;
mod groups;
mod last_token;
pub mod laws;
mod line;
mod record;
mod records;
mod text;
mod token;
mod words;

pub use grouped::{GroupedRecord, GroupedRecords};
pub use groups::{RuleLine, RuleWalk, RulesFor, Whom, speaks, whom_for};
pub use last_token::LastToken;
pub use record::{Agent, RecordKind, RecordLine, RuleKind};
pub use records::Records;
pub use text::{MAX_TEXT, RobotsText};
pub use token::{MAX_TOKEN, Token, TokenFault};
pub use words::{is_same_word, lower_case};
