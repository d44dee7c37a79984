//! A session at a gate with a journal: it records before it fetches, and seals through the journal
//! (docs/SEALING.md).
#![tactic(auto)]

mod journal_records;
mod journaled_fetcher;
mod lent_desk;
mod looks;

pub use crate::journal_records::JournalRecords;
pub use crate::journaled_fetcher::JournaledFetcher;
pub use crate::looks::Looks;
