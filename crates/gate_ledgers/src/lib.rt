//! A gate's book with the ledgers that count what is out, and the accounts of its desks: each change of the
//! book leaves its mark in the account for which it was made (RFC 9309, sections 2.3.1 and 2.4).
#![tactic(auto)]

mod account;
mod accounts;
mod counted_book;
mod last;
mod ledgers;
mod receipts;
mod shares;
mod tally;

pub use account::Account;
pub use accounts::{Accounts, DesksFull, MAX_DESKS};
pub use counted_book::CountedBook;
pub use ledgers::{Blanks, Gate, RunningLedger, TurnLedger, UnspentLedger};
pub use receipts::Receipts;
pub use shares::One;
