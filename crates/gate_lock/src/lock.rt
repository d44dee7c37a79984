//! The lock of a gate. Desks are opened here, and nowhere else.
//! Each call here takes the lock once; none fetches or matches under it.
ghost use Rattle.std.specs.Prelude.{◌≡◌, ◌^◌, ◌<◌, [], IfOk};
ghost use Rattle.gate_history.specs.Base.{empty_base};
ghost use Rattle.gate_core.specs.Resuming.{IsIdle};
ghost use Rattle.gate_ledgers.specs.Accounts.{past_of};
ghost use Rattle.gate_lock.specs.Desks.{IsGateOf, IsNew, out_of};

use crate::desk::Desk;
use crate::held::Held;
use crate::shared_book::SharedBook;
use gate_core::Book;
use gate_ledgers::{Accounts, Blanks, CountedBook, DesksFull, Gate, Receipts};
use std::alloc::Global;
use std::marker::Model;
use std::sync::{Mutex, Wait};

/// A book under a lock, with the ledgers of what is out and the accounts that desks may open.
#[derive(Drop)]
pub struct GateLock<G: Gate> {
    shared: SharedBook<G>,
    // (a desk has the book alone, so none of its calls can open another one)
    accounts: Mutex<Accounts<G>>,
}

impl<G: Gate> Model for GateLock<G> {
    ghost use Rattle.gate_core.specs.declared.config.Limits.{Limits};

    ghost Value = { Limits };

    ghost view = { λ lock. lock.shared };
}

impl<G: Gate> GateLock<G> {
    /// A lock round a book without entries, with new ledgers.
    pub fn new(book: Book, blanks: Blanks) -> GateLock<G>
        requires book { (book.base ≡ empty_base) × (book.entries ≡ []) }
        requires blanks { blanks ≡ G.ledgers }
        ensures { result ≡ book.limits }
    {
        let (counted, accounts) = CountedBook::new(book, blanks);
        GateLock {
            shared: SharedBook::new(counted),
            accounts: Mutex::new(accounts),
        }
    }

    /// A lock round a book that continues a base and has made no entry since, with new ledgers; and the
    /// receipts of all before, which are needed to settle the gate with those of its desks. The base must
    /// have nothing out; without entries it must be empty. The receipts take no memory.
    pub fn resume(alloc: Global, book: Book, blanks: Blanks) -> (GateLock<G>, Receipts<G>)
        requires idle { IsIdle book }
        requires blanks { blanks ≡ G.ledgers }
        ensures limits { result.0 ≡ book.limits }
        ensures past { result.1 ≡ past_of book.base }
    {
        let (counted, accounts, past) = CountedBook::resume(alloc, book, blanks);
        let lock = GateLock {
            shared: SharedBook::new(counted),
            accounts: Mutex::new(accounts),
        };
        (lock, past)
    }

    /// One more desk, numbered from 1.
    pub fn desk<R: Wait>(&self, rt: &R, alloc: Global) -> Result<Desk<'_, G>, DesksFull>
        ensures new { IfOk result (IsNew self.now) }
        ensures out { IfOk result (λ desk. out_of desk ≡ 0) }
    {
        let account = self.accounts.lock(rt).open(alloc)?;
        let seen = self.lend(rt).guard.entry_count();
        Ok(Desk {
            shared: &self.shared,
            seen,
            permits: 0,
            runs: 0,
            turns: 0,
            account,
        })
    }

    /// The book under its lock, for those that open no desk.
    pub fn shared(&self) -> &SharedBook<G>
        ensures { result.now ≡ self.now }
    {
        &self.shared
    }

    /// The lock, until it is dropped. Its holder must not take it again.
    pub fn lend<R: Wait>(&self, rt: &R) -> Held<'_, G>
        ensures { IsGateOf self.now 0 result }
    {
        self.shared.lend(rt)
    }
}
