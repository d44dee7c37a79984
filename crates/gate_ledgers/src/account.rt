//! What a desk did at its gate: its shares of the ledgers, and a mark of each entry.
//! Only a change of the book adds a mark, that of the entry which it made.
ghost use Rattle.std.specs.Prelude.{◌≡◌, ◌+◌, ◌^◌, ◌<◌, ◌≤◌, ◌∷◌, [], false, length, OnOk, true};
ghost use Rattle.gate_history.specs.History.{is_start};
ghost use Rattle.gate_ledgers.specs.Accounts.{Condensed, IsNewAccount, KeepsEntries, receipt_in, with_handed_out, with_marks};
ghost use Rattle.gate_ledgers.specs.Balance.{all_out_parts};

use crate::ledgers::{Gate, RunningLedger};
use crate::receipts::Receipts;
use crate::shares::{Mine, One};
use crate::tally::Tally;
use gate_marks::{Mark, SealedMarks, count_below};
use std::alloc::{AllocError, Global};
use std::marker::Model;

/// The account of a desk: its number, from 1; what it keeps of sealed entries; and the marks of the later
/// entries that it made. It has no `Drop`: `close` makes receipts of it.
#[must_use]
pub struct Account<G: Gate> {
    no: u64,
    sealed: SealedMarks,
    marks: Vec<Mark>,
    mine: Mine<G>,
}

impl<G: Gate> Model for Account<G> {
    ghost use Rattle.std.specs.Prelude.{vec_capacity};
    ghost use Rattle.gate_ledgers.specs.Accounts.{AccountView, AreCounted};

    ghost Value = { AccountView };

    ghost view = { λ account. record {
      no = account.no;
      sealed = account.sealed;
      marks = account.marks.items;
      room = vec_capacity account.marks;
    } };

    ghost invariant = { λ account. AreCounted account.mine account.sealed account.marks.items };
}

#[tactic(auto, using(std::proofs::lemmas::Grind::common_steps, crate::proofs::Starts::starts_in_push))]
impl<G: Gate> Account<G> {
    // The account of this number, with shares that count nothing.
    pub(crate) fn new(alloc: Global, no: u64, mine: Mine<G>) -> Account<G>
        requires { mine ≡ record { entries = 0; starts = 0; handed = 0 } }
        ensures { IsNewAccount no result }
    {
        Account {
            no,
            sealed: SealedMarks::new(alloc),
            marks: Vec::new(alloc),
            mine,
        }
    }

    /// The desk's number.
    pub fn no(&self) -> u64
        ensures { result ≡ self.now.no }
    {
        self.no
    }

    /// What it keeps of sealed entries.
    pub fn sealed(&self) -> &SealedMarks
        ensures { result.now ≡ self.now.sealed }
    {
        &self.sealed
    }

    /// The marks of the later entries that it made, oldest first.
    pub fn marks(&self) -> &[Mark]
        ensures { result.now ≡ self.now.marks }
    {
        self.marks.as_slice()
    }

    /// How many marks there is room for.
    pub fn room(&self) -> usize
        ensures value { result ≡ self.now.room }
        ensures fits { length self.now.marks ≤ result }
        ensures bound { result < 2 ^ 63 }
    {
        self.marks.capacity()
    }

    /// What its marks are allocated with.
    pub fn allocator(&self) -> Global {
        *self.marks.allocator()
    }

    /// Makes room for so many more marks. If memory runs out nothing changes.
    pub fn reserve(&mut self, more: usize) -> Result<(), AllocError>
        ensures same { self.new ≡ record self.old { room = self.new.room } }
        ensures room { self.old.room ≤ self.new.room }
        ensures ok { OnOk result (length self.old.marks + more ≤ self.new.room) }
    {
        self.marks.reserve(more)
    }

    /// Of its first marks, those of entries among so many first ones of all, which must have been sealed,
    /// keeps the place (eight octets) and the count of started fetches. The work is bounded: all marks stay
    /// whole if fewer than half are of such entries, or if memory runs out.
    pub fn condense(&mut self, sealed: u64)
        requires { self.old.sealed.before ≡ 0 }
        ensures condensed { Condensed sealed self.old self.new }
        ensures kept { KeepsEntries self.old self.new }
    {
        let count = count_below(self.marks.as_slice(), sealed);
        if count >= self.marks.len().div_ceil(2) {
            let _ = self.sealed.take_in(&mut self.marks, count);
        }
    }

    /// Closes it.
    pub fn close(self) -> Receipts<G>
        ensures { result ≡ receipt_in self }
    {
        let Account {
            no: _,
            sealed,
            marks,
            mine,
        } = self;
        Receipts::of(sealed, marks, mine)
    }

    // Counts an entry that is no start, and adds its mark.
    pub(crate) fn enter(&mut self, tally: &mut Tally<G>, mark: Mark)
        requires other { is_start mark.entry ≡ false }
        requires room { length self.old.marks < self.old.room }
        ensures total { tally.new ≡ record tally.old { entries = tally.old.entries + 1 } }
        ensures mark { self.new ≡ with_marks self.old (mark ∷ []) }
    {
        tally.enter(&mut self.mine);
        self.marks.push_reserved(mark);
    }

    // Counts the entry of a start, and adds its mark.
    pub(crate) fn start(&mut self, tally: &mut Tally<G>, started: Mark) -> One<RunningLedger<G>>
        requires start { is_start started.entry ≡ true }
        requires room { length self.old.marks < self.old.room }
        requires few { tally.old.running + 1 < all_out_parts }
        ensures total { tally.new ≡ record tally.old {
          entries = tally.old.entries + 1;
          starts = tally.old.starts + 1;
          running = tally.old.running + 1;
        } }
        ensures mark { self.new ≡ with_marks self.old (started ∷ []) }
    {
        tally.enter(&mut self.mine);
        self.marks.push_reserved(started);
        tally.start(&mut self.mine)
    }

    // Counts entries that it handed out.
    pub(crate) fn hand(&mut self, tally: &mut Tally<G>, count: u64)
        requires { tally.old.handed + count < 2 ^ 64 }
        ensures total { tally.new ≡ record tally.old { handed = tally.old.handed + count } }
        ensures handed { self.new ≡ with_handed_out self.old count }
    {
        tally.hand(&mut self.mine, count);
        self.sealed.hand(count);
    }
}
