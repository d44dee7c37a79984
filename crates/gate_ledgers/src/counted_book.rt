//! A gate's book, and the ledgers that count what is out.
//! Each change is one call of the book for one account, which gets the mark of the entry; RFC 9309, sections
//! 2.3.1 and 2.4.
ghost use Rattle.std.specs.Prelude.{◌≡◌, ◌+◌, ◌^◌, ◌<◌, ◌∷◌, [], Err, IfSome, length, Ok, true};
ghost use Rattle.gate_history.specs.Base.{empty_base};
ghost use Rattle.gate_history.specs.History.{entry_count};
ghost use Rattle.gate_history.specs.declared.entry.Entry.TheVariants.{Arrived, Finished, Returned};
ghost use Rattle.gate_history.specs.Outstanding.{is_running, is_unspent, stands, unspent};
ghost use Rattle.gate_history.specs.Standing.{has_turn};
ghost use Rattle.gate_core.specs.Gate.{history};
ghost use Rattle.gate_history.specs.Ruling.{IsRuling};
ghost use Rattle.gate_core.specs.Resuming.{IsIdle};
ghost use Rattle.gate_core.specs.Sealing.{Seals};
ghost use Rattle.gate_core.specs.Replies.{Arrives, Asks, Begins, Finishes, Returns, Starts, Sweeps, moment_at};
ghost use Rattle.gate_ledgers.specs.Accounts.{past_of, with_handed_out, with_marks};
ghost use Rattle.gate_ledgers.specs.Entered.{entries_of_ask, entries_of_ok, handed_by, marks_of_ask, marks_of_begin, marks_of_start, marks_of_sweep, next_mark, reply_in};

use crate::account::Account;
use crate::accounts::Accounts;
use crate::last::Last;
use crate::ledgers::{Blanks, Gate, RunningLedger, TurnLedger, UnspentLedger};
use crate::receipts::Receipts;
use crate::shares::One;
use crate::tally::Tally;
use authority_cache::{TimedAnswer, TurnNo};
use gate_core::{AskRefusal, BeginRefusal, Book, Denial, Judged, NoMemory, Started, SweepRefusal};
use gate_history::laws::{each_entry_counts, no_later_entry_closes};
use gate_history::{Entry, Ruling, Segment};
use gate_marks::SealedMarks;
use path_normal::{Authority, PageUrl};
use permit_book::{Fetch, PermitNo};
use robots_text::Token;
use robots_verdict::Answer;
use std::alloc::Global;
use std::marker::Model;

/// A book, and the ledgers whose totals are its numbers. Each of its changes needs an account of this gate,
/// in which there is room for a mark, and adds the mark of what it entered, at the entry's place.
pub struct CountedBook<G: Gate> {
    book: Book,
    tally: Tally<G>,
}

// Let go by one call: no crate above proves anew how its parts end.
impl<G: Gate> Drop for CountedBook<G> {
    fn drop(self) {
        let CountedBook { book: _, tally: _ } = self;
    }
}

impl<G: Gate> Model for CountedBook<G> {
    ghost use Rattle.gate_core.specs.Gate.{Gate, history};
    ghost use Rattle.gate_ledgers.specs.Balance.{IsBalanceOf, IsHandedOut};

    ghost Value = { Gate };

    ghost view = { λ counted. counted.book };

    ghost invariant = { λ counted. IsBalanceOf (history counted.book) counted.tally
        × IsHandedOut counted.book.base counted.tally.handed };
}

impl<G: Gate> CountedBook<G> {
    /// A book without entries, with new ledgers, and the accounts that its desks may open.
    pub fn new(book: Book, blanks: Blanks) -> (CountedBook<G>, Accounts<G>)
        requires book { (book.base ≡ empty_base) × (book.entries ≡ []) }
        requires blanks { blanks ≡ G.ledgers }
        ensures { result.0 ≡ book }
    {
        let (tally, accounts, past) = Tally::open(blanks);
        past.let_go();
        (CountedBook { book, tally }, accounts)
    }

    /// A book that continues a base and has made no entry since, with new ledgers; the accounts that its
    /// desks may open; and the receipts of all before. The base must have nothing out; without entries it
    /// must be empty. Takes no memory.
    pub fn resume(
        alloc: Global,
        book: Book,
        blanks: Blanks,
    ) -> (CountedBook<G>, Accounts<G>, Receipts<G>)
        requires idle { IsIdle book }
        requires blanks { blanks ≡ G.ledgers }
        ensures book { result.0 ≡ book }
        ensures past { result.2 ≡ past_of book.base }
    {
        let entries = book.base().entries();
        let starts = book.base().started();
        let (mut tally, accounts, mut mine) = Tally::open(blanks);
        tally.count_past(&mut mine, entries, starts);
        let sealed = SealedMarks::first(alloc, entries, starts);
        let past = Receipts::of(sealed, Vec::new(alloc), mine);
        (CountedBook { book, tally }, accounts, past)
    }

    /// The book. If nothing was sealed, it began empty.
    pub fn book(&self) -> &Book
        ensures value { result.now ≡ self.now }
        ensures start { self.now.base.entries ≡ 0 → self.now.base ≡ empty_base }
    {
        &self.book
    }

    /// How many entries the book has, since the first one of all.
    pub fn entry_count(&self) -> u64
        ensures { result ≡ entry_count (history self.now) }
    {
        self.book.entry_count()
    }

    /// The book's ask: the number of its permit, and its share. The fetch is that of the ask, for the mark.
    pub fn ask(
        &mut self,
        judged: Judged,
        fetch: Fetch,
        moment: u64,
        account: &mut Account<G>,
    ) -> Result<(PermitNo, One<UnspentLedger<G>>), AskRefusal>
        requires fetch { fetch ≡ record { token = judged.token; url = judged.url } }
        requires room { length account.old.marks < account.old.room }
        ensures reply { Asks self.old judged.token judged.url moment (reply_in result) self.new }
        ensures marks { account.new ≡ with_marks account.old
            (marks_of_ask self.old judged.token judged.url moment (reply_in result)) }
        ensures count { entry_count (history self.new)
            ≡ entry_count (history self.old) + entries_of_ask result }
    {
        no_later_entry_closes();
        each_entry_counts();
        let _legal = self.book.history();
        let _limits = self.book.limits();
        match self.book.ask_judged(judged, moment) {
            Ok(number) => {
                let last = Last::of(&self.book);
                let mark = last.mark(Entry::Granted {
                    moment: last.moment,
                    number,
                    fetch,
                });
                account.enter(&mut self.tally, mark);
                Ok((number, self.tally.grant()))
            }
            Err(AskRefusal::Denied(denial)) => {
                let last = Last::of(&self.book);
                let mark = last.mark(Entry::AskDenied {
                    moment: last.moment,
                    fetch,
                    cause: denial.cause,
                });
                account.enter(&mut self.tally, mark);
                Err(AskRefusal::Denied(denial))
            }
            Err(refusal) => Err(refusal),
        }
    }

    /// The book's start of a permit that stands, which is its number and its share as `ask` gave them, with a
    /// ruling that was found before, if any: the share of the running fetch. The permit's share is spent.
    pub fn start(
        &mut self,
        permit: (PermitNo, One<UnspentLedger<G>>),
        token: &Token,
        url: PageUrl,
        ruling: Option<&Ruling>,
        moment: u64,
        account: &mut Account<G>,
    ) -> Result<(Started, One<RunningLedger<G>>), Denial>
        requires stands { stands (history self.old) permit.0 token.now url ≡ true }
        requires ruled { IfSome ruling (λ ruling. IsRuling token.now url ruling.now) }
        requires room { length account.old.marks < account.old.room }
        ensures reply { Starts self.old permit.0 token.now url moment (reply_in result) self.new }
        ensures marks { account.new ≡ with_marks account.old
            (marks_of_start self.old permit.0 moment (reply_in result)) }
        ensures count { entry_count (history self.new) ≡ entry_count (history self.old) + 1 }
    {
        let (number, one) = permit;
        no_later_entry_closes();
        each_entry_counts();
        let _legal = self.book.history();
        let _limits = self.book.limits();
        let result = self.book.start_standing(number, token, url, ruling, moment);
        let last = Last::of(&self.book);
        match result {
            Ok(started) => {
                let mark = last.mark(Entry::Started {
                    moment: last.moment,
                    number,
                    reason: started.reason,
                });
                let running = account.start(&mut self.tally, mark);
                self.tally.spend(one);
                Ok((started, running))
            }
            Err(refused) => {
                let mark = last.mark(Entry::StartDenied {
                    moment: last.moment,
                    number,
                    cause: refused.cause,
                });
                account.enter(&mut self.tally, mark);
                self.tally.spend(one);
                Err(refused)
            }
        }
    }

    /// The book's return of an unspent permit, whose share is spent.
    pub fn back(&mut self, number: PermitNo, one: One<UnspentLedger<G>>, account: &mut Account<G>)
        requires unspent { is_unspent (history self.old) number ≡ true }
        requires room { length account.old.marks < account.old.room }
        ensures reply { Returns self.old number (Ok tt) self.new }
        ensures marks { account.new ≡ with_marks account.old
            (next_mark self.old (Returned number) ∷ []) }
        ensures count { entry_count (history self.new) ≡ entry_count (history self.old) + 1 }
    {
        no_later_entry_closes();
        each_entry_counts();
        let _legal = self.book.history();
        let Ok(()) = self.book.back(number) else {
            unreachable!()
        };
        let mark = Last::of(&self.book).mark(Entry::Returned { number });
        account.enter(&mut self.tally, mark);
        self.tally.spend(one);
    }

    /// The book's end of a running fetch, whose share is taken back.
    pub fn finish(&mut self, number: PermitNo, one: One<RunningLedger<G>>, account: &mut Account<G>)
        requires running { is_running (history self.old) number ≡ true }
        requires room { length account.old.marks < account.old.room }
        ensures reply { Finishes self.old number (Ok tt) self.new }
        ensures marks { account.new ≡ with_marks account.old
            (next_mark self.old (Finished number) ∷ []) }
        ensures count { entry_count (history self.new) ≡ entry_count (history self.old) + 1 }
    {
        no_later_entry_closes();
        each_entry_counts();
        let _legal = self.book.history();
        let Ok(()) = self.book.finish(number) else {
            unreachable!()
        };
        let mark = Last::of(&self.book).mark(Entry::Finished { number });
        account.enter(&mut self.tally, mark);
        self.tally.finish(one);
    }

    /// The book's begin of a turn, and the turn's share. The name is the authority's, for the mark.
    pub fn begin(
        &mut self,
        authority: &Authority,
        name: Authority,
        moment: u64,
        account: &mut Account<G>,
    ) -> Result<(TurnNo, One<TurnLedger<G>>), BeginRefusal>
        requires same { name ≡ authority.now }
        requires room { length account.old.marks < account.old.room }
        ensures reply { Begins self.old authority.now moment (reply_in result) self.new }
        ensures marks { account.new ≡ with_marks account.old
            (marks_of_begin self.old authority.now moment (reply_in result)) }
        ensures count { entry_count (history self.new)
            ≡ entry_count (history self.old) + entries_of_ok result }
    {
        no_later_entry_closes();
        each_entry_counts();
        let _legal = self.book.history();
        let _limits = self.book.limits();
        match self.book.begin(authority, moment) {
            Ok(turn) => {
                let last = Last::of(&self.book);
                let mark = last.mark(Entry::Begun {
                    moment: last.moment,
                    authority: name,
                    turn,
                });
                account.enter(&mut self.tally, mark);
                Ok((turn, self.tally.begin()))
            }
            Err(refusal) => Err(refusal),
        }
    }

    /// The book's arrival of a turn's answer, of which the mark keeps a twin. Uses two spares of it.
    pub fn arrive(
        &mut self,
        authority: Authority,
        turn: TurnNo,
        one: One<TurnLedger<G>>,
        answer: TimedAnswer,
        moment: u64,
        account: &mut Account<G>,
    )
        requires spares { 1 < answer.spares }
        requires turn { has_turn (history self.old) authority turn ≡ true }
        requires room { length account.old.marks < account.old.room }
        ensures reply { Arrives self.old authority turn answer moment (Ok tt) self.new }
        ensures marks { account.new ≡ with_marks account.old (next_mark self.old
            (Arrived answer.life (moment_at self.old moment) authority turn answer.says) ∷ []) }
        ensures count { entry_count (history self.new) ≡ entry_count (history self.old) + 1 }
    {
        no_later_entry_closes();
        each_entry_counts();
        let mut standing = answer;
        let twin = standing.twin();
        let life = twin.life();
        let says = twin.into_said();
        let _legal = self.book.history();
        let Ok(()) = self.book.arrive(&authority, turn, standing, moment) else {
            unreachable!()
        };
        let last = Last::of(&self.book);
        let mark = last.mark(Entry::Arrived {
            moment: last.moment,
            authority,
            turn,
            says,
            life,
        });
        account.enter(&mut self.tally, mark);
        self.tally.arrive(one);
    }

    /// The answer that the last arrival replaced, if it has not been taken.
    pub fn take_replaced(&mut self) -> Option<Answer>
        ensures { self.new ≡ self.old }
    {
        self.book.take_replaced()
    }

    /// The book's sweep.
    pub fn sweep(&mut self, moment: u64, account: &mut Account<G>) -> Result<u64, SweepRefusal>
        requires { length account.old.marks < account.old.room }
        ensures reply { Sweeps self.old moment result self.new }
        ensures marks { account.new ≡ with_marks account.old
            (marks_of_sweep self.old moment result) }
        ensures count { entry_count (history self.new)
            ≡ entry_count (history self.old) + entries_of_ok result }
    {
        no_later_entry_closes();
        each_entry_counts();
        let _legal = self.book.history();
        match self.book.sweep(moment) {
            Ok(count) => {
                let last = Last::of(&self.book);
                let mark = last.mark(Entry::Swept {
                    moment: last.moment,
                    count,
                });
                account.enter(&mut self.tally, mark);
                Ok(count)
            }
            Err(refusal) => Err(refusal),
        }
    }

    /// The book's seal. The account counts the entries that it hands out.
    pub fn seal(&mut self, account: &mut Account<G>) -> Result<Segment, NoMemory>
        ensures reply { Seals self.old result self.new }
        ensures handed { account.new ≡ with_handed_out account.old (handed_by result) }
    {
        no_later_entry_closes();
        let _count = self.book.entry_count();
        match self.book.seal() {
            Ok(segment) => {
                account.hand(&mut self.tally, segment.entries().len() as u64);
                Ok(segment)
            }
            Err(refusal) => Err(refusal),
        }
    }

    /// The share of a permit proves that a permit is unspent.
    pub fn vouch(&mut self, one: &mut One<UnspentLedger<G>>)
        ensures same { self.new ≡ self.old }
        ensures some { 0 < length (unspent (history self.old)) }
    {
        self.tally.vouch(one);
    }
}
