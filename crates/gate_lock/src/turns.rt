//! `Desk::begin` and `arrive`: a turn to fetch a robots.txt, and its answer.
//! RFC 9309, section 2.3.
ghost use Rattle.std.specs.Prelude.{◌≡◌, ◌+◌, ◌*◌, ◌^◌, ◌<◌, ◌≤◌, Err, IfOk, length, OnErr, true};
ghost use Rattle.gate_history.specs.History.{entry_count};
ghost use Rattle.gate_history.specs.Standing.{has_turn};
ghost use Rattle.gate_core.specs.Gate.{history};
ghost use Rattle.gate_core.specs.Replies.{Begins};
ghost use Rattle.gate_ledgers.specs.Entered.{entries_of_ok};
ghost use Rattle.gate_lock.specs.Desks.{HasOut, KeepsOut};
ghost use Rattle.gate_lock.specs.Results.{BeginsRound};
ghost use Rattle.gate_lock.specs.Steps.{DeskArrives, DeskBegins, Somewhere};

use crate::awaited::Awaited;
use crate::desk::{Desk, make_room};
use crate::held::Held;
use crate::linear_values::RobotsTurn;
use authority_cache::TimedAnswer;
use gate_core::{BeginRefusal, Book};
use gate_ledgers::{Account, CountedBook, Gate};
use path_normal::Authority;
use std::alloc::AllocError;
use std::sync::Wait;

#[tactic(auto)]
impl<'a, G: Gate> Desk<'a, G> {
    /// Begins a fetch of the authority's robots.txt.
    pub fn begin<R: Wait>(
        &mut self,
        rt: &R,
        authority: &Authority,
        moment: u64,
    ) -> Result<RobotsTurn<G>, BeginRefusal>
        ensures step { Somewhere self.old
            (λ old new. DeskBegins self.old old authority.now moment result new self.new) }
        ensures no { self.new.no ≡ self.old.no }
        ensures ok { IfOk result (λ t. (t.desk ≡ self.old.no) × (t.authority ≡ authority.now)
            × HasOut self.old self.new 0 0 0 0 1 0) }
        ensures err { OnErr result (KeepsOut self.old self.new) }
    {
        // Room for the call under the lock; if memory is refused here, that call asks again.
        let promised = self.promised();
        let _ = make_room(&mut self.account, promised, 2);
        let Ok((named, kept)) = copy_twice(authority) else {
            let held = self.lend(rt);
            return Err(self.refuse_begin(&held, authority, moment));
        };
        let mut held = self.lend(rt);
        self.begin_copied(&mut held, named, kept, moment)
    }

    /// Like `begin`, while the lock is held. Allocates the mark of its arrival, which then needs no memory.
    pub fn begin_in(
        &mut self,
        held: &mut Held<'_, G>,
        authority: &Authority,
        moment: u64,
    ) -> Result<RobotsTurn<G>, BeginRefusal>
        requires { self.old.seen ≤ entry_count (history held.old) }
        ensures { DeskBegins self.old held.old authority.now moment result held.new self.new }
    {
        let Ok((named, kept)) = copy_twice(authority) else {
            return Err(self.refuse_begin(held, authority, moment));
        };
        self.begin_copied(held, named, kept, moment)
    }

    fn refuse_begin(
        &mut self,
        held: &Held<'_, G>,
        authority: &Authority,
        moment: u64,
    ) -> BeginRefusal
        requires { self.old.seen ≤ entry_count (history held.now) }
        ensures { DeskBegins self.old held.now authority.now moment (Err result) held.now self.new }
    {
        self.seen = held.guard.entry_count();
        refused_begin(held.book(), authority, moment)
    }

    // Begins a turn with copies of the authority for the mark and the turn.
    fn begin_copied(
        &mut self,
        held: &mut Held<'_, G>,
        named: Authority,
        kept: Authority,
        moment: u64,
    ) -> Result<RobotsTurn<G>, BeginRefusal>
        requires seen { self.old.seen ≤ entry_count (history held.old) }
        requires same { named ≡ kept }
        ensures { DeskBegins self.old held.old kept moment result held.new self.new }
    {
        let promised = self.promised();
        let counted = &mut *held.guard;
        let account = &mut self.account;
        let result = begin_round(counted, named, kept, moment, account, promised);
        self.seen = counted.entry_count();
        match result {
            Ok(turn) => {
                self.turns += 1;
                Ok(turn)
            }
            Err(refused) => Err(refused),
        }
    }

    /// Brings the answer of a turn of this desk, in force from now on. Takes no memory; uses two spares of
    /// the answer.
    pub fn arrive<R: Wait>(&mut self, rt: &R, turn: RobotsTurn<G>, answer: TimedAnswer, moment: u64)
        requires own { turn.desk ≡ self.old.no }
        requires spares { 1 < answer.spares }
        ensures step { Somewhere self.old
            (λ old new. DeskArrives self.old old turn answer moment new self.new) }
        ensures no { self.new.no ≡ self.old.no }
        ensures out { HasOut self.old self.new 0 0 0 0 0 1 }
    {
        let shared = self.shared;
        let replaced = {
            let mut held = self.lend_when(
                rt,
                &Awaited::Turn {
                    out: self.turns,
                    authority: turn.authority().text(),
                    turn: turn.number(),
                },
            );
            self.arrive_in(&mut held, turn, answer, moment);
            held.guard.take_replaced()
        };
        shared.tell();
        // An index has megabytes: it is freed outside the lock.
        drop(replaced);
    }

    fn arrive_in(
        &mut self,
        held: &mut Held<'_, G>,
        turn: RobotsTurn<G>,
        answer: TimedAnswer,
        moment: u64,
    )
        requires seen { self.old.seen ≤ entry_count (history held.old) }
        requires some { 0 < self.old.turns }
        requires turn { has_turn (history held.old) turn.authority turn.turn ≡ true }
        requires spares { 1 < answer.spares }
        ensures { DeskArrives self.old held.old turn answer moment held.new self.new }
    {
        let counted = &mut *held.guard;
        let RobotsTurn {
            authority,
            turn,
            desk: _,
            one,
        } = turn;
        counted.arrive(authority, turn, one, answer, moment, &mut self.account);
        self.seen = counted.entry_count();
        self.turns -= 1;
    }
}

// The book's begin and its turn, if there is memory for the marks of the turn beside the promised ones.
fn begin_round<G: Gate>(
    counted: &mut CountedBook<G>,
    named: Authority,
    kept: Authority,
    moment: u64,
    account: &mut Account<G>,
    promised: u64,
) -> Result<RobotsTurn<G>, BeginRefusal>
    requires same { named ≡ kept }
    requires few { promised < 2 ^ 63 }
    requires fits { length account.old.marks + promised ≤ account.old.room }
    ensures begun { BeginsRound counted.old kept account.old moment
        result counted.new account.new }
    ensures room { length account.old.marks + promised + 2 * entries_of_ok result
        ≤ account.new.room }
{
    if make_room(account, promised, 2).is_err() {
        return Err(refused_begin(counted.book(), &kept, moment));
    }
    match counted.begin(&kept, named, moment, account) {
        Ok((turn, one)) => Ok(RobotsTurn {
            authority: kept,
            turn,
            desk: account.no(),
            one,
        }),
        Err(refusal) => Err(refusal),
    }
}

// The refusal of a begin that ran out of memory before it was made.
fn refused_begin(book: &Book, authority: &Authority, moment: u64) -> BeginRefusal
    ensures { Begins book.now authority.now moment (Err result) book.now }
{
    if book.is_fetching(authority.text()) {
        return BeginRefusal::InFlight;
    }
    if book.has_room(2) {
        return BeginRefusal::NoMemory;
    }
    BeginRefusal::LogFull
}

fn copy_twice(authority: &Authority) -> Result<(Authority, Authority), AllocError>
    ensures { IfOk result
        (λ copies. (copies.0 ≡ authority.now) × (copies.1 ≡ authority.now)) }
{
    Ok((authority.copy()?, authority.copy()?))
}
