//! `Desk::ask` and `Desk::ask_in`: a permit for one fetch.
//! RFC 9309, sections 2.2 and 2.3.1.
ghost use Rattle.std.specs.Prelude.{◌≡◌, ◌+◌, ◌*◌, ◌^◌, ◌<◌, ◌≤◌, ℕ, Err, false, IfOk, length, List, OnErr, OnOk};
ghost use Rattle.gate_history.specs.History.{entry_count};
ghost use Rattle.gate_core.specs.Gate.{history};
ghost use Rattle.gate_core.specs.Replies.{Asks};
ghost use Rattle.gate_ledgers.specs.Entered.{entries_of_ask};
ghost use Rattle.gate_lock.specs.Desks.{HasOut, KeepsOut};
ghost use Rattle.gate_lock.specs.Results.{AsksRound, is_denial};
ghost use Rattle.gate_lock.specs.Steps.{DeskAsks, Somewhere};

use crate::desk::{Desk, make_room};
use crate::held::Held;
use crate::linear_values::{Pass, Permit};
use gate_core::{AskRefusal, Book, Judged};
use gate_ledgers::{Account, CountedBook, Gate};
use path_normal::PageUrl;
use permit_book::Fetch;
use robots_text::Token;
use robots_verdict::with_index;
use std::alloc::AllocError;
use std::sync::Wait;

#[tactic(auto)]
impl<'a, G: Gate> Desk<'a, G> {
    /// Asks for a permit. A slow verdict is found outside the lock, by the policy in force before; it
    /// counts only if the answer in force under the lock has the same text.
    pub fn ask<R: Wait>(
        &mut self,
        rt: &R,
        token: Token,
        url: PageUrl,
        moment: u64,
    ) -> Result<Permit<G>, AskRefusal>
        ensures step { Somewhere self.old
            (λ old new. DeskAsks self.old old token url moment result new self.new) }
        ensures no { self.new.no ≡ self.old.no }
        ensures ok { IfOk result
            (λ p. (p.desk ≡ self.old.no) × HasOut self.old self.new 1 0 0 0 0 0) }
        ensures err { OnErr result (KeepsOut self.old self.new) }
    {
        let alloc = self.account.allocator();
        // Room for `ask_in`; if memory is refused here, `ask_in` asks again.
        let promised = self.promised();
        let _ = make_room(&mut self.account, promised, 3);
        let policy = {
            let mut held = self.lend(rt);
            match held.book().slow_hint(url.authority(), moment) {
                Some(policy) => policy,
                None => return self.ask_in(&mut held, Judged::new(None, token, url), moment),
            }
        };
        let judged = Judged::new(Some(with_index(alloc, policy)), token, url);
        let mut held = self.lend(rt);
        self.ask_in(&mut held, judged, moment)
    }

    /// Asks for a permit under the lock. Allocates the marks of its start and its end, which then need no
    /// memory.
    pub fn ask_in(
        &mut self,
        held: &mut Held<'_, G>,
        judged: Judged,
        moment: u64,
    ) -> Result<Permit<G>, AskRefusal>
        requires { self.old.seen ≤ entry_count (history held.old) }
        ensures { DeskAsks self.old held.old judged.token judged.url moment result held.new
            self.new }
    {
        let promised = self.promised();
        let counted = &mut *held.guard;
        let result = ask_round(counted, judged, moment, &mut self.account, promised);
        self.seen = counted.entry_count();
        match result {
            Ok(permit) => {
                self.permits += 1;
                Ok(permit)
            }
            Err(refusal) => Err(refusal),
        }
    }
}

// What an ask's permit and its mark are for.
#[derive(Drop)]
struct Copies {
    permit: Fetch,
    mark: Fetch,
}

// The copies of an ask, with room for the marks of its permit beside the promised ones.
fn copies_of<G: Gate>(
    judged: &Judged,
    account: &mut Account<G>,
    promised: u64,
) -> Result<Copies, AllocError>
    requires { promised < 2 ^ 63 }
    ensures copies { IfOk result (λ copies.
        (copies.permit ≡ judged.now) × (copies.mark ≡ judged.now)) }
    ensures same { account.new ≡ record account.old { room = account.new.room } }
    ensures capacity { account.old.room ≤ account.new.room }
    ensures room { OnOk result (length account.old.marks + promised + 3 ≤ account.new.room) }
{
    make_room(account, promised, 3)?;
    Ok(Copies {
        permit: judged.fetch().copy()?,
        mark: judged.fetch().copy()?,
    })
}

// The book's ask, if there is memory for its copies, and for the marks of its permit beside the promised
// ones.
fn ask_round<G: Gate>(
    counted: &mut CountedBook<G>,
    judged: Judged,
    moment: u64,
    account: &mut Account<G>,
    promised: u64,
) -> Result<Permit<G>, AskRefusal>
    requires few { promised < 2 ^ 63 }
    requires fits { length account.old.marks + promised ≤ account.old.room }
    ensures asked { AsksRound counted.old judged account.old moment
        result counted.new account.new }
    ensures room { length account.old.marks + promised + 3 * entries_of_ask result
        ≤ account.new.room }
{
    match copies_of(&judged, account, promised) {
        Ok(copies) => ask_marked(counted, judged, copies, moment, account),
        Err(_) => {
            // (let go in place, each of its parts would be a branch of the proof)
            drop(judged);
            Err(refused_ask(counted.book(), moment))
        }
    }
}

// The book's ask and its permit. There is room for the mark.
fn ask_marked<G: Gate>(
    counted: &mut CountedBook<G>,
    judged: Judged,
    copies: Copies,
    moment: u64,
    account: &mut Account<G>,
) -> Result<Permit<G>, AskRefusal>
    requires copies { (copies.permit ≡ judged) × (copies.mark ≡ judged) }
    requires room { length account.old.marks < account.old.room }
    ensures asked { AsksRound counted.old judged account.old moment
        result counted.new account.new }
    ensures room { account.new.room ≡ account.old.room }
{
    let Copies { permit, mark } = copies;
    let Fetch { token, url } = permit;
    match counted.ask(judged, mark, moment, account) {
        Ok((number, one)) => Ok(Pass {
            number,
            token,
            url,
            desk: account.no(),
            one,
        }),
        Err(refusal) => Err(refusal),
    }
}

// The refusal of an ask that ran out of memory before it was made.
fn refused_ask(book: &Book, moment: u64) -> AskRefusal
    ensures reply { (token url : List ℕ) → Asks book.now token url moment (Err result) book.now }
    ensures no_entry { is_denial result ≡ false }
{
    if book.has_room(3) {
        return AskRefusal::NoMemory;
    }
    AskRefusal::LogFull
}
