//! `Desk::start`, `back` and `finish`: spending a permit or a fetch. They take no memory and always
//! succeed.
//! RFC 9309, section 2.4.
ghost use Rattle.std.specs.Prelude.{◌≡◌, ◌≢◌, ◌<◌, ◌≤◌, IfErr, IfOk, IfSome, OnErr, true};
ghost use Rattle.gate_history.specs.declared.outcome.Cause.TheVariants.{Spent};
ghost use Rattle.gate_history.specs.History.{entry_count};
ghost use Rattle.gate_history.specs.Outstanding.{is_running, is_unspent, stands};
ghost use Rattle.gate_core.specs.Gate.{history};
ghost use Rattle.gate_history.specs.Ruling.{IsRuling};
ghost use Rattle.gate_lock.specs.Desks.{HasOut, IsGateOf};
ghost use Rattle.gate_lock.specs.Steps.{DeskFinishes, DeskReturns, DeskStarts, Somewhere};

use crate::awaited::Awaited;
use crate::desk::Desk;
use crate::held::Held;
use crate::linear_values::{Fetched, Pass, Permit, Running};
use gate_core::Denial;
use gate_history::Ruling;
use gate_ledgers::Gate;
use std::sync::Wait;

#[tactic(auto)]
impl<'a, G: Gate> Desk<'a, G> {
    /// Starts the fetch of a permit of this desk. The answer in force now decides, and a denied start
    /// spends the permit too. The cause is never `Spent`. As for an ask, a slow verdict is found outside
    /// the lock.
    pub fn start<R: Wait>(
        &mut self,
        rt: &R,
        permit: Permit<G>,
        moment: u64,
    ) -> Result<Running<G>, Denial>
        requires { permit.desk ≡ self.old.no }
        ensures step { Somewhere self.old
            (λ old new. DeskStarts self.old old permit moment result new self.new) }
        ensures no { self.new.no ≡ self.old.no }
        ensures ok { IfOk result (λ r. (r.pass ≡ permit) × HasOut self.old self.new 0 1 1 0 0 0) }
        ensures err { OnErr result (HasOut self.old self.new 0 1 0 0 0 0) }
        ensures cause { IfErr result (λ denial. denial.cause ≢ Spent) }
    {
        let policy = {
            let mut held = self.lend_permit(rt, &permit);
            match held.book().slow_hint(permit.url.authority(), moment) {
                Some(policy) => policy,
                None => return self.start_in(&mut held, permit, None, moment),
            }
        };
        let ruling = Ruling::of(policy, &permit.token, &permit.url);
        let mut held = self.lend_permit(rt, &permit);
        self.start_in(&mut held, permit, Some(&ruling), moment)
    }

    // The lock, once the permit is good and the desk has one out.
    fn lend_permit<R: Wait>(&self, rt: &R, permit: &Permit<G>) -> Held<'a, G>
        ensures gate { IsGateOf self.now.limits self.now.seen result }
        ensures some { 0 < self.now.permits }
        ensures stands { stands (history result) permit.now.number permit.now.token
            permit.now.url ≡ true }
    {
        self.lend_when(
            rt,
            &Awaited::Permit {
                out: self.permits,
                number: permit.number(),
                token: permit.token(),
                url: permit.url(),
            },
        )
    }

    /// Gives back a permit of this desk.
    pub fn back<R: Wait>(&mut self, rt: &R, permit: Permit<G>)
        requires { permit.desk ≡ self.old.no }
        ensures step { Somewhere self.old
            (λ old new. DeskReturns self.old old permit.number new self.new) }
        ensures no { self.new.no ≡ self.old.no }
        ensures out { HasOut self.old self.new 0 1 0 0 0 0 }
    {
        let mut held = self.lend_when(
            rt,
            &Awaited::Unspent {
                out: self.permits,
                number: permit.number,
            },
        );
        self.back_in(&mut held, permit);
    }

    /// Ends a fetch that this desk started.
    pub fn finish<R: Wait>(&mut self, rt: &R, fetched: Fetched<G>)
        requires { fetched.desk ≡ self.old.no }
        ensures step { Somewhere self.old
            (λ old new. DeskFinishes self.old old fetched.number new self.new) }
        ensures no { self.new.no ≡ self.old.no }
        ensures out { HasOut self.old self.new 0 0 0 1 0 0 }
    {
        let mut held = self.lend_when(
            rt,
            &Awaited::Running {
                out: self.runs,
                number: fetched.number,
            },
        );
        self.finish_in(&mut held, fetched);
    }

    fn start_in(
        &mut self,
        held: &mut Held<'_, G>,
        permit: Permit<G>,
        ruling: Option<&Ruling>,
        moment: u64,
    ) -> Result<Running<G>, Denial>
        requires seen { self.old.seen ≤ entry_count (history held.old) }
        requires some { 0 < self.old.permits }
        requires stands { stands (history held.old) permit.number permit.token permit.url ≡ true }
        requires own { permit.desk ≡ self.old.no }
        requires ruled { IfSome ruling (λ ruling. IsRuling permit.token permit.url ruling.now) }
        ensures { DeskStarts self.old held.old permit moment result held.new self.new }
    {
        let counted = &mut *held.guard;
        let Pass {
            number,
            token,
            url,
            desk,
            one,
        } = permit;
        let account = &mut self.account;
        let _room = account.room();
        let share = (number, one);
        let result = counted.start(share, &token, url, ruling, moment, account);
        self.seen = counted.entry_count();
        self.permits -= 1;
        let (started, one) = match result {
            Ok(both) => both,
            Err(denial) => return Err(denial),
        };
        self.runs += 1;
        Ok(Running {
            fetched: Pass {
                number,
                token,
                url: started.url,
                desk,
                one,
            },
            reason: started.reason,
        })
    }

    fn back_in(&mut self, held: &mut Held<'_, G>, permit: Permit<G>)
        requires seen { self.old.seen ≤ entry_count (history held.old) }
        requires some { 0 < self.old.permits }
        requires unspent { is_unspent (history held.old) permit.number ≡ true }
        ensures { DeskReturns self.old held.old permit.number held.new self.new }
    {
        let counted = &mut *held.guard;
        let (number, one) = permit.into_share();
        counted.back(number, one, &mut self.account);
        self.seen = counted.entry_count();
        self.permits -= 1;
    }

    fn finish_in(&mut self, held: &mut Held<'_, G>, fetched: Fetched<G>)
        requires seen { self.old.seen ≤ entry_count (history held.old) }
        requires some { 0 < self.old.runs }
        requires running { is_running (history held.old) fetched.number ≡ true }
        ensures { DeskFinishes self.old held.old fetched.number held.new self.new }
    {
        let counted = &mut *held.guard;
        let (number, one) = fetched.into_share();
        counted.finish(number, one, &mut self.account);
        self.seen = counted.entry_count();
        self.runs -= 1;
    }
}
