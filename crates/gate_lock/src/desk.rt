//! A desk: one thread's part of a gate. It makes the book's calls and keeps a mark of each entry that it
//! made.
//! RFC 9309, sections 2.2 to 2.4.
ghost use Rattle.std.specs.Prelude.{◌≡◌, ◌+◌, ◌*◌, ◌^◌, ◌<◌, ◌≤◌, length, OnOk};
ghost use Rattle.gate_core.specs.Gate.{history};
ghost use Rattle.gate_lock.specs.Awaiting.{IsMet};
ghost use Rattle.gate_lock.specs.Desks.{IsGateOf, out_of, receipt_of};

use crate::awaited::Awaited;
use crate::held::Held;
use crate::shared_book::SharedBook;
use gate_ledgers::{Account, Gate, Receipts};
use std::alloc::AllocError;
use std::marker::Model;
use std::sync::Wait;

/// One thread's part of a gate. It has no `Drop`: `close` turns it into receipts.
/// Dropping one would lose its marks, and the gate could never be settled.
#[must_use]
pub struct Desk<'a, G: Gate> {
    pub(crate) shared: &'a SharedBook<G>,
    pub(crate) seen: u64,
    pub(crate) permits: u64,
    pub(crate) runs: u64,
    pub(crate) turns: u64,
    // What it did, with room for the marks of what must still be spent.
    pub(crate) account: Account<G>,
}

impl<'a, G: Gate> Model for Desk<'a, G> {
    ghost use Rattle.gate_lock.specs.Desks.{DeskView, IsDesk};

    ghost Value = { DeskView };

    ghost view = { λ desk. record {
      limits = desk.shared.now;
      no = desk.account.no;
      seen = desk.seen;
      permits = desk.permits;
      runs = desk.runs;
      turns = desk.turns;
      sealed = desk.account.sealed;
      marks = desk.account.marks;
    } };

    ghost invariant = { λ desk. IsDesk desk.seen desk.permits desk.runs desk.turns desk.account };
}

impl<'a, G: Gate> Desk<'a, G> {
    /// Its number, from 1.
    pub fn desk_no(&self) -> u64
        ensures { result ≡ self.now.no }
    {
        self.account.no()
    }

    /// How many entries it made.
    pub fn share(&self) -> u64
        ensures marks { result ≡ length self.now.sealed.places + length self.now.marks }
        ensures seen { result ≤ self.now.seen }
    {
        (self.account.sealed().places().len() + self.account.marks().len()) as u64
    }

    /// How many entries the history had when it last looked, since the first entry of all.
    pub fn seen(&self) -> u64
        ensures { result ≡ self.now.seen }
    {
        self.seen
    }

    /// How many permits, running fetches and turns it must still spend.
    pub fn out(&self) -> u64
        ensures { result ≡ out_of self.now }
    {
        // (there is room for a mark of each)
        let _room = self.account.room();
        self.permits + self.runs + self.turns
    }

    // How many marks its unspent values may still make.
    pub(crate) fn promised(&self) -> u64
        ensures value { result ≡ 2 * self.now.permits + self.now.runs + self.now.turns }
        ensures bound { result < 2 ^ 63 }
    {
        let _room = self.account.room();
        2 * self.permits + self.runs + self.turns
    }

    /// The lock, once the history has the entries that this desk has seen: for the calls that end in `_in`.
    pub fn lend<R: Wait>(&self, rt: &R) -> Held<'a, G>
        ensures { IsGateOf self.now.limits self.now.seen result }
    {
        self.lend_when(rt, &Awaited::Nothing)
    }

    // The lock, once the awaited condition holds and the history has the entries that this desk has seen.
    pub(crate) fn lend_when<'b, R: Wait>(&self, rt: &R, awaited: &'b Awaited<'b>) -> Held<'a, G>
        ensures gate { IsGateOf self.now.limits self.now.seen result }
        ensures met { IsMet awaited.now (history result) }
    {
        self.shared.lend_when(rt, self.seen, awaited)
    }

    /// Closes a desk that has nothing out.
    pub fn close(self) -> Receipts<G>
        requires { out_of self ≡ 0 }
        ensures { result ≡ receipt_of self.entry }
    {
        let Desk {
            shared: _,
            seen: _,
            permits: _,
            runs: _,
            turns: _,
            account,
        } = self;
        account.close()
    }
}

// Makes room for more marks beside the promised ones.
pub(crate) fn make_room<G: Gate>(
    account: &mut Account<G>,
    promised: u64,
    more: usize,
) -> Result<(), AllocError>
    requires { (promised < 2 ^ 63) × (more ≤ 3) }
    ensures same { account.new ≡ record account.old { room = account.new.room } }
    ensures capacity { account.old.room ≤ account.new.room }
    ensures room { OnOk result (length account.old.marks + promised + more ≤ account.new.room) }
{
    account.reserve(promised as usize + more)
}
