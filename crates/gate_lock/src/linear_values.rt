//! The values that must be spent: a permit, a running fetch, a made fetch, and a turn.
//! `Desk` makes them and takes them back; a program that drops one does not compile.
ghost use Rattle.std.specs.Prelude.{◌≡◌};

use authority_cache::TurnNo;
use gate_history::Reason;
use gate_ledgers::{Gate, One, RunningLedger, TurnLedger, UnspentLedger};
use numbered_store::Numbered;
use path_normal::{Authority, PageUrl};
use permit_book::PermitNo;
use robots_text::Token;
use std::marker::Model;
use std::sync::ledger::Ledger;

/// A permit, or a fetch that was made, and the desk that must spend it. It has no `Drop`, and counts as one
/// in the ledger `L`.
#[must_use]
pub struct Pass<L: Ledger> {
    pub(crate) number: PermitNo,
    pub(crate) token: Token,
    pub(crate) url: PageUrl,
    pub(crate) desk: u64,
    pub(crate) one: One<L>,
}

impl<L: Ledger> Model for Pass<L> {
    ghost use Rattle.gate_lock.specs.Desks.{Pass as View};

    ghost Value = { View };

    ghost view = { λ pass. record {
      number = pass.number;
      token = pass.token;
      url = pass.url;
      desk = pass.desk;
    } };
}

/// A permit for one fetch of a URL under a token. It has no `Drop`: a start spends it, or `back` returns
/// it. Dropping one would leave it unspent forever, with its slot and its authority's place taken.
pub type Permit<G> = Pass<UnspentLedger<G>>;

/// A fetch that was made. It has no `Drop`: `finish` ends it.
/// Dropping one would leave it running forever, with its slot and its authority's place taken.
pub type Fetched<G> = Pass<RunningLedger<G>>;

impl<L: Ledger> Pass<L> {
    /// The number of the permit.
    pub fn number(&self) -> PermitNo
        ensures { result ≡ self.now.number }
    {
        self.number
    }

    /// The token under which the URL may be fetched, or was.
    pub fn token(&self) -> &Token
        ensures { result.now ≡ self.now.token }
    {
        &self.token
    }

    /// The URL that may be fetched, or was.
    pub fn url(&self) -> &PageUrl
        ensures { result.now ≡ self.now.url }
    {
        &self.url
    }

    /// The desk that made it and must spend it.
    pub fn desk_no(&self) -> u64
        ensures { result ≡ self.now.desk }
    {
        self.desk
    }

    pub(crate) fn into_share(self) -> (PermitNo, One<L>)
        ensures { result.0 ≡ self.number }
    {
        let Pass {
            number,
            token: _,
            url: _,
            desk: _,
            one,
        } = self;
        (number, one)
    }
}

impl<G: Gate> Numbered for Permit<G> {
    ghost named = { λ permit. permit.number };

    fn numbered(&self) -> u64 {
        self.number().number()
    }
}

/// A fetch that may be made once. It has no `Drop`: `spend` makes a `Fetched` of it. Dropping one would
/// leave it running forever, with its slot and its authority's place taken.
#[must_use]
pub struct Running<G: Gate> {
    pub(crate) fetched: Fetched<G>,
    pub(crate) reason: Reason,
}

impl<G: Gate> Model for Running<G> {
    ghost use Rattle.gate_lock.specs.Desks.{Run};

    ghost Value = { Run };

    ghost view = { λ run. record {
      pass = run.fetched;
      reason = run.reason;
    } };
}

impl<G: Gate> Running<G> {
    /// The number of the spent permit.
    pub fn number(&self) -> PermitNo
        ensures { result ≡ self.now.pass.number }
    {
        self.fetched.number
    }

    /// The token of the fetch.
    pub fn token(&self) -> &Token
        ensures { result.now ≡ self.now.pass.token }
    {
        &self.fetched.token
    }

    /// The URL to fetch.
    pub fn url(&self) -> &PageUrl
        ensures { result.now ≡ self.now.pass.url }
    {
        &self.fetched.url
    }

    /// Why the fetch is allowed.
    pub fn reason(&self) -> Reason
        ensures { result ≡ self.now.reason }
    {
        self.reason
    }

    /// The desk that started it and must finish it.
    pub fn desk_no(&self) -> u64
        ensures { result ≡ self.now.pass.desk }
    {
        self.fetched.desk
    }

    /// Marks the fetch as made; it can't be made again, only finished.
    pub fn spend(self) -> Fetched<G>
        ensures { result ≡ self.pass }
    {
        let Running { fetched, reason: _ } = self;
        fetched
    }
}

impl<G: Gate> Numbered for Running<G> {
    ghost named = { λ run. run.pass.number };

    fn numbered(&self) -> u64 {
        self.number().number()
    }
}

/// A turn to fetch an authority's robots.txt. It has no `Drop`: `arrive` brings its answer. Dropping one
/// would leave it in flight forever and block all later turns of the authority.
#[must_use]
pub struct RobotsTurn<G: Gate> {
    pub(crate) authority: Authority,
    pub(crate) turn: TurnNo,
    pub(crate) desk: u64,
    pub(crate) one: One<TurnLedger<G>>,
}

impl<G: Gate> Model for RobotsTurn<G> {
    ghost use Rattle.gate_lock.specs.Desks.{Errand};

    ghost Value = { Errand };

    ghost view = { λ turn. record {
      authority = turn.authority;
      turn = turn.turn;
      desk = turn.desk;
    } };
}

impl<G: Gate> RobotsTurn<G> {
    /// The authority of the robots.txt.
    pub fn authority(&self) -> &Authority
        ensures { result.now ≡ self.now.authority }
    {
        &self.authority
    }

    /// The number of the turn.
    pub fn number(&self) -> TurnNo
        ensures { result ≡ self.now.turn }
    {
        self.turn
    }

    /// The desk that began it and must bring its answer.
    pub fn desk_no(&self) -> u64
        ensures { result ≡ self.now.desk }
    {
        self.desk
    }
}
