//! The hops of a job, each with a refresh if a turn is due, an ask, and a fetch by the permit.
//! RFC 9309, sections 2.2, 2.3.1 and 2.4.
ghost use Rattle.std.specs.Prelude.{◌≡◌, ◌≤◌, ◌∷◌, [], ℕ, List, vec_capacity};
ghost use Rattle.path_normal.specs.PageText.{authority_of};
ghost use Rattle.gate_lock.specs.Desks.{HasOut, KeepsOut};
ghost use Rattle.gate_lock.specs.Steps.{Somewhere};
ghost use Rattle.gate_history.specs.declared.entry.Entry.{Entry};
ghost use Rattle.page_worker.specs.Finding.{FindsAnswer};
ghost use Rattle.page_worker.specs.Limits.{max_hops};
ghost use Rattle.page_worker.specs.Newcomers.{CountsStale};
ghost use Rattle.page_worker.specs.Outcomes.{AfterRefresh, AreHops, MayRefresh};
ghost use Rattle.page_worker.specs.Refreshes.{MayBeginErrand};
ghost use Rattle.page_worker.specs.Stale.{BeginsIfStale};
ghost use Rattle.page_worker.specs.WaysOn.{AddsEntries, TellsWay, ask_hop};
ghost use Rattle.page_worker.specs.World.{IsSinceRead, world_of};

use crate::clock::Clock;
use crate::event::{Event, EventObserver};
use crate::refreshing::bring_answer;
use crate::stale::begin_if_stale;
use crate::way_on::{WayOn, way_on};
use crawl_job::{Hop, Outcome, Refusal};
use fetchers::Fetcher;
use gate_core::{AskRefusal, BeginRefusal};
use gate_lock::{Desk, Gate, Permit, RobotsTurn};
use http_wire::ForwardedFields;
use path_normal::PageUrl;
use robots_text::Token;
use std::alloc::Global;
use std::sync::Wait;

/// What a worker sees of an authority's answer, for which it does not wait.
#[derive(Drop)]
pub(crate) enum AnswerSeen {
    /// It was in force and none was due, or the worker brought it.
    Answered,
    /// Another desk is fetching it.
    InFlight,
}

#[derive(Drop)]
pub(crate) struct Worker<'a, F: Fetcher, C: Clock, N: EventObserver, R: Wait> {
    pub(crate) rt: &'a R,
    pub(crate) alloc: Global,
    pub(crate) fetcher: &'a F,
    pub(crate) clock: &'a C,
    pub(crate) notes: &'a N,
}

impl<F: Fetcher, C: Clock, N: EventObserver, R: Wait> Worker<'_, F, C, N, R> {
    /// Makes the hops of a job, which has room for them. It may make only so many more authorities known.
    pub(crate) fn hops_from<G: Gate>(
        &self,
        token: &Token,
        url: PageUrl,
        room: Vec<Hop>,
        desk: &mut Desk<'_, G>,
        newcomers: &mut u64,
    ) -> Outcome
        requires empty { room.items ≡ [] }
        requires room { max_hops ≤ vec_capacity room }
        ensures tells { AddsEntries (AreHops
            (world_of (F.gives self.now.fetcher.now) (F.follows self.now.fetcher.now) (C.reads self.now.clock.now))
            token.now url result.hops.items result.body.items) desk.old desk.new }
        ensures no { desk.new.no ≡ desk.old.no }
        ensures out { KeepsOut desk.old desk.new }
        ensures newcomers { newcomers.new ≤ newcomers.old }
    {
        let mut hops = room;
        let mut url = url;
        loop {
            match self.hop_at(token, url, hops.len() as u64, desk, newcomers) {
                WayOn::Ends(hop, body) => {
                    self.notes.sees(Event::Ends(&hop));
                    hops.push_reserved(hop);
                    return Outcome { hops, body };
                }
                WayOn::Leads(hop, next) => {
                    self.notes.sees(Event::Ends(&hop));
                    hops.push_reserved(hop);
                    url = next;
                }
                WayOn::Stops(hop, stop) => {
                    self.notes.sees(Event::Ends(&hop));
                    self.notes.sees(Event::Ends(&stop));
                    hops.push_reserved(hop);
                    hops.push_reserved(stop);
                    let body = Vec::new(self.alloc);
                    return Outcome { hops, body };
                }
            }
        }
    }

    // Makes a hop at a page, after this many followed redirects.
    fn hop_at<G: Gate>(
        &self,
        token: &Token,
        url: PageUrl,
        followed: u64,
        desk: &mut Desk<'_, G>,
        newcomers: &mut u64,
    ) -> WayOn
        ensures tells { AddsEntries (AfterRefresh
            (world_of (F.gives self.now.fetcher.now) (F.follows self.now.fetcher.now) (C.reads self.now.clock.now)) url
            (TellsWay (world_of (F.gives self.now.fetcher.now) (F.follows self.now.fetcher.now)
            (C.reads self.now.clock.now))
            token.now url followed result)) desk.old desk.new }
        ensures no { desk.new.no ≡ desk.old.no }
        ensures out { KeepsOut desk.old desk.new }
        ensures newcomers { newcomers.new ≤ newcomers.old }
    {
        self.notes.sees(Event::Begins {
            before: followed,
            token,
            url: &url,
        });
        let seen = self.see_to_answer(&url, desk, newcomers);
        self.notes.sees(Event::Answered(url.authority()));
        if let Err(refusal) = seen {
            return WayOn::Ends(Hop::Err(refusal), Vec::new(self.alloc));
        }
        match token.copy() {
            Ok(token) => self.fetch_asked(token, url, followed, desk),
            Err(_) => WayOn::Ends(Hop::Err(Refusal::NoMemory), Vec::new(self.alloc)),
        }
    }

    /// Refreshes the answer of a page's authority if a turn is due. If another desk does, waits for its
    /// answer.
    fn see_to_answer<G: Gate>(
        &self,
        url: &PageUrl,
        desk: &mut Desk<'_, G>,
        newcomers: &mut u64,
    ) -> Result<(), Refusal>
        ensures refreshed { AddsEntries
            (MayRefresh (world_of (F.gives self.now.fetcher.now) (F.follows self.now.fetcher.now)
            (C.reads self.now.clock.now)) (authority_of url.now)) desk.old desk.new }
        ensures no { desk.new.no ≡ desk.old.no }
        ensures out { KeepsOut desk.old desk.new }
        ensures newcomers { newcomers.new ≤ newcomers.old }
    {
        match self.find_answer(url, desk, newcomers) {
            Ok(AnswerSeen::Answered) => Ok(()),
            Ok(AnswerSeen::InFlight) => {
                desk.wait_answer(self.rt, url.authority(), self.clock.now());
                Ok(())
            }
            Err(refusal) => Err(refusal),
        }
    }

    /// Refreshes the answer of a page's authority if a turn is due and no other desk does.
    pub(crate) fn find_answer<G: Gate>(
        &self,
        url: &PageUrl,
        desk: &mut Desk<'_, G>,
        newcomers: &mut u64,
    ) -> Result<AnswerSeen, Refusal>
        ensures refreshed { AddsEntries
            (MayRefresh (world_of (F.gives self.now.fetcher.now) (F.follows self.now.fetcher.now)
            (C.reads self.now.clock.now)) (authority_of url.now)) desk.old desk.new }
        ensures finds { FindsAnswer
            (world_of (F.gives self.now.fetcher.now) (F.follows self.now.fetcher.now) (C.reads self.now.clock.now))
            (authority_of url.now) newcomers.old result newcomers.new desk.old desk.new }
        ensures no { desk.new.no ≡ desk.old.no }
        ensures out { KeepsOut desk.old desk.new }
        ensures newcomers { newcomers.new ≤ newcomers.old }
    {
        match self.begin_stale(url, desk, self.clock.now(), newcomers) {
            Ok(None) => Ok(AnswerSeen::Answered),
            Ok(Some(turn)) => {
                self.notes.sees(Event::AsksRobots(url.authority()));
                bring_answer(
                    self.rt,
                    self.alloc,
                    turn,
                    desk,
                    self.fetcher,
                    self.clock,
                    self.notes,
                );
                Ok(AnswerSeen::Answered)
            }
            Err(BeginRefusal::InFlight) => Ok(AnswerSeen::InFlight),
            Err(BeginRefusal::LogFull) => Err(Refusal::LogFull),
            Err(BeginRefusal::AuthoritiesFull) => Err(Refusal::AuthoritiesFull),
            Err(BeginRefusal::NoMemory) => Err(Refusal::NoMemory),
        }
    }

    fn begin_stale<G: Gate>(
        &self,
        url: &PageUrl,
        desk: &mut Desk<'_, G>,
        moment: u64,
        newcomers: &mut u64,
    ) -> Result<Option<RobotsTurn<G>>, BeginRefusal>
        requires { C.reads self.now.clock.now moment }
        ensures begins { MayBeginErrand
            (world_of (F.gives self.now.fetcher.now) (F.follows self.now.fetcher.now) (C.reads self.now.clock.now))
            (authority_of url.now) result desk.old desk.new }
        ensures step { Somewhere desk.old (λ old new.
            BeginsIfStale (F.gives self.now.fetcher.now).closed_for desk.old old (authority_of url.now) moment result new desk.new
            × CountsStale old (authority_of url.now) newcomers.old result newcomers.new) }
        ensures no { desk.new.no ≡ desk.old.no }
        ensures newcomers { newcomers.new ≤ newcomers.old }
    {
        let closed_for = self.fetcher.closed_for();
        let mut held = desk.lend(self.rt);
        begin_if_stale(url, closed_for, desk, &mut held, moment, newcomers)
    }

    // Asks for a page and, if granted, fetches it once the site's turn comes: a denied page needs no turn.
    fn fetch_asked<G: Gate>(
        &self,
        token: Token,
        url: PageUrl,
        followed: u64,
        desk: &mut Desk<'_, G>,
    ) -> WayOn
        ensures tells { AddsEntries (TellsWay
            (world_of (F.gives self.now.fetcher.now) (F.follows self.now.fetcher.now) (C.reads self.now.clock.now))
            token url followed result) desk.old desk.new }
        ensures no { desk.new.no ≡ desk.old.no }
        ensures out { KeepsOut desk.old desk.new }
    {
        match desk.ask(self.rt, token, url, self.clock.now()) {
            Ok(permit) => {
                self.notes.awaits_turn(permit.url().authority());
                self.fetch_granted(permit, followed, desk)
            }
            Err(refusal) => WayOn::Ends(ask_hop(refusal), Vec::new(self.alloc)),
        }
    }

    // Starts, makes and finishes a permit's fetch.
    fn fetch_granted<G: Gate>(
        &self,
        permit: Permit<G>,
        followed: u64,
        desk: &mut Desk<'_, G>,
    ) -> WayOn
        requires { permit.desk ≡ desk.old.no }
        ensures tells { AddsEntries (λ (own : List Entry). (granted : ℕ) →
            IsSinceRead (world_of (F.gives self.now.fetcher.now) (F.follows self.now.fetcher.now)
            (C.reads self.now.clock.now))
            granted →
            TellsWay (world_of (F.gives self.now.fetcher.now) (F.follows self.now.fetcher.now)
            (C.reads self.now.clock.now))
            permit.token permit.url followed result
            (Entry.Granted granted permit.number
            (record { token = permit.token; url = permit.url }) ∷ own)) desk.old desk.new }
        ensures no { desk.new.no ≡ desk.old.no }
        ensures out { HasOut desk.old desk.new 0 1 0 0 0 0 }
    {
        let running = match desk.start(self.rt, permit, self.clock.now()) {
            Ok(running) => running,
            Err(denial) => return WayOn::Ends(Hop::No(denial), Vec::new(self.alloc)),
        };
        let number = running.number();
        let reason = running.reason();
        let mut failure = None;
        self.notes.sees(Event::Fetches);
        let (fetched, given) = self
            .fetcher
            .fetch_page(running, &ForwardedFields::none(), &mut failure);
        self.notes.sees(Event::Fetched(failure));
        let schemes = self.fetcher.schemes();
        let way = way_on(
            self.alloc,
            schemes,
            number,
            reason,
            followed,
            fetched.url(),
            given,
        );
        desk.finish(self.rt, fetched);
        way
    }
}

/// The hop of an ask without permit.
pub(crate) fn ask_hop(refusal: AskRefusal) -> Hop
    ensures { result ≡ ask_hop refusal }
{
    match refusal {
        AskRefusal::Denied(denial) => Hop::No(denial),
        AskRefusal::LogFull => Hop::Err(Refusal::LogFull),
        AskRefusal::Busy => Hop::Err(Refusal::Busy),
        AskRefusal::PermitsFull => Hop::Err(Refusal::PermitsFull),
        AskRefusal::NoMemory => Hop::Err(Refusal::NoMemory),
    }
}
