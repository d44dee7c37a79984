//! Visits of pages: one fetch each, whose response is handed out. No redirect is followed.
//! RFC 9309, sections 2.2 and 2.4.
ghost use Rattle.std.specs.Prelude.{◌≡◌, ◌≤◌};
ghost use Rattle.gate_lock.specs.Desks.{HasOut, KeepsOut};
ghost use Rattle.page_worker.specs.Visits.{AsksOnce, SpendsPermit, VisitsPage, visit_of, visit_without};
ghost use Rattle.page_worker.specs.World.{world_of};

use crate::clock::Clock;
use crate::event::EventObserver;
use crate::worker::{AnswerSeen, Worker, ask_hop};
use crawl_job::{Hop, Job};
use fetchers::Fetcher;
use gate_history::Reason;
use gate_lock::{Desk, Gate, Permit};
use http_client::Failure;
use http_wire::{ForwardedFields, HttpReply, WireFault};
use path_normal::PageUrl;
use permit_book::PermitNo;
use robots_text::Token;
use std::alloc::Global;
use std::sync::Wait;

/// What a visit came to.
#[derive(Drop)]
pub enum Visited {
    /// It is over.
    Done(PageVisit),
    /// It was not begun: another desk is fetching the robots.txt of the page's authority. The same visit may
    /// be made later.
    InFlight,
}

/// A fetch of a page with its response, or why there is none.
#[derive(Drop)]
pub struct PageVisit {
    /// The fetch, or why it was not made. Never a redirect that is not followed.
    pub hop: Hop,
    /// The response, if the fetch gave one: its status, its body, of at most as many octets as the fetcher
    /// gives, and its head.
    pub reply: Option<HttpReply>,
    /// Why the device of the fetch failed, if it did and the reason is known.
    pub failure: Option<Failure>,
}

impl PageVisit {
    /// A visit that fetches nothing.
    pub fn without(hop: Hop) -> PageVisit
        ensures { result ≡ visit_without hop }
    {
        PageVisit {
            hop,
            reply: None,
            failure: None,
        }
    }

    /// A fetch by this permit, with its result.
    pub(crate) fn of(
        number: PermitNo,
        reason: Reason,
        given: Result<HttpReply, WireFault>,
        failure: Option<Failure>,
    ) -> PageVisit
        ensures { result ≡ visit_of number reason given failure }
    {
        match given {
            Ok(reply) => PageVisit {
                hop: Hop::Page {
                    number,
                    reason,
                    status: reply.status,
                    length: reply.body.len() as u64,
                    cut: reply.cut,
                },
                reply: Some(reply),
                failure,
            },
            Err(fault) => PageVisit {
                hop: Hop::Fault { number, fault },
                reply: None,
                failure,
            },
        }
    }
}

/// Visits pages, each by one fetch.
#[derive(Drop)]
pub struct PageVisitor<'v, F: Fetcher, C: Clock, R: Wait> {
    pub rt: &'v R,
    pub alloc: Global,
    pub fetcher: &'v F,
    pub clock: &'v C,
}

impl<F: Fetcher, C: Clock, R: Wait> PageVisitor<'_, F, C, R> {
    /// Fetches a job's page once, with these fields of a client's request. Before its ask, the robots answer
    /// of the page's authority is refreshed if a turn is due; if another desk is refreshing it, nothing is
    /// done, and nobody waits. A redirect is a response like others: its target needs a visit of its own.
    ///
    /// It may make only so many more authorities known, those without an answer of any age. Without one left,
    /// such a page is refused with the hop `Err(AuthoritiesFull)`.
    pub fn visit<G: Gate>(
        &self,
        job: Job,
        fields: &ForwardedFields<'_>,
        desk: &mut Desk<'_, G>,
        newcomers: &mut u64,
    ) -> Visited
        ensures visits { VisitsPage
            (world_of (F.gives self.now.fetcher.now) (F.follows self.now.fetcher.now) (C.reads self.now.clock.now))
            job newcomers.old result newcomers.new desk.old desk.new }
        ensures no { desk.new.no ≡ desk.old.no }
        ensures out { KeepsOut desk.old desk.new }
        ensures newcomers { newcomers.new ≤ newcomers.old }
    {
        let worker = Worker {
            rt: self.rt,
            alloc: self.alloc,
            fetcher: self.fetcher,
            clock: self.clock,
            notes: &(),
        };
        worker.visit_at(job, fields, desk, newcomers)
    }
}

impl<F: Fetcher, C: Clock, N: EventObserver, R: Wait> Worker<'_, F, C, N, R> {
    // Visits the page of a job. It may make only so many more authorities known.
    fn visit_at<G: Gate>(
        &self,
        job: Job,
        fields: &ForwardedFields<'_>,
        desk: &mut Desk<'_, G>,
        newcomers: &mut u64,
    ) -> Visited
        ensures visits { VisitsPage
            (world_of (F.gives self.now.fetcher.now) (F.follows self.now.fetcher.now) (C.reads self.now.clock.now))
            job newcomers.old result newcomers.new desk.old desk.new }
        ensures no { desk.new.no ≡ desk.old.no }
        ensures out { KeepsOut desk.old desk.new }
        ensures newcomers { newcomers.new ≤ newcomers.old }
    {
        let Job { token, url } = job;
        match self.find_answer(&url, desk, newcomers) {
            Ok(AnswerSeen::Answered) => Visited::Done(self.visit_asked(token, url, fields, desk)),
            Ok(AnswerSeen::InFlight) => Visited::InFlight,
            Err(refusal) => Visited::Done(PageVisit::without(Hop::Err(refusal))),
        }
    }

    // Asks for a page and, if granted, visits it.
    fn visit_asked<G: Gate>(
        &self,
        token: Token,
        url: PageUrl,
        fields: &ForwardedFields<'_>,
        desk: &mut Desk<'_, G>,
    ) -> PageVisit
        ensures asks { AsksOnce
            (world_of (F.gives self.now.fetcher.now) (F.follows self.now.fetcher.now) (C.reads self.now.clock.now))
            token url result desk.old desk.new }
        ensures no { desk.new.no ≡ desk.old.no }
        ensures out { KeepsOut desk.old desk.new }
    {
        match desk.ask(self.rt, token, url, self.clock.now()) {
            Ok(permit) => self.visit_granted(permit, fields, desk),
            Err(refusal) => PageVisit::without(ask_hop(refusal)),
        }
    }

    // Starts, makes and finishes a permit's fetch, and hands out its result.
    fn visit_granted<G: Gate>(
        &self,
        permit: Permit<G>,
        fields: &ForwardedFields<'_>,
        desk: &mut Desk<'_, G>,
    ) -> PageVisit
        requires { permit.desk ≡ desk.old.no }
        ensures spends { SpendsPermit
            (world_of (F.gives self.now.fetcher.now) (F.follows self.now.fetcher.now) (C.reads self.now.clock.now))
            permit result desk.old desk.new }
        ensures no { desk.new.no ≡ desk.old.no }
        ensures out { HasOut desk.old desk.new 0 1 0 0 0 0 }
    {
        let running = match desk.start(self.rt, permit, self.clock.now()) {
            Ok(running) => running,
            Err(denial) => return PageVisit::without(Hop::No(denial)),
        };
        let number = running.number();
        let reason = running.reason();
        let mut failure = None;
        let (fetched, given) = self.fetcher.fetch_page(running, fields, &mut failure);
        desk.finish(self.rt, fetched);
        PageVisit::of(number, reason, given, failure)
    }
}
