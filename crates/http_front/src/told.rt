//! What a request is told.
//! RFC 9110, section 15.
ghost use Rattle.std.specs.Prelude.{◌≡◌};
ghost use Rattle.std.specs.Option.{option_copied};
ghost use Rattle.http_front.specs.Telling.{is_later, is_pass, reply_in, told_hop, told_page, told_visit};

use crate::asked::{CutRule, Misasked, PageWish};
use crawl_job::{Hop, Refusal};
use gate_core::Denial;
use gate_history::Reason;
use http_client::Failure;
use http_wire::{HttpReply, WireFault};
use keepers::Counts;
use page_worker::{PageVisit, Visited};
use permit_book::PermitNo;

/// What a request is told.
#[derive(Drop)]
pub enum Told {
    /// The site's response, which this permit fetched for this reason.
    Page(PageWish, PermitNo, Reason, HttpReply),
    /// How much the gate keeps.
    Metrics(Counts),
    /// The gate's own answer.
    Own(OwnAnswer),
}

impl Told {
    /// Whether the request was not begun, and may be answered better at once when its time has come.
    pub(crate) fn is_later(&self) -> bool
        ensures { result ≡ is_later self.now }
    {
        match self {
            Told::Own(OwnAnswer::Later(_)) => true,
            _ => false,
        }
    }
}

/// Why a request was not begun. It left nothing, and passes by itself.
#[derive(Clone, Copy, Debug, PartialEq, Eq)]
pub enum Later {
    /// Another desk is fetching the robots.txt of the page's authority.
    InFlight,
    /// The door lets no visit to the site in now.
    Door,
}

/// What the gate answers itself.
#[derive(Drop)]
pub enum OwnAnswer {
    /// The request asks for nothing.
    Misasked(Misasked),
    /// The page is longer than what is fetched of it.
    CutShort,
    /// The robots answer does not allow the page, or there is none.
    Denied(Denial),
    /// No permit, though no robots answer denied it.
    Refused(Refusal),
    /// The fetch failed.
    Failed(WireFault, Option<Failure>),
    /// The request was not begun.
    Later(Later),
    /// There was no fetch, and the gate does not say why: its keeper fetches nothing.
    Unfetched,
}

/// What is told of a visit, if the keeper makes any.
pub(crate) fn told_visit(asked: PageWish, visit: Option<Visited>) -> Told
    ensures { result ≡ told_visit asked visit }
{
    match visit {
        Some(Visited::Done(visit)) => {
            let PageVisit {
                hop,
                reply,
                failure,
            } = visit;
            told_hop(asked, hop, reply, failure)
        }
        Some(Visited::InFlight) => Told::Own(OwnAnswer::Later(Later::InFlight)),
        None => Told::Own(OwnAnswer::Unfetched),
    }
}

/// The response of a visit, if it gave one.
pub(crate) fn reply_in(visit: &Option<Visited>) -> Option<&HttpReply>
    ensures { option_copied result ≡ reply_in visit.now }
{
    match visit {
        Some(Visited::Done(visit)) => visit.reply.as_ref(),
        Some(Visited::InFlight) | None => None,
    }
}

fn told_hop(asked: PageWish, hop: Hop, reply: Option<HttpReply>, failure: Option<Failure>) -> Told
    ensures { result ≡ told_hop asked hop reply failure }
{
    match hop {
        Hop::Page { number, reason, .. } => match reply {
            Some(reply) => told_page(asked, number, reason, reply),
            None => Told::Own(OwnAnswer::Unfetched),
        },
        Hop::No(denial) => Told::Own(OwnAnswer::Denied(denial)),
        Hop::Fault { fault, .. } => Told::Own(OwnAnswer::Failed(fault, failure)),
        Hop::Err(refusal) => Told::Own(OwnAnswer::Refused(refusal)),
        Hop::Stop(_) => Told::Own(OwnAnswer::Unfetched),
    }
}

fn told_page(asked: PageWish, number: PermitNo, reason: Reason, reply: HttpReply) -> Told
    ensures { result ≡ told_page asked number reason reply }
{
    if !reply.cut || is_pass(asked.cut) {
        Told::Page(asked, number, reason, reply)
    } else {
        Told::Own(OwnAnswer::CutShort)
    }
}

fn is_pass(rule: CutRule) -> bool
    ensures { result ≡ is_pass rule }
{
    match rule {
        CutRule::Pass => true,
        CutRule::Refuse => false,
    }
}
