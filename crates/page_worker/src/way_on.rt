//! Where a job continues after the fetch of a page.
//! RFC 9110, section 15.4.
ghost use Rattle.std.specs.Prelude.{string_bytes};
ghost use Rattle.std.specs.Option.{option_map};
ghost use Rattle.robots_fetch.specs.Redirects.{redirect_target};
ghost use Rattle.page_worker.specs.WaysOn.{GoesOn, LeadsOn};

use crawl_job::{Hop, Refusal};
use gate_history::Reason;
use http_wire::{HttpReply, WireFault};
use path_normal::{PageUrl, Schemes};
use permit_book::PermitNo;
use robots_fetch::{MAX_REDIRECTS, Nowhere, StatusClass, Stop, class_of, redirect_target};
use std::alloc::Global;

/// Where a job continues after a hop.
#[derive(Drop)]
pub(crate) enum WayOn {
    /// Nowhere; this is its page's body.
    Ends(Hop, Vec<u8>),
    /// To the page that its redirect leads to.
    Leads(Hop, PageUrl),
    /// Nowhere: its redirect is not followed, for the second hop's reason.
    Stops(Hop, Hop),
}

/// Where a job continues after fetching a page by this permit number, after this many followed redirects,
/// if pages of these schemes are fetched.
pub(crate) fn way_on(
    alloc: Global,
    schemes: Schemes,
    number: PermitNo,
    reason: Reason,
    followed: u64,
    url: &PageUrl,
    given: Result<HttpReply, WireFault>,
) -> WayOn
    ensures { GoesOn schemes number reason followed url.now given result }
{
    let reply = match given {
        Ok(reply) => reply,
        Err(fault) => return WayOn::Ends(Hop::Fault { number, fault }, Vec::new(alloc)),
    };
    let page = Hop::Page {
        number,
        reason,
        status: reply.status,
        length: reply.body.len() as u64,
        cut: reply.cut,
    };
    match class_of(reply.status) {
        StatusClass::Redirect => follow(page, schemes, followed, url, &reply.location),
        _ => WayOn::Ends(page, reply.body),
    }
}

fn follow(
    page: Hop,
    schemes: Schemes,
    followed: u64,
    url: &PageUrl,
    location: &Option<String>,
) -> WayOn
    ensures { LeadsOn followed
        (redirect_target schemes followed url.now (option_map string_bytes location.now)) page result }
{
    if followed >= MAX_REDIRECTS {
        return WayOn::Stops(page, Hop::Stop(Stop::TooManyRedirects));
    }
    match redirect_target(schemes, followed, url, location) {
        Ok(next) => WayOn::Leads(page, next),
        Err(Nowhere::Stop(stop)) => WayOn::Stops(page, Hop::Stop(stop)),
        Err(Nowhere::NoMemory) => WayOn::Stops(page, Hop::Err(Refusal::NoMemory)),
    }
}
