//! Visits that were let in, as values that must be handed back.
//! Made by `Doors::admit` alone, so nobody else lets a visit in.
ghost use Rattle.std.specs.Prelude.{◌≡◌, IfNone, IfSome};
ghost use Rattle.site_door.specs.Doors.{IsLetIn, IsNotLetIn, Leaves};

use crate::admission::Admission;
use crate::doors::Doors;
use path_normal::Authority;

/// A visit that was let in. It has no `Drop`, so it has to be handed back.
#[must_use]
pub struct SiteVisit {
    site: Authority,
}

impl SiteVisit {
    /// The site that is visited.
    pub fn site(&self) -> &Authority
        ensures { result.now ≡ self.now.site }
    {
        &self.site
    }
}

impl Doors {
    /// Lets a visit in as `enter` does, or not now.
    pub fn admit(&mut self, site: &Authority, now: u64) -> Option<SiteVisit>
        ensures some { IfSome result (λ visit. IsLetIn self.old site.now now visit.site self.new) }
        ensures none { IfNone result (IsNotLetIn self.old site.now now self.new) }
    {
        let copy = site.copy().ok()?;
        match self.enter(site, now) {
            Ok(Admission::Admitted) => Some(SiteVisit { site: copy }),
            _ => None,
        }
    }

    /// Ends a visit as `leave` does.
    pub fn end(&mut self, visit: SiteVisit, now: u64, pause: Option<u64>)
        ensures { Leaves self.old visit.site now pause self.new }
    {
        let SiteVisit { site } = visit;
        self.leave(&site, now, pause);
    }
}
