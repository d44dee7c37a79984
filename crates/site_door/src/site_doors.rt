//! The doors of all sites, shared by those who fetch.
//! The clock is read under the lock, so moments never go back.
ghost use Rattle.std.specs.Prelude.{◌≡◌, IfSome};

use crate::doors::Doors;
use crate::manners::Manners;
use crate::visit::SiteVisit;
use crate::waiting::{Visitor, WaitingLine};
use path_normal::Authority;
use std::alloc::Global;
use std::hash::RandomState;
use std::sync::{Mutex, Wait};
use std::time::Instant;
use std::{io, time};

/// The doors of all sites, shared by those who fetch.
#[derive(Drop)]
pub struct SiteDoors<'a, R: Wait + time::Clock> {
    rt: &'a R,
    begun: Instant,
    lobby: Mutex<Lobby>,
}

// The doors, and who waits at them.
#[derive(Drop)]
struct Lobby {
    doors: Doors,
    line: WaitingLine,
}

impl<'a, R: Wait + time::Clock> SiteDoors<'a, R> {
    /// No visit was let in yet. The keys are those of the hasher.
    pub fn new(
        rt: &'a R,
        alloc: Global,
        manners: Manners,
        keys: RandomState,
    ) -> io::Result<SiteDoors<'a, R>> {
        Ok(SiteDoors {
            rt,
            begun: Instant::now(rt)?,
            lobby: Mutex::new(Lobby {
                doors: Doors::new(alloc, manners, keys),
                line: WaitingLine::new(alloc, keys),
            }),
        })
    }

    /// Lets a visit in, or not now: it is too early, too many visits of the site are under way, or there is no
    /// room or no memory for its door. The last place of a site is kept for the visitor who has waited for it
    /// longest, as long as that one comes again within a fifth of a second.
    pub fn enter(&self, site: &Authority, visitor: Visitor) -> Option<SiteVisit>
        ensures { IfSome result (λ visit. visit.site ≡ site.now) }
    {
        let mut guard = self.lobby.lock(self.rt);
        let lobby = &mut *guard;
        let now = self.now();
        if lobby.line.is_behind(site.text(), visitor, now) && lobby.doors.has_last_place(site) {
            return None;
        }
        let visit = lobby.doors.admit(site, now);
        match &visit {
            Some(_) => lobby.line.let_in(site.text(), visitor),
            None => lobby.line.wait(site.text(), visitor, now),
        }
        visit
    }

    /// Ends a visit, with the milliseconds of the pause that the site asks for, if any. Returns the place of
    /// the visitor who has waited longest for this site, who is to be called.
    pub fn leave(&self, visit: SiteVisit, pause: Option<u64>) -> Option<usize> {
        let mut guard = self.lobby.lock(self.rt);
        let lobby = &mut *guard;
        let now = self.now();
        let next = lobby.line.next(visit.site().text());
        lobby.doors.end(visit, now, pause);
        next
    }

    // The milliseconds since the doors were made; 0 if the clock fails, at which nothing is let in again.
    fn now(&self) -> u64 {
        match self.begun.elapsed(self.rt) {
            Ok(time) => time.as_millis().min(u64::MAX as u128) as u64,
            Err(_) => 0,
        }
    }
}
