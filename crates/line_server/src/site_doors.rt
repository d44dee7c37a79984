//! The doors to sites, as the front of HTTP sees them.
//! RFC 9110, section 10.2.3: a response may say when to come again.

use http_front::SiteDoor;
use http_turns::{AnswerBudget, Asker};
use http_wire::HttpReply;
use path_normal::Authority;
use robots_text::is_same_word;
use site_door::{SiteDoors, SiteVisit, Visitor, retry_after};
use std::alloc::Global;
use std::sync::Wait;
use std::time;
use turns::Dispatcher;

// The milliseconds of a second.
const MILLISECONDS: u64 = 1_000;

/// The doors to the sites that clients of HTTP visit: shut while too many octets wait for these clients.
#[derive(Drop)]
pub(crate) struct FrontDoors<'a, R: Wait + time::Clock> {
    pub(crate) alloc: Global,
    pub(crate) rt: &'a R,
    pub(crate) doors: &'a SiteDoors<'a, R>,
    /// What calls those who wait.
    pub(crate) dispatcher: &'a Dispatcher,
    pub(crate) budget: &'a AnswerBudget,
}

impl<R: Wait + time::Clock> SiteDoor for FrontDoors<'_, R> {
    ghost use Rattle.std.specs.Prelude.{◌≡◌, IfSome};

    type Pass = SiteVisit;

    ghost answers = { λ _ site answer. IfSome answer (λ visit. visit.site ≡ site) };

    ghost leaves = { λ _ _ _. Unit {0} };

    fn enter(&self, site: &Authority, asker: Asker) -> Option<SiteVisit> {
        let visitor = Visitor {
            place: asker.place,
            until: asker.until.milliseconds,
        };
        if self.budget.has_room() {
            self.doors.enter(site, visitor)
        } else {
            None
        }
    }

    fn leave(&self, visit: SiteVisit, reply: Option<&HttpReply>) {
        let pause = match reply {
            Some(reply) => pause_of(self.alloc, reply),
            None => None,
        };
        if let Some(place) = self.doors.leave(visit, pause) {
            self.dispatcher.wake(self.rt, place);
        }
    }
}

// The milliseconds for which a response says that its site is to be left alone, if it does. Without memory to
// look for the field it is as if there were none.
fn pause_of(alloc: Global, reply: &HttpReply) -> Option<u64> {
    let fields = reply.kept_fields(alloc).ok()?;
    let field = fields.iter().find(|field| is_same_word(field.name.as_slice(), b"retry-after"))?;
    let seconds = retry_after(reply.status, field.value.as_slice())?;
    Some(seconds.saturating_mul(MILLISECONDS))
}
