//! Looks up the answer in force for an authority.
//! RFC 9309, section 2.4.
ghost use Rattle.std.specs.Prelude.{◌≡◌};
ghost use Rattle.std.specs.Option.{option_copied, option_map};
ghost use Rattle.authority_cache.specs.Sites.{said_cached, said_site, site_of};
ghost use Rattle.authority_cache.specs.Calls.{Looks, LooksAt, state_at};

use crate::cache::Cache;
use crate::find::FoundSite;
use crate::site::{CachedAnswer, Site};
use robots_verdict::Answer;

/// The result of looking up an authority's answer.
#[derive(Clone, Copy)]
pub enum Look<'a> {
    /// There is no answer.
    Unknown,
    /// The answer is older than its lifetime.
    Expired,
    /// This answer is in force.
    InForce(&'a Answer),
}

impl Cache {
    /// The answer for an authority, in force or expired. Takes no memory.
    pub fn standing(&self, authority: &str) -> Option<&CachedAnswer>
        ensures { option_map said_cached (option_copied result)
            ≡ (site_of self.now authority.now).standing }
    {
        match self.sites.get(authority) {
            Some(site) => site.standing.as_ref(),
            None => None,
        }
    }

    /// Looks up an authority's answer at this moment, in seconds. Takes no memory.
    pub fn look(&self, authority: &str, moment: u64) -> Look<'_>
        ensures { Looks self.now authority.now moment result }
    {
        self.look_at(self.find(authority), moment)
    }

    /// Looks up the answer of an authority already found, without a second look-up.
    pub fn look_at(&self, found: FoundSite, moment: u64) -> Look<'_>
        ensures { LooksAt (state_at self.now found) moment result }
    {
        let Some(index) = found.index else {
            return Look::Unknown;
        };
        match self.sites.get_index(index) {
            Some((_authority, site)) => site.look(moment),
            None => Look::Unknown,
        }
    }
}

impl Site {
    fn look(&self, moment: u64) -> Look<'_>
        ensures { LooksAt (said_site self.now) moment result }
    {
        let Some(standing) = &self.standing else {
            return Look::Unknown;
        };
        if standing.is_past(moment) {
            return Look::Expired;
        }
        Look::InForce(&standing.answer)
    }
}
