//! Finds an authority in the cache once for all of a call.
//! RFC 9309, sections 2.3.1 and 2.4.
ghost use Rattle.std.specs.Prelude.{◌≡◌, IfSome};
ghost use Rattle.authority_cache.specs.Calls.{IsFound};

use crate::cache::Cache;

/// The place of an authority, valid until the cache changes, and whether a turn is in flight.
#[derive(Clone, Copy, Debug, PartialEq, Eq)]
pub struct FoundSite {
    pub(crate) index: Option<usize>,
    pub(crate) is_fetching: bool,
}

impl FoundSite {
    /// Whether a turn of the authority is in flight.
    pub fn is_fetching(&self) -> bool
        ensures { result ≡ self.now.is_fetching }
    {
        self.is_fetching
    }
}

impl Cache {
    /// Finds an authority. Takes no memory.
    pub fn find(&self, authority: &str) -> FoundSite
        ensures { IsFound self.now authority.now result }
    {
        match self.find_again(authority) {
            Some(found) => found,
            None => self.search(authority),
        }
    }

    // The authority, if it is the one that was found last: no hash is needed.
    fn find_again(&self, authority: &str) -> Option<FoundSite>
        ensures { IfSome result (IsFound self.now authority.now) }
    {
        let index = self.last.get();
        match self.sites.get_index(index) {
            Some((name, site)) if name.as_str() == authority => Some(FoundSite {
                index: Some(index),
                is_fetching: site.in_flight.is_some(),
            }),
            _ => None,
        }
    }

    // The authority among all.
    fn search(&self, authority: &str) -> FoundSite
        ensures { IsFound self.now authority.now result }
    {
        match self.sites.get_full(authority) {
            Some((index, _authority, site)) => {
                self.last.set(index);
                FoundSite {
                    index: Some(index),
                    is_fetching: site.in_flight.is_some(),
                }
            }
            None => FoundSite {
                index: None,
                is_fetching: false,
            },
        }
    }
}
