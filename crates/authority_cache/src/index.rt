//! The index of an authority's rules, made if they are asked often; verdicts don't depend on it.
//! RFC 9309, section 2.2.2.
ghost use Rattle.std.specs.Prelude.{◌≡◌};

use crate::cache::{Cache, Sites};
use crate::site::Site;
use robots_verdict::Policy;
use std::alloc::Global;
use std::sync::Arc;

impl Cache {
    /// Makes an index of the authority's rules, if it pays and memory suffices. What is known of the
    /// authority stays.
    pub fn make_index(&mut self, authority: &str)
        ensures { self.new ≡ self.old }
    {
        if let Some(index) = self.find(authority).index {
            make_at(&mut self.sites, index);
        }
    }

    /// Gives the authority's rules the index of a policy that was made outside the lock, if the text is the
    /// same and they have none. What is known of the authority stays. Takes no memory.
    pub fn take_index(&mut self, authority: &str, policy: Arc<Policy>)
        ensures { self.new ≡ self.old }
    {
        if let Some(index) = self.find(authority).index {
            take_at(&mut self.sites, index, policy);
        }
    }
}

fn make_at(sites: &mut Sites, index: usize)
    ensures { sites.new.entries ≡ sites.old.entries }
{
    let alloc: Global = *sites.allocator();
    if let Some(site) = sites.get_index_mut(index) {
        site.make_index(alloc);
    }
}

fn take_at(sites: &mut Sites, index: usize, policy: Arc<Policy>)
    ensures { sites.new.entries ≡ sites.old.entries }
{
    if let Some(site) = sites.get_index_mut(index) {
        site.take_index(policy);
    }
}

impl Site {
    fn make_index(&mut self, alloc: Global)
        ensures { self.new ≡ self.old }
    {
        if let Some(standing) = &mut self.standing {
            standing.answer.make_index(alloc);
        }
    }

    fn take_index(&mut self, policy: Arc<Policy>)
        ensures { self.new ≡ self.old }
    {
        if let Some(standing) = &mut self.standing {
            standing.answer.take_index(policy);
        }
    }
}
