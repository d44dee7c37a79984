//! Sites in memory with written responses, as a network for tests.
ghost use Rattle.std.specs.Prelude.{◌≡◌};
ghost use Rattle.std.specs.Option.{option_map};
ghost use Rattle.scripted_sites.specs.Scripted.{IsScripted, scripted_response};

use counted_io::Counted;
use fetchers::{FULL_CLOSURE, Fetcher, PAGE_LIMIT, PageLeave, RobotsLeave};
use http_client::Failure;
use http_wire::{ForwardedFields, HttpReply, WireFault, read_response};
use path_normal::{PageUrl, Schemes};
use robots_text::MAX_TEXT;
use std::alloc::Global;
use stream_waits::Deadline;

// The octets read of a robots.txt: those that are kept, and one that shows that there are more.
const ROBOTS_LIMIT: usize = MAX_TEXT + 1;

/// A page in memory: its URL as by `PageUrl::text`, and its whole response, with head.
#[derive(Clone, Copy)]
pub struct ScriptedPage<'a> {
    pub url: &'a str,
    pub response: &'a [u8],
}

/// Fetches pages in memory. Unknown URLs give `Device`, like an unknown host.
#[derive(Drop)]
pub struct ScriptedSites<'a> {
    pub alloc: Global,
    /// The first page with a URL counts.
    pub pages: &'a [ScriptedPage<'a>],
}

impl<'a> ScriptedSites<'a> {
    // The response for a URL.
    fn response(&self, url: &PageUrl) -> Option<&'a [u8]>
        ensures { option_map (λ response. response.now) result
            ≡ scripted_response self.now.pages.now url.now }
    {
        for page in self.pages {
            if page.url == url.text() {
                return Some(page.response);
            }
        }
        None
    }

    fn answer(&self, url: &PageUrl, limit: usize) -> Result<HttpReply, WireFault>
        ensures { IsScripted self.now.pages.now url.now limit result }
    {
        match self.response(url) {
            Some(response) => read_response(self.alloc, &mut Counted::new(response), limit),
            None => Err(WireFault::Device),
        }
    }
}

impl<'a> Fetcher for ScriptedSites<'a> {
    ghost use Rattle.scripted_sites.specs.Scripted.{GivesScripted};
    ghost use Rattle.fetchers.specs.Limits.{full_closure, page_limit};
    ghost use Rattle.path_normal.specs.declared.schemes.Schemes.TheVariants.{Http};

    ghost gives = { λ sites. record {
      page_limit = page_limit;
      closed_for = full_closure;
      holds = GivesScripted sites.pages.now;
    } };

    ghost follows = { λ _. Http };

    /// Sites in memory are of `http` only.
    fn schemes(&self) -> Schemes {
        Schemes::Http
    }

    fn page_limit(&self) -> usize {
        PAGE_LIMIT
    }

    fn closed_for(&self) -> u64 {
        FULL_CLOSURE
    }

    fn load_page(
        &self,
        leave: PageLeave<'_>,
        _fields: &ForwardedFields<'_>,
        limit: usize,
        _failure: &mut Option<Failure>,
    ) -> Result<HttpReply, WireFault> {
        let given = self.answer(leave.url(), limit);
        leave.spend();
        given
    }

    fn load_robots(
        &self,
        leave: RobotsLeave<'_>,
        _time: Option<Deadline>,
        _failure: &mut Option<Failure>,
    ) -> Result<HttpReply, WireFault> {
        let given = self.answer(leave.url(), ROBOTS_LIMIT);
        leave.spend();
        given
    }
}
