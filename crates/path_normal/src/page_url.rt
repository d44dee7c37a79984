//! The URL of a page: `http` or `https`, without user and fragment.
//! URL Standard, sections 4.4 and 4.5.
ghost use Rattle.std.specs.Prelude.{◌≡◌, ◌<◌, ◌≤◌, None, Some, Ok, Err, IfOk, bytes_eq, length, nat_lt};
ghost use Rattle.std.specs.Arc.{arc_value};
ghost use Rattle.std.specs.Cmp.{partial_equiv_from_equiv};
ghost use Rattle.std.specs.Cmp.Lexicographic.{nat_list_eq_equiv};
ghost use Rattle.url.specs.Parser.{parse_url};
ghost use Rattle.url.specs.Parts.{Parts};
ghost use Rattle.path_normal.specs.Limits.{max_url};
ghost use Rattle.path_normal.specs.Normal.{normal_path};
ghost use Rattle.path_normal.specs.PageText.{authority_of, host_of, is_https, robots_url_of, target_of};
ghost use Rattle.path_normal.specs.PageUrl.{HasPartsOf, IsAnswer, IsNamedOn, IsPage, page_url_among, page_url_from, page_url_of_parts, page_url_on, page_url_on_among};
ghost use Rattle.path_normal.specs.Capacity.{IsRead, IsReadWith};

use crate::authority::Authority;
use crate::fault::{Unread, UrlFault};
use crate::page::Page;
use crate::plain_url::plain_host_end;
use crate::schemes::Schemes;
use std::alloc::{AllocError, Global};
use std::fmt;
use std::marker::Model;
use std::sync::Arc;
use url::Url;

/// The most bytes of a page URL, as given and as written back.
pub const MAX_URL: usize = 4_096;

/// The most bytes of its authority, with any port.
pub const MAX_AUTHORITY: usize = 4_000;

/// The URL of a page as the URL Standard writes it: `http` or `https`, no user, no fragment.
/// A clause sees it as its text, which `authority_of` and `target_of` split. Its copies share the text.
#[derive(Drop)]
pub struct PageUrl {
    page: Arc<Page>,
}

impl Model for PageUrl {
    ghost use Rattle.std.specs.Prelude.{List, ℕ};
    ghost use Rattle.std.specs.Coded.{coded_list, coded_ℕ};

    ghost Value = { List ℕ };

    ghost coded = { coded_list coded_ℕ };

    ghost use Rattle.std.specs.Arc.{arc_value};

    ghost view = { λ url. arc_value url.page };
}

impl PageUrl {
    /// Reads the URL of an `http` page, and drops its fragment.
    pub fn parse(alloc: Global, text: &str) -> Result<PageUrl, UrlFault>
        ensures answer { IsRead result (page_url_from None text.now) }
        ensures parts { IfOk result (λ page. (url : Parts) × (parse_url None text.now ≡ Ok url)
            × HasPartsOf page url) }
    {
        Schemes::Http.parse_page(alloc, text)
    }

    /// Like `parse`, but distinguishes an overflow of the crate `url`, which is no fault of the text, from
    /// a text that is too long.
    pub fn read(alloc: Global, text: &str) -> Result<PageUrl, Unread>
        ensures answer { IsReadWith result (page_url_from None text.now) }
        ensures parts { IfOk result (λ page. (url : Parts) × (parse_url None text.now ≡ Ok url)
            × HasPartsOf page url) }
    {
        Schemes::Http.read_page(alloc, text)
    }

    /// Resolves a reference to an `http` page against this URL, as for a link or a redirect (RFC 3986,
    /// 5.2).
    pub fn join(&self, text: &str) -> Result<PageUrl, UrlFault>
        ensures answer { IsRead result (page_url_on self.now text.now) }
        ensures parts { IfOk result (IsNamedOn self.now text.now) }
    {
        Ok(self.read_on(text)?)
    }

    /// Like `join`, but distinguishes an overflow of the crate `url`, which is no fault of the text, from a
    /// text that is too long.
    pub fn read_on(&self, text: &str) -> Result<PageUrl, Unread>
        ensures answer { IsReadWith result (page_url_on self.now text.now) }
        ensures parts { IfOk result (IsNamedOn self.now text.now) }
    {
        Schemes::Http.read_page_on(self, text)
    }

    /// The URL of an authority's robots.txt (RFC 9309, 2.3). Fails only if memory runs out.
    pub fn of_robots(authority: &Authority) -> Result<PageUrl, AllocError>
        ensures url { IfOk result (λ url. url ≡ robots_url_of authority.now) }
        ensures authority { IfOk result (λ url. authority_of url ≡ authority.now) }
    {
        PageUrl::shared(authority.allocator(), Page::of_robots(authority)?)
    }

    pub(crate) fn of_parsed(alloc: Global, schemes: Schemes, url: &Url) -> Result<PageUrl, Unread>
        ensures answer { IsAnswer result (page_url_of_parts schemes url.now) }
        ensures parts { IfOk result (λ page. HasPartsOf page url.now) }
    {
        let page = Page::of_parsed(alloc, schemes, url)?;
        Ok(PageUrl::shared(alloc, page)?)
    }

    pub(crate) fn shared(alloc: Global, page: Page) -> Result<PageUrl, AllocError>
        ensures { IfOk result (λ url. url ≡ page) }
    {
        Ok(PageUrl {
            page: Arc::new(alloc, page)?,
        })
    }

    /// A copy of the URL. Takes no memory: the text is shared.
    pub fn copy(&self) -> Result<PageUrl, AllocError>
        ensures { IfOk result (λ copy. copy ≡ self.now) }
    {
        Ok(PageUrl {
            page: Arc::try_clone(&self.page)?,
        })
    }

    /// The URL as the URL Standard writes it, without a fragment.
    pub fn text(&self) -> &str
        ensures value { result.now ≡ self.now }
        ensures page { IsPage self.now }
    {
        self.page.text()
    }

    /// Whether the scheme is `https` (RFC 9110, 4.2.2).
    pub fn is_https(&self) -> bool
        ensures value { result ≡ is_https self.now }
        ensures page { IsPage self.now }
    {
        self.page.is_https()
    }

    /// The host, with `:` and the port unless it is the scheme's default, 80 or 443 (RFC 3986, 3.2).
    pub fn host(&self) -> &str
        ensures value { result.now ≡ host_of self.now }
        ensures page { IsPage self.now }
    {
        self.page.host()
    }

    /// The `host`, after `https://` if that is the scheme: a robots.txt applies to it (RFC 9309, 2.3).
    pub fn authority(&self) -> &str
        ensures value { result.now ≡ authority_of self.now }
        ensures page { IsPage self.now }
    {
        self.page.authority()
    }

    /// The path, with `?` and the query if any (RFC 3986, 3.3 and 3.4).
    pub fn target(&self) -> &str
        ensures value { result.now ≡ target_of self.now }
        ensures page { IsPage self.now }
    {
        self.page.target()
    }

    /// The path for patterns: the target in normal form (RFC 9309, 2.2.2).
    pub fn path_to_match(&self) -> &[u8]
        ensures value { result.now ≡ normal_path (target_of self.now) }
        ensures page { IsPage self.now }
    {
        self.page.path_to_match()
    }

    /// The allocator of the text.
    pub(crate) fn allocator(&self) -> Global {
        self.page.allocator()
    }
}

impl PartialEq for PageUrl {
    ghost eq = { λ a b. bytes_eq a b };

    ghost laws = { partial_equiv_from_equiv nat_list_eq_equiv };

    fn eq(&self, other: &PageUrl) -> bool {
        self.text() == other.text()
    }
}

impl Eq for PageUrl {
    ghost laws = { nat_list_eq_equiv };
}

impl fmt::Display for PageUrl {
    ghost output = { λ url. Some url };

    fn fmt<W: fmt::Write>(&self, f: &mut fmt::Formatter<W>) -> fmt::Result {
        fmt::Display::fmt(&self.text(), f)
    }
}
