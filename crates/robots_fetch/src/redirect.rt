//! Where a redirect leads.
//! RFC 9309, section 2.3.1.2; RFC 9110, section 15.4.
ghost use Rattle.std.specs.Prelude.{string_bytes};
ghost use Rattle.std.specs.Option.{option_map};
ghost use Rattle.robots_fetch.specs.Redirects.{IsTarget, redirect_target};

use path_normal::{PageUrl, Schemes, Unread, UrlFault};

/// The most redirects in a row: RFC 9309 asks for at least five.
pub const MAX_REDIRECTS: u64 = 5;

/// Why a redirect is not followed.
#[derive(Clone, Copy, Debug, PartialEq, Eq)]
pub enum Stop {
    /// The most redirects were followed before it.
    TooManyRedirects,
    /// Its Location is missing or no page URL.
    BadRedirect,
    /// Its Location has a scheme that is not read: other than http, if only that is.
    Scheme,
}

/// Why a redirect has no target URL.
#[derive(Clone, Copy, Debug, PartialEq, Eq)]
pub enum Nowhere {
    /// The redirect is not followed.
    Stop(Stop),
    /// No memory for the URL, or the crate `url` overflowed.
    NoMemory,
}

/// Where a redirect from this URL leads, after so many redirects, among pages of these schemes: it may lead
/// from each to each (RFC 9309, 2.3.1.2 has no rule on schemes). `TooManyRedirects` comes first, whatever
/// the Location, which may be relative (RFC 9110, 10.2.2). Of several faults the one that
/// `Schemes::read_page_on` reports decides.
pub fn redirect_target(
    schemes: Schemes,
    followed: u64,
    url: &PageUrl,
    location: &Option<String>,
) -> Result<PageUrl, Nowhere>
    ensures { IsTarget result
        (redirect_target schemes followed url.now (option_map string_bytes location.now)) }
{
    if followed >= MAX_REDIRECTS {
        return Err(Nowhere::Stop(Stop::TooManyRedirects));
    }
    let Some(location) = location else {
        return Err(Nowhere::Stop(Stop::BadRedirect));
    };
    match schemes.read_page_on(url, location.as_str()) {
        Ok(page) => Ok(page),
        Err(Unread::Fault(UrlFault::NotHttp)) => Err(Nowhere::Stop(Stop::Scheme)),
        Err(Unread::Fault(_)) => Err(Nowhere::Stop(Stop::BadRedirect)),
        // An overflow is no fault of the Location, so it must not close a site.
        Err(Unread::Overflow | Unread::NoMemory) => Err(Nowhere::NoMemory),
    }
}
