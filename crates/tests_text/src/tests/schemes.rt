//! Pages and authorities of both schemes, with `https` read or not.
//! RFC 9110, sections 4.2.1 and 4.2.2; RFC 9309, section 2.3.

use super::demand;
use path_normal::{Authority, AuthorityFault, PageUrl, Schemes, UrlFault};
use std::alloc::Global;
use std::test::Fail;

// A text, and what it reads as: URL, authority, host, target, and robots.txt URL.
const PAGES: &[(&str, &str, &str, &str, &str, &str)] = &[
    (
        "http://a.example/x?q",
        "http://a.example/x?q",
        "a.example",
        "a.example",
        "/x?q",
        "http://a.example/robots.txt",
    ),
    (
        "http://a.example:443/",
        "http://a.example:443/",
        "a.example:443",
        "a.example:443",
        "/",
        "http://a.example:443/robots.txt",
    ),
    (
        "https://a.example/x",
        "https://a.example/x",
        "https://a.example",
        "a.example",
        "/x",
        "https://a.example/robots.txt",
    ),
    (
        "https://a.example:80/",
        "https://a.example:80/",
        "https://a.example:80",
        "a.example:80",
        "/",
        "https://a.example:80/robots.txt",
    ),
    (
        "https://a.example:443/#f",
        "https://a.example/",
        "https://a.example",
        "a.example",
        "/",
        "https://a.example/robots.txt",
    ),
    (
        "https:a.example",
        "https://a.example/",
        "https://a.example",
        "a.example",
        "/",
        "https://a.example/robots.txt",
    ),
    (
        "HTTPS://[::1]:8443/",
        "https://[::1]:8443/",
        "https://[::1]:8443",
        "[::1]:8443",
        "/",
        "https://[::1]:8443/robots.txt",
    ),
];

#[test]
fn both_schemes_are_read(rt: HostRuntime) -> Result<(), Fail> {
    for (text, url, authority, host, target, robots) in PAGES {
        let page = Schemes::HttpAndHttps.parse_page(rt.alloc(), text)?;
        let parts = [page.text(), page.authority(), page.host(), page.target()];
        let is_read = parts == [*url, *authority, *host, *target];
        demand(is_read && has_robots(&page, robots)?, text)?;
        let named = Schemes::HttpAndHttps.parse_authority(rt.alloc(), authority)?;
        demand(named.text() == *authority, text)?;
    }
    Ok(())
}

// Whether this is the URL of the robots.txt for a page.
fn has_robots(page: &PageUrl, url: &str) -> Result<bool, Fail> {
    let file = PageUrl::of_robots(&Authority::of(page)?)?;
    Ok(file.text() == url && file.authority() == page.authority())
}

#[test]
fn http_alone_is_read(rt: HostRuntime) -> Result<(), Fail> {
    for (text, url, authority, _host, _target, _robots) in PAGES {
        let as_wanted = if url.starts_with("https://") {
            are_refused(rt.alloc(), text, authority)
        } else {
            are_read(rt.alloc(), text, url, authority)?
        };
        demand(as_wanted, text)?;
    }
    Ok(())
}

fn are_refused(alloc: Global, text: &str, authority: &str) -> bool {
    is_fault(PageUrl::parse(alloc, text), UrlFault::NotHttp)
        && is_bad(Authority::new(alloc, authority))
}

fn are_read(alloc: Global, text: &str, url: &str, authority: &str) -> Result<bool, Fail> {
    let page = PageUrl::parse(alloc, text)?;
    let named = Authority::new(alloc, authority)?;
    Ok(page.text() == url && named.text() == authority)
}

fn is_fault(page: Result<PageUrl, UrlFault>, want: UrlFault) -> bool {
    match page {
        Ok(_) => false,
        Err(fault) => fault == want,
    }
}

fn is_bad(authority: Result<Authority, AuthorityFault>) -> bool {
    match authority {
        Ok(_) => false,
        Err(fault) => fault == AuthorityFault::BadAuthority,
    }
}

// No authorities, even if `https` is read.
const NO_AUTHORITIES: [&str; 5] = [
    "https://",
    "https://a.example/",
    "HTTPS://a.example",
    "https:a.example",
    "https://u@a.example",
];

#[test]
fn no_authorities(rt: HostRuntime) -> Result<(), Fail> {
    for text in NO_AUTHORITIES {
        let named = Schemes::HttpAndHttps.parse_authority(rt.alloc(), text);
        demand(is_bad(named), text)?;
    }
    Ok(())
}
