//! The octets before an https page's request, written by hand from the PROXY protocol's text.
//! The PROXY protocol, version 2, sections 2.2 and 2.2.2.

use super::demand;
use http_client::{TlsHeaderFault, tls_header_of};
use path_normal::{PageUrl, Schemes};
use std::alloc::Global;
use std::net::IpAddr;
use std::test::Fail;

const V4: &str = "192.0.2.1";

const V6: &str = "2001:db8::abcd:1";

// The start of each header.
const SIGNATURE: &[u8] = b"\x0d\x0a\x0d\x0a\x00\x0d\x0a\x51\x55\x49\x54\x0a";

// A name, a URL, the address to connect to, and what follows the signature: kind and length, addresses,
// ports, and name.
const HEADERS: &[(&str, &str, &str, [&[u8]; 4])] = &[
    (
        "IPv4",
        "https://a.example/x",
        V4,
        [
            b"\x21\x11\x00\x18",
            b"\xc0\x00\x02\x01\xc0\x00\x02\x01",
            b"\x01\xbb\x01\xbb",
            b"\x02\x00\x09a.example",
        ],
    ),
    (
        "IPv6, and a port",
        "https://a.example:8443/",
        V6,
        [
            b"\x21\x21\x00\x30",
            b"\x20\x01\x0d\xb8\0\0\0\0\0\0\0\0\xab\xcd\x00\x01\x20\x01\x0d\xb8\0\0\0\0\0\0\0\0\xab\xcd\x00\x01",
            b"\x20\xfb\x20\xfb",
            b"\x02\x00\x09a.example",
        ],
    ),
    (
        "the port of http, written",
        "https://b.example:80/",
        V4,
        [
            b"\x21\x11\x00\x18",
            b"\xc0\x00\x02\x01\xc0\x00\x02\x01",
            b"\x00\x50\x00\x50",
            b"\x02\x00\x09b.example",
        ],
    ),
    (
        "an address for a host",
        "https://192.0.2.1/",
        V4,
        [
            b"\x21\x11\x00\x18",
            b"\xc0\x00\x02\x01\xc0\x00\x02\x01",
            b"\x01\xbb\x01\xbb",
            b"\x02\x00\x09192.0.2.1",
        ],
    ),
    (
        "an address of IPv6 for a host, without its brackets",
        "https://[2001:db8::abcd:1]/",
        V6,
        [
            b"\x21\x21\x00\x37",
            b"\x20\x01\x0d\xb8\0\0\0\0\0\0\0\0\xab\xcd\x00\x01\x20\x01\x0d\xb8\0\0\0\0\0\0\0\0\xab\xcd\x00\x01",
            b"\x01\xbb\x01\xbb",
            b"\x02\x00\x102001:db8::abcd:1",
        ],
    ),
    (
        "a name of one octet",
        "https://A:65535/",
        V4,
        [
            b"\x21\x11\x00\x10",
            b"\xc0\x00\x02\x01\xc0\x00\x02\x01",
            b"\xff\xff\xff\xff",
            b"\x02\x00\x01a",
        ],
    ),
];

#[test]
fn headers(rt: HostRuntime) -> Result<(), Fail> {
    check_headers(rt.alloc(), HEADERS)
}

fn check_headers(alloc: Global, rows: &[(&str, &str, &str, [&[u8]; 4])]) -> Result<(), Fail> {
    for (name, text, address, parts) in rows {
        let url = Schemes::HttpAndHttps.parse_page(alloc, text)?;
        demand(has_parts(alloc, &url, address, parts)?, name)?;
    }
    Ok(())
}

fn has_parts(
    alloc: Global,
    url: &PageUrl,
    address: &str,
    parts: &[&[u8]; 4],
) -> Result<bool, Fail> {
    let header = tls_header_of(alloc, url, address.parse::<IpAddr>()?)?;
    Ok(is_in_parts(header.as_slice(), parts))
}

// Whether these are the signature and then the parts.
fn is_in_parts(header: &[u8], parts: &[&[u8]; 4]) -> bool {
    let Some(mut rest) = header.strip_prefix(SIGNATURE) else {
        return false;
    };
    for part in parts {
        match rest.strip_prefix(*part) {
            Some(left) => rest = left,
            None => return false,
        }
    }
    rest.is_empty()
}

// A name of 255 octets is sent, a longer one is not.
#[test]
fn long_names(rt: HostRuntime) -> Result<(), Fail> {
    let longest = header_length(rt.alloc(), 255)?;
    demand(longest == Ok(16 + 12 + 3 + 255), "a name of 255 octets")?;
    let longer = header_length(rt.alloc(), 256)?;
    demand(longer == Err(TlsHeaderFault::LongName), "a longer name")
}

// The octets of the header for a page of a host with a name of this length.
fn header_length(alloc: Global, octets: usize) -> Result<Result<usize, TlsHeaderFault>, Fail> {
    let url = https_page(alloc, octets)?;
    match tls_header_of(alloc, &url, V4.parse::<IpAddr>()?) {
        Ok(header) => Ok(Ok(header.len())),
        Err(fault) => Ok(Err(fault)),
    }
}

// A page of a host with a name of this length.
fn https_page(alloc: Global, octets: usize) -> Result<PageUrl, Fail> {
    let mut text = String::from_str(alloc, "https://")?;
    for _ in 0..octets {
        text.push('a')?;
    }
    Ok(Schemes::HttpAndHttps.parse_page(alloc, text.as_str())?)
}
