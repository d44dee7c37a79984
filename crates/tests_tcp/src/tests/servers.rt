//! The servers of pages.
//! RFC 3986, section 3.2; RFC 9110, section 4.2.1.

use super::demand;
use http_client::host_port_of;
use path_normal::PageUrl;
use std::test::Fail;

// A name, a URL, and its server's host and port.
const SERVERS: &[(&str, &str, &str, u16)] = &[
    ("a name", "http://a.example/x", "a.example", 80),
    ("a port", "http://a.example:8080/x:9", "a.example", 8_080),
    ("port 80, written", "http://a.example:80/", "a.example", 80),
    ("port 0", "http://a.example:0/", "a.example", 0),
    (
        "the greatest port",
        "http://a.example:065535/",
        "a.example",
        65_535,
    ),
    ("an escape", "http://%61.EXAMPLE/", "a.example", 80),
    ("IPv4", "http://127.1/", "127.0.0.1", 80),
    ("IPv6", "http://[::1]/", "::1", 80),
    (
        "IPv6 and a port",
        "http://[2001:DB8:0::1]:8080/",
        "2001:db8::1",
        8_080,
    ),
    (
        "IPv4 in IPv6",
        "http://[::ffff:127.0.0.1]/",
        "::ffff:7f00:1",
        80,
    ),
];

#[test]
fn servers_of_pages(rt: HostRuntime) -> Result<(), Fail> {
    for (name, text, host, port) in SERVERS {
        let url = PageUrl::parse(rt.alloc(), text)?;
        demand(is_server(&url, host, *port), name)?;
    }
    Ok(())
}

fn is_server(url: &PageUrl, host: &str, port: u16) -> bool {
    let server = host_port_of(url);
    server.host == host && server.port == port
}
