//! Requests that are framed otherwise than they should be, and several on one connection.

use super::dialogue::{Row, check_rows};
use super::script::Scene;
use std::test::Fail;

const PAGE: Scene = Scene::Page(200, "", "page", false);

const REFUSED: &str = "HTTP/1.1 400 Bad Request|connection: close|content-length: 0||";

const FRAMING: &[Row] = &[
    (
        "a host that lies",
        PAGE,
        "GET http://a.example/ HTTP/1.1|Host: b.example|Proxy-Authorization: Basic Zm9vYm90Ong=||",
        "foobot http://a.example/\n",
        "HTTP/1.1 200 OK|proxy-status: crawlgate; received-status=200; \
         details=\"65536 line 3\"|content-length: 4||page",
    ),
    (
        "two hosts",
        PAGE,
        "GET /http://a.example/ HTTP/1.1|Host: localhost|Host: localhost|Crawlgate-Token: foobot||",
        "",
        REFUSED,
    ),
    (
        "no host",
        PAGE,
        "GET /http://a.example/ HTTP/1.1|Crawlgate-Token: foobot||",
        "",
        REFUSED,
    ),
    (
        "a folded field",
        PAGE,
        "GET /http://a.example/ HTTP/1.1|Host: localhost|Crawlgate-Token: foo| bot||",
        "",
        REFUSED,
    ),
    (
        "lines that end in LF alone",
        PAGE,
        "GET /http://a.example/ HTTP/1.1\nHost: localhost\nCrawlgate-Token: foobot\n\n",
        "",
        REFUSED,
    ),
    (
        "a space before the colon",
        PAGE,
        "GET /http://a.example/ HTTP/1.1|Host: localhost|Crawlgate-Token : foobot||",
        "",
        REFUSED,
    ),
    (
        "a body",
        PAGE,
        "GET /http://a.example/ HTTP/1.1|Host: localhost|Crawlgate-Token: foobot|Content-Length: 1||x",
        "",
        "HTTP/1.1 413 Payload Too Large|connection: close|content-length: 0||",
    ),
    (
        "a body in chunks",
        PAGE,
        "GET /http://a.example/ HTTP/1.1|Host: localhost|Crawlgate-Token: foobot|\
         Transfer-Encoding: chunked||1|x|0||",
        "",
        "HTTP/1.1 413 Payload Too Large|connection: close|content-length: 0||",
    ),
    (
        "a length and chunks",
        PAGE,
        "GET /http://a.example/ HTTP/1.1|Host: localhost|Crawlgate-Token: foobot|Content-Length: 5|\
         Transfer-Encoding: chunked||0||",
        "",
        REFUSED,
    ),
    (
        "a body that waits",
        PAGE,
        "POST /http://a.example/ HTTP/1.1|Host: localhost|Content-Length: 9|Expect: 100-continue||",
        "",
        "HTTP/1.1 413 Payload Too Large|connection: close|content-length: 0||",
    ),
    (
        "half a request",
        PAGE,
        "GET /http://a.example/ HTTP/1.1|Host: local",
        "",
        REFUSED,
    ),
];

const PIPELINED: &[Row] = &[
    (
        "one after the other",
        PAGE,
        "GET /http://a.example/1 HTTP/1.1|Host: localhost|Crawlgate-Token: foobot||\
         GET /http://a.example/2 HTTP/1.1|Host: localhost|Crawlgate-Token: foo2||\
         GET /http://a.example/3 HTTP/1.1|Host: localhost|Crawlgate-Token: barbot||",
        "foobot http://a.example/1\nbarbot http://a.example/3\n",
        "HTTP/1.1 200 OK|proxy-status: crawlgate; received-status=200; details=\"65536 line 3\"|\
         content-length: 4||page\
         HTTP/1.1 400 Bad Request|proxy-status: crawlgate; error=http_request_error; \
         details=\"token\"|content-length: 0||\
         HTTP/1.1 200 OK|proxy-status: crawlgate; received-status=200; details=\"65536 line 3\"|\
         content-length: 4||page",
    ),
    (
        "none behind the last",
        PAGE,
        "GET /http://a.example/1 HTTP/1.1|Host: localhost|Crawlgate-Token: foobot|Connection: close||\
         GET /http://a.example/2 HTTP/1.1|Host: localhost|Crawlgate-Token: foobot||",
        "foobot http://a.example/1\n",
        "HTTP/1.1 200 OK|proxy-status: crawlgate; received-status=200; details=\"65536 line 3\"|\
         content-length: 4|connection: close||page",
    ),
    (
        "none behind a fault of framing",
        PAGE,
        "GET /http://a.example/1 HTTP/1.1|Host: localhost|Host: localhost|Crawlgate-Token: foobot||\
         GET /http://a.example/2 HTTP/1.1|Host: localhost|Crawlgate-Token: foobot||",
        "",
        REFUSED,
    ),
];

#[test]
fn framing(rt: HostRuntime) -> Result<(), Fail> {
    check_rows(&rt, rt.alloc(), FRAMING)
}

#[test]
fn several_requests(rt: HostRuntime) -> Result<(), Fail> {
    check_rows(&rt, rt.alloc(), PIPELINED)
}
