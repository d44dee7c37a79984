//! What a visit comes to, and how it is answered: a row for each outcome, in both forms where they differ.

use super::dialogue::{Row, check_rows};
use super::script::Scene;
use crawl_job::Refusal;
use gate_history::Cause;
use http_client::Failure;
use http_wire::WireFault;
use std::test::Fail;
use std::time::Duration;

const ASKED: &str = "GET /http://a.example/x HTTP/1.1|Host: localhost|Crawlgate-Token: foobot||";

const PROXIED: &str =
    "GET http://a.example/x HTTP/1.1|Host: a.example|Proxy-Authorization: Basic Zm9vYm90Ong=||";

const PASSING: &str =
    "GET /http://a.example/x HTTP/1.1|Host: localhost|Crawlgate-Token: foobot|Crawlgate-Cut: Pass||";

const VISITED: &str = "foobot http://a.example/x\n";

const LIMIT: Duration = Duration::ZERO;

const SITES: &[Row] = &[
    (
        "a page",
        Scene::Page(200, "Content-Type: text/html|", "hello", false),
        ASKED,
        VISITED,
        "HTTP/1.1 200 OK|content-type: text/html|\
         proxy-status: crawlgate; received-status=200; details=\"65536 line 3\"|content-length: 5||hello",
    ),
    (
        "a page in absolute form",
        Scene::Page(404, "ETag: \"1\"|", "no", false),
        PROXIED,
        VISITED,
        "HTTP/1.1 404 Not Found|etag: \"1\"|\
         proxy-status: crawlgate; received-status=404; details=\"65536 line 3\"|content-length: 2||no",
    ),
    (
        "a site's own error",
        Scene::Page(503, "Retry-After: 9|", "", false),
        ASKED,
        VISITED,
        "HTTP/1.1 503 Service Unavailable|retry-after: 9|\
         proxy-status: crawlgate; received-status=503; details=\"65536 line 3\"|content-length: 0||",
    ),
    (
        "fields that are not kept",
        Scene::Page(
            200,
            "Set-Cookie: a=1|Connection: close|Proxy-Status: x|Server: y|Alt-Svc: h3|\
             Strict-Transport-Security: max-age=1|Access-Control-Allow-Origin: *|Date: today|",
            "",
            false,
        ),
        ASKED,
        VISITED,
        "HTTP/1.1 200 OK|date: today|\
         proxy-status: crawlgate; received-status=200; details=\"65536 line 3\"|content-length: 0||",
    ),
    (
        "a field beyond ASCII",
        Scene::Page(200, "Link: ~|", "", false),
        ASKED,
        VISITED,
        "HTTP/1.1 200 OK|link: ~|\
         proxy-status: crawlgate; received-status=200; details=\"65536 line 3\"|content-length: 0||",
    ),
    (
        "no content",
        Scene::Page(204, "", "left over", false),
        ASKED,
        VISITED,
        "HTTP/1.1 204 No Content|\
         proxy-status: crawlgate; received-status=204; details=\"65536 line 3\"||",
    ),
    (
        "reset content",
        Scene::Page(205, "", "left over", false),
        ASKED,
        VISITED,
        "HTTP/1.1 205 Reset Content|\
         proxy-status: crawlgate; received-status=205; details=\"65536 line 3\"|content-length: 0||",
    ),
    (
        "not modified",
        Scene::Page(304, "ETag: \"1\"|", "left over", false),
        ASKED,
        VISITED,
        "HTTP/1.1 304 Not Modified|etag: \"1\"|\
         proxy-status: crawlgate; received-status=304; details=\"65536 line 3\"||",
    ),
];

const REDIRECTS: &[Row] = &[
    (
        "in absolute form as sent",
        Scene::Page(302, "Location: ../y#z|", "", false),
        PROXIED,
        VISITED,
        "HTTP/1.1 302 Found|location: ../y#z|\
         proxy-status: crawlgate; received-status=302; details=\"65536 line 3\"|content-length: 0||",
    ),
    (
        "in path form behind a slash",
        Scene::Page(302, "LOCATION: ../y?q#z|", "", false),
        ASKED,
        VISITED,
        "HTTP/1.1 302 Found|location: /http://a.example/y?q|\
         proxy-status: crawlgate; received-status=302; details=\"65536 line 3\"|content-length: 0||",
    ),
    (
        "to another scheme that is read",
        Scene::Page(301, "Location: https://B.example|", "", false),
        ASKED,
        VISITED,
        "HTTP/1.1 301 Moved Permanently|location: /https://b.example/|\
         proxy-status: crawlgate; received-status=301; details=\"65536 line 3\"|content-length: 0||",
    ),
    (
        "to no page",
        Scene::Page(
            302,
            "Location: ftp://a.example/|Location: ~|Date: x|",
            "",
            false,
        ),
        ASKED,
        VISITED,
        "HTTP/1.1 302 Found|date: x|\
         proxy-status: crawlgate; received-status=302; details=\"65536 line 3\"|content-length: 0||",
    ),
];

const CUT: &[Row] = &[
    (
        "a page that is cut",
        Scene::Page(200, "Date: x|", "part", true),
        ASKED,
        VISITED,
        "HTTP/1.1 502 Bad Gateway|\
         proxy-status: crawlgate; error=http_response_body_size; details=\"cut\"|content-length: 0||",
    ),
    (
        "one that may be",
        Scene::Page(200, "Date: x|", "part", true),
        PASSING,
        VISITED,
        "HTTP/1.1 200 OK|date: x|proxy-status: crawlgate; received-status=200; \
         error=http_response_body_size; details=\"65536 line 3\"|content-length: 4||part",
    ),
    (
        "a whole one that may be",
        Scene::Page(200, "", "all", false),
        PASSING,
        VISITED,
        "HTTP/1.1 200 OK|proxy-status: crawlgate; received-status=200; \
         details=\"65536 line 3\"|content-length: 3||all",
    ),
];

const DENIALS: &[Row] = &[
    (
        "by a line",
        Scene::No(Cause::Line(7)),
        ASKED,
        VISITED,
        "HTTP/1.1 403 Forbidden|proxy-status: crawlgate; error=http_request_denied; \
         details=\"a.example line 7\"|content-length: 0||",
    ),
    (
        "closed",
        Scene::No(Cause::Closed),
        PROXIED,
        VISITED,
        "HTTP/1.1 403 Forbidden|proxy-status: crawlgate; error=http_request_denied; \
         details=\"a.example closed\"|content-length: 0||",
    ),
    (
        "unknown",
        Scene::No(Cause::Unknown),
        ASKED,
        VISITED,
        "HTTP/1.1 403 Forbidden|proxy-status: crawlgate; error=http_request_denied; \
         details=\"a.example unknown\"|content-length: 0||",
    ),
    (
        "expired",
        Scene::No(Cause::Expired),
        ASKED,
        VISITED,
        "HTTP/1.1 403 Forbidden|proxy-status: crawlgate; error=http_request_denied; \
         details=\"a.example expired\"|content-length: 0||",
    ),
    (
        "a quotation mark in a host",
        Scene::No(Cause::Line(1)),
        "GET /http://a%22.example/x HTTP/1.1|Host: localhost|Crawlgate-Token: foobot||",
        "",
        "HTTP/1.1 308 Permanent Redirect|location: /http://a\".example/x|\
         proxy-status: crawlgate; error=proxy_internal_response; details=\"authority\"|content-length: 0||",
    ),
];

const REFUSALS: &[Row] = &[
    (
        "busy",
        Scene::Err(Refusal::Busy),
        ASKED,
        VISITED,
        "HTTP/1.1 503 Service Unavailable|retry-after: 1|proxy-status: crawlgate; \
         error=proxy_internal_response; details=\"busy\"|content-length: 0||",
    ),
    (
        "permits",
        Scene::Err(Refusal::PermitsFull),
        ASKED,
        VISITED,
        "HTTP/1.1 503 Service Unavailable|retry-after: 1|proxy-status: crawlgate; \
         error=proxy_internal_response; details=\"permits\"|content-length: 0||",
    ),
    (
        "authorities",
        Scene::Err(Refusal::AuthoritiesFull),
        ASKED,
        VISITED,
        "HTTP/1.1 503 Service Unavailable|retry-after: 1|proxy-status: crawlgate; \
         error=proxy_internal_response; details=\"authorities\"|content-length: 0||",
    ),
    (
        "log",
        Scene::Err(Refusal::LogFull),
        ASKED,
        VISITED,
        "HTTP/1.1 503 Service Unavailable|retry-after: 60|proxy-status: crawlgate; \
         error=proxy_internal_response; details=\"log\"|content-length: 0||",
    ),
    (
        "memory",
        Scene::Err(Refusal::NoMemory),
        ASKED,
        VISITED,
        "HTTP/1.1 503 Service Unavailable|retry-after: 1|proxy-status: crawlgate; \
         error=proxy_internal_response; details=\"memory\"|content-length: 0||",
    ),
    (
        "a keeper that fetches nothing",
        Scene::Nothing,
        ASKED,
        "",
        "HTTP/1.1 500 Internal Server Error|proxy-status: crawlgate; \
         error=proxy_internal_error; details=\"no fetch\"|content-length: 0||",
    ),
];

const FAULTS: &[Row] = &[
    (
        "ended early",
        Scene::Fault(WireFault::EarlyEnd, None),
        ASKED,
        VISITED,
        "HTTP/1.1 502 Bad Gateway|proxy-status: crawlgate; error=http_response_incomplete; \
         details=\"the input ended before the response did\"|content-length: 0||",
    ),
    (
        "a bad head",
        Scene::Fault(WireFault::BadHead, None),
        ASKED,
        VISITED,
        "HTTP/1.1 502 Bad Gateway|proxy-status: crawlgate; error=http_protocol_error; \
         details=\"the head can't be read\"|content-length: 0||",
    ),
    (
        "a long head",
        Scene::Fault(WireFault::HeadTooLong, None),
        ASKED,
        VISITED,
        "HTTP/1.1 502 Bad Gateway|proxy-status: crawlgate; error=http_response_header_section_size; \
         details=\"the head is too long\"|content-length: 0||",
    ),
    (
        "a coding",
        Scene::Fault(WireFault::Coding, None),
        ASKED,
        VISITED,
        "HTTP/1.1 502 Bad Gateway|proxy-status: crawlgate; error=http_response_content_coding; \
         details=\"the body is in a coding that is not read\"|content-length: 0||",
    ),
    (
        "too much",
        Scene::Fault(WireFault::TooMuch, None),
        ASKED,
        VISITED,
        "HTTP/1.1 502 Bad Gateway|proxy-status: crawlgate; error=http_response_body_size; \
         details=\"the response is too long\"|content-length: 0||",
    ),
    (
        "no memory for it",
        Scene::Fault(WireFault::NoMemory, None),
        ASKED,
        VISITED,
        "HTTP/1.1 503 Service Unavailable|retry-after: 1|proxy-status: crawlgate; \
         error=proxy_internal_error; details=\"no memory for the response\"|content-length: 0||",
    ),
];

const DEVICES: &[Row] = &[
    (
        "no name",
        Scene::Fault(WireFault::Device, Some(Failure::NoName)),
        ASKED,
        VISITED,
        "HTTP/1.1 502 Bad Gateway|proxy-status: crawlgate; error=dns_error; \
         details=\"the device failed\"|content-length: 0||",
    ),
    (
        "refused",
        Scene::Fault(WireFault::Device, Some(Failure::Refused)),
        ASKED,
        VISITED,
        "HTTP/1.1 502 Bad Gateway|proxy-status: crawlgate; error=connection_refused; \
         details=\"the device failed\"|content-length: 0||",
    ),
    (
        "out of reach",
        Scene::Fault(WireFault::Device, Some(Failure::Unreachable)),
        ASKED,
        VISITED,
        "HTTP/1.1 502 Bad Gateway|proxy-status: crawlgate; error=destination_ip_unroutable; \
         details=\"the device failed\"|content-length: 0||",
    ),
    (
        "no connection in time",
        Scene::Fault(WireFault::Device, Some(Failure::NotConnected(LIMIT))),
        ASKED,
        VISITED,
        "HTTP/1.1 504 Gateway Timeout|proxy-status: crawlgate; error=connection_timeout; \
         details=\"the device failed\"|content-length: 0||",
    ),
    (
        "silent",
        Scene::Fault(WireFault::Device, Some(Failure::Silent(LIMIT))),
        ASKED,
        VISITED,
        "HTTP/1.1 504 Gateway Timeout|proxy-status: crawlgate; error=connection_read_timeout; \
         details=\"the device failed\"|content-length: 0||",
    ),
    (
        "too long",
        Scene::Fault(WireFault::Device, Some(Failure::TooLong(LIMIT))),
        ASKED,
        VISITED,
        "HTTP/1.1 504 Gateway Timeout|proxy-status: crawlgate; error=http_response_timeout; \
         details=\"the device failed\"|content-length: 0||",
    ),
    (
        "nothing known",
        Scene::Fault(WireFault::Device, None),
        ASKED,
        VISITED,
        "HTTP/1.1 502 Bad Gateway|proxy-status: crawlgate; error=connection_terminated; \
         details=\"the device failed\"|content-length: 0||",
    ),
];

#[test]
fn pages(rt: HostRuntime) -> Result<(), Fail> {
    check_rows(&rt, rt.alloc(), SITES)
}

#[test]
fn redirects(rt: HostRuntime) -> Result<(), Fail> {
    check_rows(&rt, rt.alloc(), REDIRECTS)
}

#[test]
fn pages_that_are_cut(rt: HostRuntime) -> Result<(), Fail> {
    check_rows(&rt, rt.alloc(), CUT)
}

#[test]
fn denials(rt: HostRuntime) -> Result<(), Fail> {
    check_rows(&rt, rt.alloc(), DENIALS)
}

#[test]
fn refusals(rt: HostRuntime) -> Result<(), Fail> {
    check_rows(&rt, rt.alloc(), REFUSALS)
}

#[test]
fn fetches_that_failed(rt: HostRuntime) -> Result<(), Fail> {
    check_rows(&rt, rt.alloc(), FAULTS)?;
    check_rows(&rt, rt.alloc(), DEVICES)
}
