//! Fields of a client's request that a request for a page hands on, and the values that are refused.
//! RFC 9110, section 5.5.

use crate::tests::demand;
use counted_io::FailAt;
use http_wire::{ConnectionEnding, FieldValue, ForwardedFields, write_get_with};
use path_normal::PageUrl;
use std::alloc::Global;
use std::test::Fail;

// A name, the octets, and whether they are a value that is handed on.
const VALUES: &[(&str, &[u8], bool)] = &[
    ("none", b"", false),
    ("a letter", b"a", true),
    ("a space", b" ", true),
    ("a tilde", b"~", true),
    ("an entity tag", b"W/\"a\"", true),
    ("a tab", b"a\tb", false),
    ("CR", b"a\rb", false),
    ("LF at the end", b"a\n", false),
    ("DEL", b"a\x7f", false),
    ("an octet over ASCII", b"a\xe9", false),
    ("1,024 octets", &[b'a'; 1_024], true),
    ("1,025 octets", &[b'a'; 1_025], false),
];

#[test]
fn takes_values_that_end_no_line(_rt: HostRuntime) -> Result<(), Fail> {
    for (name, octets, is_value) in VALUES {
        demand(FieldValue::of(octets).is_some() == *is_value, name)?;
    }
    Ok(())
}

// A name, the values in the order of the fields (an empty one is none), and the lines.
type Row = (
    &'static str,
    &'static [u8],
    &'static [u8],
    &'static [u8],
    &'static [u8],
    &'static str,
);

const ROWS: &[Row] = &[
    ("no field", b"", b"", b"", b"", ""),
    ("a tag", b"\"a\"", b"", b"", b"", "If-None-Match: \"a\"\r\n"),
    (
        "a date",
        b"",
        b"Mon, 30 Nov 2026 16:00:00 GMT",
        b"",
        b"",
        "If-Modified-Since: Mon, 30 Nov 2026 16:00:00 GMT\r\n",
    ),
    (
        "a type",
        b"",
        b"",
        b"text/html",
        b"",
        "Accept: text/html\r\n",
    ),
    (
        "a language",
        b"",
        b"",
        b"",
        b"de",
        "Accept-Language: de\r\n",
    ),
    (
        "all in their order",
        b"1",
        b"2",
        b"3",
        b"4",
        "If-None-Match: 1\r\nIf-Modified-Since: 2\r\nAccept: 3\r\nAccept-Language: 4\r\n",
    ),
];

#[test]
fn hands_on_each_field_in_its_line(rt: HostRuntime) -> Result<(), Fail> {
    let page = PageUrl::parse(rt.alloc(), "http://a.example/")?;
    for (name, tag, date, media, language, lines) in ROWS {
        let fields = ForwardedFields {
            if_none_match: FieldValue::of(tag),
            if_modified_since: FieldValue::of(date),
            accept: FieldValue::of(media),
            accept_language: FieldValue::of(language),
        };
        demand(
            writes(rt.alloc(), &page, &fields, ConnectionEnding::Close, lines),
            name,
        )?;
        demand(
            writes(
                rt.alloc(),
                &page,
                &fields,
                ConnectionEnding::KeepAlive,
                lines,
            ),
            name,
        )?;
    }
    Ok(())
}

const FRONT: &str = "GET / HTTP/1.1\r\nHost: a.example\r\nUser-Agent: crawlgate\r\n\
Accept: */*\r\nAccept-Encoding: identity\r\n";

// Whether the request has these lines before its end.
fn writes(
    alloc: Global,
    page: &PageUrl,
    fields: &ForwardedFields<'_>,
    ending: ConnectionEnding,
    lines: &str,
) -> bool {
    let mut writer = FailAt::new(Vec::new(alloc), 1_000, None);
    let written = write_get_with(&mut writer, page, "crawlgate", fields, ending);
    written.is_ok() && is_joined(writer.bytes(), lines, end_for(ending))
}

fn end_for(ending: ConnectionEnding) -> &'static str {
    match ending {
        ConnectionEnding::Close => "Connection: close\r\n\r\n",
        ConnectionEnding::KeepAlive => "\r\n",
    }
}

fn is_joined(octets: &[u8], lines: &str, end: &str) -> bool {
    octets
        .strip_prefix(FRONT.as_bytes())
        .and_then(|behind| behind.strip_prefix(lines.as_bytes()))
        == Some(end.as_bytes())
}
