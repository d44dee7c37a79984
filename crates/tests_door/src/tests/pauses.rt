//! The pauses that replies set.
//! RFC 9110, section 10.2.3: `Retry-After: 120`, or a date.

use super::demand;
use site_door::retry_after;
use std::test::Fail;

// A name, a status, the value of the field, and the seconds.
const ROWS: &[(&str, u16, &[u8], Option<u64>)] = &[
    ("503 with seconds", 503, b"120", Some(120)),
    ("429 with seconds", 429, b"120", Some(120)),
    ("no seconds", 429, b"0", Some(0)),
    ("leading zeros", 429, b"007", Some(7)),
    ("the longest", 503, b"3600", Some(3_600)),
    ("longer", 503, b"3601", Some(3_600)),
    (
        "more than a number holds",
        503,
        b"99999999999999999999999999",
        Some(3_600),
    ),
    ("another status", 301, b"120", None),
    ("a good status", 200, b"120", None),
    ("no value", 503, b"", None),
    ("a date", 503, b"Fri, 31 Dec 1999 23:59:59 GMT", None),
    ("a sign", 503, b"+120", None),
    ("a fraction", 503, b"1.5", None),
    ("a blank", 503, b"12 0", None),
    ("no digit at the end", 503, b"120s", None),
];

#[test]
fn pauses_of_replies(_rt: HostRuntime) -> Result<(), Fail> {
    for (name, status, field, seconds) in ROWS {
        demand(retry_after(*status, field) == *seconds, name)?;
    }
    Ok(())
}
