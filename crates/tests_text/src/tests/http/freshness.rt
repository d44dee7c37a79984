//! How long a response may be used, by fields as servers write them.
//! RFC 9111, sections 4.2.1 and 5.2.2.1.

use super::reads::{Row, Want};
use Want::Fresh;

/// The line before a final head's fields.
pub(super) const HEAD: &str = "HTTP/1.1 200 OK|";

/// A final head's fields.
pub(super) const FIELDS: &[Row] = &[
    ("no field", "|", 9, Fresh(None)),
    (
        "quoted, behind another directive",
        "Cache-Control: no-cache, Max-Age=\"60\"||",
        9,
        Fresh(Some(60)),
    ),
    ("no digits", "Cache-Control: max-age=x||", 9, Fresh(None)),
    ("digits", "Cache-Control: max-age=60||", 9, Fresh(Some(60))),
    (
        "names in capitals",
        "CACHE-CONTROL: MAX-AGE=60||",
        9,
        Fresh(Some(60)),
    ),
    (
        "the first of two members",
        "Cache-Control: max-age=60, max-age=5||",
        9,
        Fresh(Some(60)),
    ),
    (
        "the first of two fields",
        "Cache-Control: max-age=60|Cache-Control: max-age=5||",
        9,
        Fresh(Some(60)),
    ),
    (
        "the second of two fields",
        "Cache-Control: no-cache|A: b|Cache-Control: max-age=5||",
        9,
        Fresh(Some(5)),
    ),
    (
        "behind one that is none",
        "Cache-Control: max-age=x, max-age=5||",
        9,
        Fresh(Some(5)),
    ),
    (
        "empty members",
        "Cache-Control: , ,max-age=5,||",
        9,
        Fresh(Some(5)),
    ),
    ("an empty field", "Cache-Control:||", 9, Fresh(None)),
    (
        "tabs and spaces around",
        "Cache-Control: public \t,\t max-age=5 \t, private||",
        9,
        Fresh(Some(5)),
    ),
    (
        "nothing behind the name",
        "Cache-Control: max-age=||",
        9,
        Fresh(None),
    ),
    ("the name alone", "Cache-Control: max-age||", 9, Fresh(None)),
    (
        "nothing quoted",
        "Cache-Control: max-age=\"\"||",
        9,
        Fresh(None),
    ),
    (
        "one quotation mark",
        "Cache-Control: max-age=\"||",
        9,
        Fresh(None),
    ),
    (
        "a quotation mark in front",
        "Cache-Control: max-age=\"60||",
        9,
        Fresh(None),
    ),
    (
        "a quotation mark behind",
        "Cache-Control: max-age=60\"||",
        9,
        Fresh(None),
    ),
    (
        "more behind the quotation marks",
        "Cache-Control: max-age=\"60\"s||",
        9,
        Fresh(None),
    ),
    (
        "two pairs of quotation marks",
        "Cache-Control: max-age=\"\"60\"\"||",
        9,
        Fresh(None),
    ),
    (
        "a space behind the name",
        "Cache-Control: max-age =60||",
        9,
        Fresh(None),
    ),
    (
        "a space before the digits",
        "Cache-Control: max-age= 60||",
        9,
        Fresh(None),
    ),
    ("a sign", "Cache-Control: max-age=+60||", 9, Fresh(None)),
    (
        "a fraction",
        "Cache-Control: max-age=60.0||",
        9,
        Fresh(None),
    ),
    (
        "another directive that ends so",
        "Cache-Control: s-maxage=5, x-max-age=5||",
        9,
        Fresh(None),
    ),
    (
        "no seconds",
        "Cache-Control: max-age=0||",
        9,
        Fresh(Some(0)),
    ),
    (
        "leading zeros",
        "Cache-Control: max-age=00000000000000000000060||",
        9,
        Fresh(Some(60)),
    ),
    (
        "the greatest number",
        "Cache-Control: max-age=18446744073709551615||",
        9,
        Fresh(Some(u64::MAX)),
    ),
    (
        "one more than the greatest number",
        "Cache-Control: max-age=18446744073709551616||",
        9,
        Fresh(Some(u64::MAX)),
    ),
    (
        "far more than the greatest number, quoted",
        "Cache-Control: max-age=\"99999999999999999999999999999999999999999999\"||",
        9,
        Fresh(Some(u64::MAX)),
    ),
    (
        "a comma between quotation marks",
        "Cache-Control: a=\"b, max-age=5, c\"||",
        9,
        Fresh(Some(5)),
    ),
];

/// Whole responses.
pub(super) const RESPONSES: &[Row] = &[
    (
        "in an interim head",
        "HTTP/1.1 103 a|Cache-Control: max-age=5||HTTP/1.1 204 No||",
        9,
        Fresh(None),
    ),
    (
        "in both heads",
        "HTTP/1.1 100 a|Cache-Control: max-age=5||HTTP/1.1 204 No|Cache-Control: max-age=6||",
        9,
        Fresh(Some(6)),
    ),
    (
        "in a trailer",
        "HTTP/1.1 200 OK|Transfer-Encoding: chunked||1|x|0|Cache-Control: max-age=5||",
        9,
        Fresh(None),
    ),
    (
        "in the body",
        "HTTP/1.0 200 OK||Cache-Control: max-age=5||",
        9,
        Fresh(None),
    ),
    (
        "of a redirect",
        "HTTP/1.1 301 Moved|Location: /a|Cache-Control: max-age=5|Content-Length: 0||",
        9,
        Fresh(Some(5)),
    ),
];
