//! A record: the meaning of one line of a robots text.
//! RFC 9309, section 2.2, whose grammar has these rules for a line:
//! startgroupline = *WS "user-agent" *WS ":" *WS product-token EOL
//! rule = *WS ("allow" / "disallow") *WS ":" *WS (path-pattern / empty-pattern) EOL
//! product-token = identifier / "*"
//! identifier = 1*(%x2D / %x41-5A / %x5F / %x61-7A)
//! emptyline = EOL
//! EOL = *WS [comment] NL
ghost use Rattle.std.specs.Prelude.{◌≡◌, ◌<◌, length, IfSome};
ghost use Rattle.std.specs.List.{position, before_first};
ghost use Rattle.robots_text.specs.Records.{agent_seen, ends_token, is_blank};
ghost use Rattle.robots_text.specs.Records.{is_colon, is_everybody};
ghost use Rattle.robots_text.specs.Records.{kind_seen, named, record_in, record_named};
ghost use Rattle.robots_text.specs.Records.{trimmed, without_leading, without_trailing};

use crate::token::is_token_octet;
use crate::words::is_same_word;

/// The crawlers that a user-agent line names.
#[derive(Clone, Copy, Debug, PartialEq, Eq)]
pub enum Agent<'a> {
    /// Everybody, by `*`.
    All,
    /// The crawlers with this token, in any case.
    Name(&'a [u8]),
    /// Nobody: the value begins with no token octet.
    Nobody,
}

/// Which rule a line makes.
#[derive(Clone, Copy, Debug, PartialEq, Eq)]
pub enum RuleKind {
    Allow,
    Disallow,
}

/// The meaning of a line, with values borrowed from the text.
#[derive(Clone, Copy, Debug, PartialEq, Eq)]
pub enum RecordKind<'a> {
    /// A user-agent line.
    Agent(Agent<'a>),
    /// A rule, with the pattern as written.
    Rule(RuleKind, &'a [u8]),
    /// A line that is empty, has no colon or has another name. Ends no group.
    Other,
}

/// The meaning of the line with this number, from 1.
#[derive(Clone, Copy, Debug, PartialEq, Eq)]
pub struct RecordLine<'a> {
    pub line: u64,
    pub kind: RecordKind<'a>,
}

/// The record of a line without CR and LF, up to its first `#`.
pub(crate) fn record_in(text: &[u8]) -> RecordKind<'_>
    ensures { kind_seen result ≡ record_in text.now }
{
    match colon_place(text) {
        Some(colon) => {
            let name = trimmed(text.split_at(colon).0);
            let value = trimmed(text.split_at(colon + 1).1);
            record_named(name, value)
        }
        None => RecordKind::Other,
    }
}

fn record_named<'a>(name: &[u8], value: &'a [u8]) -> RecordKind<'a>
    ensures { kind_seen result ≡ record_named name.now value.now }
{
    if is_same_word(name, b"user-agent") {
        RecordKind::Agent(agent_of(value))
    } else if is_same_word(name, b"allow") {
        RecordKind::Rule(RuleKind::Allow, value)
    } else if is_same_word(name, b"disallow") {
        RecordKind::Rule(RuleKind::Disallow, value)
    } else {
        RecordKind::Other
    }
}

fn agent_of(value: &[u8]) -> Agent<'_>
    ensures { agent_seen result ≡ named value.now }
{
    if is_everybody(value) {
        return Agent::All;
    }
    let name = token_front(value);
    if name.is_empty() {
        Agent::Nobody
    } else {
        Agent::Name(name)
    }
}

fn is_everybody(value: &[u8]) -> bool
    ensures { result ≡ is_everybody value.now }
{
    match value {
        [b'*'] => true,
        [b'*', next, ..] => is_blank(*next),
        _ => false,
    }
}

fn token_front(value: &[u8]) -> &[u8]
    ensures { result.now ≡ before_first ends_token value.now }
{
    match token_end(value) {
        Some(end) => value.split_at(end).0,
        None => value,
    }
}

fn token_end(value: &[u8]) -> Option<usize>
    ensures place { result ≡ position ends_token value.now }
    ensures within { IfSome result (λ end. end < length value.now) }
{
    value.iter().position(|octet| !is_token_octet(*octet))
}

fn colon_place(text: &[u8]) -> Option<usize>
    ensures place { result ≡ position is_colon text.now }
    ensures within { IfSome result (λ place. place < length text.now) }
{
    text.iter().position(|octet| *octet == b':')
}

fn is_blank(octet: u8) -> bool
    ensures { result ≡ is_blank octet }
{
    octet == b' ' || octet == b'\t'
}

fn trimmed(octets: &[u8]) -> &[u8]
    ensures { result.now ≡ trimmed octets.now }
{
    without_trailing(without_leading(octets))
}

fn without_leading(octets: &[u8]) -> &[u8]
    ensures { result.now ≡ without_leading octets.now }
{
    let mut rest = octets;
    while let Some((first, after)) = rest.split_first() {
        if !is_blank(*first) {
            return rest;
        }
        rest = after;
    }
    rest
}

fn without_trailing(octets: &[u8]) -> &[u8]
    ensures { result.now ≡ without_trailing octets.now }
{
    let mut rest = octets;
    while let Some((last, before)) = rest.split_last() {
        if !is_blank(*last) {
            return rest;
        }
        rest = before;
    }
    rest
}
