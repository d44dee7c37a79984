//! An input with a robots text and then lines of URLs.
//! docs/FORMATS.md says where the URLs begin.
ghost use Rattle.std.specs.Prelude.{◌≡◌, ◌<◌, ◌∷◌, ℕ, List, IfOk, IfSome, IfNone, length, map};
ghost use Rattle.counted_io.specs.Lines.{line_feed, without_cr};
ghost use Rattle.robots_check.specs.Input.{AreUrlLines, FollowsEmpty, IsLineLen, IsSplit, TakesUrl, UrlsFollow, begins_http, begins_url};
ghost use Rattle.robots_check.specs.Targets.{begins_path};

use crate::page::behind_https;
use counted_io::part_len;
use robots_text::is_same_word;
use std::alloc::{AllocError, Global};

/// The robots text of an input, and its lines of URLs.
pub(crate) fn split_input(input: &[u8]) -> (&[u8], &[u8])
    ensures { IsSplit input.now result.0.now result.1.now }
{
    let mut place = 0;
    while place < input.len() {
        let (front, left) = input.split_at(place);
        if let Some(urls) = urls_behind(left) {
            return (front, urls);
        }
        place += line_len(left);
    }
    (input, &[])
}

/// The URLs of these lines.
pub(crate) fn urls_of(alloc: Global, lines: &[u8]) -> Result<Vec<&[u8]>, AllocError>
    ensures { IfOk result (λ urls. AreUrlLines lines.now (map (λ url. url.now) urls.items)) }
{
    let mut urls = Vec::new(alloc);
    let mut left = lines;
    while !left.is_empty() {
        let (url, rest) = cut_url(left);
        urls.push(url)?;
        left = rest;
    }
    Ok(urls)
}

// The lines after the empty line at the start of the text, if the first is of a URL.
fn urls_behind(text: &[u8]) -> Option<&[u8]>
    ensures some { IfSome result (λ rest. UrlsFollow text.now rest.now) }
    ensures none { IfNone result ((rest : List ℕ) → UrlsFollow text.now rest → ⊥) }
{
    match behind_empty(text) {
        Some(rest) if begins_url(rest) => Some(rest),
        _ => None,
    }
}

// What follows the empty line at the start of the text.
fn behind_empty(text: &[u8]) -> Option<&[u8]>
    ensures some { IfSome result (λ rest. FollowsEmpty text.now rest.now) }
    ensures none { IfNone result ((rest : List ℕ) → FollowsEmpty text.now rest → ⊥) }
{
    match text.split_first() {
        Some((first, rest)) if *first == b'\r' => behind_feed(rest),
        _ => behind_feed(text),
    }
}

// What follows the LF at the start of the text.
fn behind_feed(text: &[u8]) -> Option<&[u8]>
    ensures some { IfSome result (λ rest. text.now ≡ line_feed ∷ rest.now) }
    ensures none { IfNone result ((rest : List ℕ) → text.now ≡ line_feed ∷ rest → ⊥) }
{
    match text.split_first() {
        Some((first, rest)) if *first == b'\n' => Some(rest),
        _ => None,
    }
}

// The octets of the first line, with its end.
fn line_len(text: &[u8]) -> usize
    requires { 0 < length text.now }
    ensures { IsLineLen text.now result }
{
    let len = part_len(text);
    if len < text.len() { len + 1 } else { len }
}

// The first line without its end, and what follows it.
fn cut_url(text: &[u8]) -> (&[u8], &[u8])
    requires { 0 < length text.now }
    ensures takes { TakesUrl text.now result.0.now result.1.now }
    ensures less { length result.1.now < length text.now }
{
    let len = part_len(text);
    if len < text.len() {
        (without_cr(&text[..len]), &text[len + 1..])
    } else {
        (text, &[])
    }
}

fn without_cr(raw: &[u8]) -> &[u8]
    ensures { result.now ≡ without_cr raw.now }
{
    match raw {
        [front @ .., b'\r'] => front,
        _ => raw,
    }
}

fn begins_url(text: &[u8]) -> bool
    ensures { result ≡ begins_url text.now }
{
    begins_path(text) || begins_http(text) || behind_https(text).is_some()
}

fn begins_path(text: &[u8]) -> bool
    ensures { result ≡ begins_path text.now }
{
    matches!(text, [b'/', ..])
}

fn begins_http(text: &[u8]) -> bool
    ensures { result ≡ begins_http text.now }
{
    match text {
        [one, two, three, four, five, ..] => {
            is_same_word(&[*one, *two, *three, *four, *five], b"http:")
        }
        _ => false,
    }
}
