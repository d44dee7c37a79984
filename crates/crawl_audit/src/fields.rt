//! The words of a line, parsed one by one as numbers, tokens, URLs, authorities and bodies.
//! Used by `read` and `read_base`.
ghost use Rattle.std.specs.Prelude.{◌≡◌, ℕ, List, None, IfOk};
ghost use Rattle.std.specs.Option.{option_map};
ghost use Rattle.std.specs.Result.{result_ok};
ghost use Rattle.line_text.specs.Number.{number_of};
ghost use Rattle.line_text.specs.Words.{words_left};
ghost use Rattle.path_normal.specs.Authority.{root_of};
ghost use Rattle.path_normal.specs.Capacity.{Enough};
ghost use Rattle.path_normal.specs.PageText.{authority_of};
ghost use Rattle.path_normal.specs.PageUrl.{page_url_among};
ghost use Rattle.path_normal.specs.declared.schemes.Schemes.TheVariants.{HttpAndHttps};
ghost use Rattle.robots_text.specs.Token.{token_of};
ghost use Rattle.history_text.specs.Entries.{IsBody};
ghost use Rattle.crawl_audit.specs.Reading.{Reads, head_word, tail_words};
ghost use Rattle.history_text.specs.Spell.{body_word};

use crate::unread_line::UnreadLine;
use line_text::{Words, number_of};
use path_normal::{Authority, PageUrl, Schemes, Unread, root_text};
use percent_encoding::percent_decode;
use robots_text::{RobotsText, Token, TokenFault};
use std::alloc::{AllocError, Global};

/// The next word; empty if there is none.
pub(crate) fn next_word<'a>(words: &mut Words<'a>) -> &'a str
    ensures word { result.now ≡ head_word (words_left words.old) }
    ensures rest { words_left words.new ≡ tail_words (words_left words.old) }
{
    match words.next() {
        Some(word) => word,
        None => "",
    }
}

pub(crate) fn next_number(words: &mut Words<'_>) -> Result<u64, UnreadLine>
    ensures value { Reads result (number_of (head_word (words_left words.old))) }
    ensures rest { words_left words.new ≡ tail_words (words_left words.old) }
{
    match number_of(next_word(words)) {
        Some(number) => Ok(number),
        None => Err(UnreadLine::NotOne),
    }
}

pub(crate) fn read_token(alloc: Global, word: &str) -> Result<Token, UnreadLine>
    ensures { Reads result (token_of word.now) }
{
    match Token::new(alloc, word.as_bytes()) {
        Ok(token) => Ok(token),
        Err(TokenFault::BadToken) => Err(UnreadLine::NotOne),
        Err(TokenFault::NoMemory) => Err(UnreadLine::NoMemory),
    }
}

/// Parses the URL of a page of either scheme. A line that names a scheme that is not read was refused
/// earlier.
pub(crate) fn read_page(alloc: Global, word: &str) -> Result<PageUrl, UnreadLine>
    ensures { Reads result (result_ok (page_url_among HttpAndHttps None word.now Enough)) }
{
    match Schemes::HttpAndHttps.read_page(alloc, word) {
        Ok(url) => Ok(url),
        Err(Unread::Fault(_)) => Err(UnreadLine::NotOne),
        Err(Unread::Overflow | Unread::NoMemory) => Err(UnreadLine::NoMemory),
    }
}

/// Parses an authority: that of the page at its root.
pub(crate) fn read_authority(alloc: Global, word: &str) -> Result<Authority, UnreadLine>
    ensures { Reads result
        (option_map authority_of
        (result_ok (page_url_among HttpAndHttps None (root_of word.now) Enough))) }
{
    let root = root_text(alloc, word)?;
    let url = read_page(alloc, root.as_str())?;
    Ok(Authority::of(&url)?)
}

/// Decodes a body, of which no more than the limit is kept.
pub(crate) fn read_body(alloc: Global, word: &str) -> Result<RobotsText, AllocError>
    ensures { (body : List ℕ) → IsBody body → word.now ≡ body_word body
        → IfOk result (λ text. text ≡ body) }
{
    if word == "-" {
        return RobotsText::read(alloc, &[]);
    }
    let mut octets = Vec::new(alloc);
    percent_decode(word.as_bytes()).append_to(&mut octets)?;
    RobotsText::read(alloc, octets.as_slice())
}
