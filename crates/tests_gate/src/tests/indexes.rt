//! When an authority's rules get an index: at the ask after sixteen verdicts, or with a ready index.
//! That verdicts stay the same is proved (`Cache::make_index`, `take_index`).

use super::gates::{PAGE, book};
use authority_cache::{LIFE, TimedAnswer};
use gate_core::{AskRefusal, Book, Judged};
use path_normal::{Authority, PageUrl};
use robots_text::{RobotsText, Token};
use robots_verdict::{Answer, with_index};
use std::alloc::Global;
use std::hash::RandomState;
use std::test::Fail;

// How many walks over a text an index pays off after.
const WALKS: u64 = 16;

const CLOSED: &str = "User-agent: *\nDisallow: /";

#[test]
fn an_ask_makes_an_index_or_brings_one(rt: HostRuntime) -> Result<(), Fail> {
    let alloc = rt.alloc();
    let mut made = book(alloc, RandomState::new(&rt)?, 1_024, 65_536)?;
    makes_one(alloc, &mut made)?;
    let mut brought = book(alloc, RandomState::new(&rt)?, 1_024, 65_536)?;
    brings_one(alloc, &mut brought)
}

// The ask after the last walk makes it.
fn makes_one(alloc: Global, book: &mut Book) -> Result<(), Fail> {
    load(alloc, book, CLOSED)?;
    for _ in 0..WALKS {
        ask(alloc, book)?;
    }
    is_indexed(book, false)?;
    ask(alloc, book)?;
    is_indexed(book, true)
}

// An ask brings an index of the same text.
fn brings_one(alloc: Global, book: &mut Book) -> Result<(), Fail> {
    load(alloc, book, CLOSED)?;
    let Some(policy) = book.hint("a.example", 110) else {
        return Err(Fail::new("no policy"));
    };
    for _ in 0..WALKS {
        ask(alloc, book)?;
    }
    let policy = with_index(alloc, policy);
    if !policy.is_indexed() {
        return Err(Fail::new("no index is made"));
    }
    let token = Token::new(alloc, b"foobot")?;
    let judged = Judged::new(Some(policy), token, PageUrl::parse(alloc, PAGE)?);
    is_denied(book.ask_judged(judged, 120).err())?;
    is_indexed(book, true)
}

pub(super) fn load(alloc: Global, book: &mut Book, text: &str) -> Result<(), Fail> {
    let rules = Answer::rules(alloc, RobotsText::read(alloc, text.as_bytes())?)?;
    let answer = TimedAnswer::new(rules, LIFE);
    if answer.spares() < 1 {
        return Err(Fail::new("an answer without spares"));
    }
    let site = Authority::new(alloc, "a.example")?;
    let Ok(turn) = book.begin(&site, 100) else {
        return Err(Fail::new("no turn"));
    };
    match book.arrive(&site, turn, answer, 105) {
        Ok(()) => Ok(()),
        Err(_) => Err(Fail::new("a stale turn")),
    }
}

fn ask(alloc: Global, book: &mut Book) -> Result<(), Fail> {
    let token = Token::new(alloc, b"foobot")?;
    let url = PageUrl::parse(alloc, PAGE)?;
    is_denied(book.ask(token, url, 120).err())
}

fn is_denied(refusal: Option<AskRefusal>) -> Result<(), Fail> {
    match refusal {
        Some(AskRefusal::Denied(_)) => Ok(()),
        _ => Err(Fail::new("the ask is not denied")),
    }
}

fn is_indexed(book: &Book, want: bool) -> Result<(), Fail> {
    match book.hint("a.example", 120) {
        Some(policy) if policy.is_indexed() == want => Ok(()),
        Some(_) if want => Err(Fail::new("no index")),
        Some(_) => Err(Fail::new("an index too early")),
        None => Err(Fail::new("no policy")),
    }
}
