//! How much faster an ask judged in advance is, in one run.
//! That its result is the same is proved. Only here is it seen to make no verdict of its own.

use super::gates::book;
use super::indexes::load;
use gate_core::{Book, Judged};
use path_normal::PageUrl;
use robots_text::Token;
use robots_verdict::Policy;
use std::alloc::{AllocError, Global};
use std::hash::RandomState;
use std::sync::Arc;
use std::test::Fail;
use std::time::Instant;

// The rules of the text, all of which are tried.
const RULES: u64 = 10_000;

// How many times as long an ask must take that was not judged before. It takes hundreds.
const TIMES: u128 = 8;

#[test]
fn a_judged_ask_makes_no_verdict(rt: HostRuntime) -> Result<(), Fail> {
    let keys = RandomState::new(&rt)?;
    let mut book = book(rt.alloc(), keys, 1_024, 65_536)?;
    compares(&rt, &mut book)
}

fn compares(rt: &HostRuntime, book: &mut Book) -> Result<(), Fail> {
    let text = repeated(rt.alloc(), "User-agent: *\n", "Disallow: *bba*q\n", RULES)?;
    load(rt.alloc(), book, text.as_str())?;
    let Some(policy) = book.hint("a.example", 110) else {
        return Err(Fail::new("no policy"));
    };
    let judged = nanos(rt, book, Some(policy))?;
    let other = nanos(rt, book, None)?;
    if judged.saturating_mul(TIMES) < other {
        Ok(())
    } else {
        Err(Fail::new(format_args!("{judged} ns where it was judged before, {other} where not")))
    }
}

// The time of an ask for a page of 4,000 octets, with the policy for its verdict known or not.
fn nanos(rt: &HostRuntime, book: &mut Book, policy: Option<Arc<Policy>>) -> Result<u128, Fail> {
    let token = Token::new(rt.alloc(), b"foobot")?;
    let page = repeated(rt.alloc(), "http://a.example/", "ab", 2_000)?;
    let judged = Judged::new(policy, token, PageUrl::parse(rt.alloc(), page.as_str())?);
    let begun = Instant::now(rt)?;
    let answer = book.ask_judged(judged, 120);
    let nanos = begun.elapsed(rt)?.as_nanos();
    match answer {
        Ok(_) => Ok(nanos),
        Err(_) => Err(Fail::new("a refusal")),
    }
}

fn repeated(alloc: Global, first: &str, other: &str, times: u64) -> Result<String, AllocError> {
    let mut text = String::new(alloc);
    text.push_str(first)?;
    for _ in 0..times {
        text.push_str(other)?;
    }
    Ok(text)
}
