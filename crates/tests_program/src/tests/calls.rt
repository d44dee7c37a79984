//! A list of calls, with ample memory.
ghost use Rattle.std.specs.Prelude.{◌≡◌, ◌<◌, ◌++◌, ◌∷◌, [], All, IfOk, OnOk};
ghost use Rattle.gate_core.specs.Calls.{HasSpare};

use super::{demand, new_book};
use authority_cache::{LIFE, TimedAnswer, TurnNo};
use gate_core::{Book, Call, Reply, run};
use gate_history::Reason;
use path_normal::{Authority, PageUrl};
use permit_book::PermitNo;
use robots_text::Token;
use robots_verdict::{Answer, Opening};
use std::alloc::Global;
use std::test::Fail;

#[test]
fn a_site_without_a_robots_file(rt: HostRuntime) -> Result<(), Fail> {
    let mut book = new_book(&rt)?;
    check(&rt, &mut book)
}

fn check(rt: &HostRuntime, book: &mut Book) -> Result<(), Fail> {
    let replies = replies(rt.alloc(), book)?;
    let holds = is_started(replies.as_slice()) && book.history().len() == 4;
    demand(holds, "a site without a robots file", 0)
}

// A robots fetch that finds no file, and a page asked for and started.
fn replies(alloc: Global, book: &mut Book) -> Result<Vec<Reply>, Fail> {
    let calls = calls(alloc)?;
    Ok(run(alloc, book, calls)?)
}

fn calls(alloc: Global) -> Result<Vec<Call>, Fail>
    ensures { IfOk result (λ calls. All HasSpare calls.items) }
{
    let mut calls = Vec::with_capacity(alloc, 4)?;
    add_begin(alloc, &mut calls)?;
    add_arrival(alloc, &mut calls)?;
    add_ask(alloc, &mut calls)?;
    add_start(alloc, &mut calls)?;
    Ok(calls)
}

fn add_begin(alloc: Global, calls: &mut Vec<Call>) -> Result<(), Fail>
    requires { All HasSpare calls.old.items }
    ensures { OnOk result (All HasSpare calls.new.items) }
{
    let authority = Authority::new(alloc, "a.example")?;
    let moment = 100;
    calls.push(Call::Begin { authority, moment })?;
    Ok(())
}

fn add_arrival(alloc: Global, calls: &mut Vec<Call>) -> Result<(), Fail>
    requires { All HasSpare calls.old.items }
    ensures { OnOk result (All HasSpare calls.new.items) }
{
    let authority = Authority::new(alloc, "a.example")?;
    calls.push(Call::Arrive {
        authority,
        turn: TurnNo::new(1),
        answer: TimedAnswer::new(Answer::Open(Opening::Unavailable), LIFE),
        moment: 105,
    })?;
    Ok(())
}

fn add_ask(alloc: Global, calls: &mut Vec<Call>) -> Result<(), Fail>
    requires { All HasSpare calls.old.items }
    ensures { OnOk result (All HasSpare calls.new.items) }
{
    let (token, url) = page(alloc)?;
    let moment = 110;
    calls.push(Call::Ask { token, url, moment })?;
    Ok(())
}

fn add_start(alloc: Global, calls: &mut Vec<Call>) -> Result<(), Fail>
    requires { All HasSpare calls.old.items }
    ensures { OnOk result (All HasSpare calls.new.items) }
{
    let (token, url) = page(alloc)?;
    calls.push(Call::Start {
        number: PermitNo::new(65_536),
        token,
        url,
        moment: 120,
    })?;
    Ok(())
}

fn page(alloc: Global) -> Result<(Token, PageUrl), Fail> {
    let token = Token::new(alloc, b"FooBot")?;
    Ok((token, PageUrl::parse(alloc, "http://a.example/x")?))
}

fn is_started(replies: &[Reply]) -> bool {
    match replies {
        [
            Reply::Begin {
                result: Ok(turn),
                ..
            },
            Reply::Arrive { result: Ok(()), .. },
            Reply::Ask { result: Ok(number) },
            Reply::Start {
                result: Ok(started),
            },
        ] => {
            *turn == TurnNo::new(1)
                && *number == PermitNo::new(65_536)
                && started.reason == Reason::Open
        }
        _ => false,
    }
}
