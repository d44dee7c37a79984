//! An ask judged before the lock was taken: the answer in force under the lock decides.
//! RFC 9309, section 2.2.2.
ghost use Rattle.gate_lock.specs.Desks.{KeepsOut};

use super::gates::book;
use authority_cache::{LIFE, TimedAnswer};
use gate_core::{AskRefusal, Judged};
use gate_history::Cause;
use gate_lock::{Desk, Gate, GateLock};
use gate_settlement::{Visit, with_gate};
use path_normal::{Authority, PageUrl};
use robots_text::{RobotsText, Token};
use robots_verdict::{Answer, Opening};
use std::alloc::Global;
use std::hash::RandomState;
use std::sync::Wait;
use std::test::Fail;

const PAGE: &str = "http://a.example/example/page.html";

const RULES: &str = "User-agent: foobot\nDisallow: /\nAllow: /example/page.html\n";

const CLOSED: &str = "User-agent:*\nDisallow:/";

// The answer when judging, the answer brought then, the moment of the ask, and its result: the number or
// the cause.
const ROWS: &[(&str, Option<&str>, Option<&str>, u64, Result<u64, Cause>)] = &[
    (
        "other rules",
        Some(RULES),
        Some(CLOSED),
        120,
        Err(Cause::Line(2)),
    ),
    (
        "other rules of as many octets",
        Some("User-agent: *\nAllow: /example/"),
        Some("User-agent: *\nDisallow:/exampl"),
        120,
        Err(Cause::Line(2)),
    ),
    ("the same rules", Some(RULES), None, 120, Ok(65_536)),
    ("equal rules", Some(RULES), Some(RULES), 120, Ok(65_536)),
    (
        "rules that are too old",
        Some(RULES),
        None,
        86_501,
        Err(Cause::Expired),
    ),
    ("no file, and no policy", None, None, 120, Ok(65_536)),
];

#[derive(Drop)]
struct JudgedRow<'r, 't, R: Wait> {
    rt: &'r R,
    alloc: Global,
    before: Option<&'t str>,
    after: Option<&'t str>,
    moment: u64,
}

impl<R: Wait> Visit for JudgedRow<'_, '_, R> {
    type Output = Result<Result<u64, Cause>, Fail>;

    fn visit<G: Gate>(self, gate: &GateLock<G>) -> Self::Output {
        let rt = self.rt;
        let site = Authority::new(self.alloc, "a.example")?;
        let mut desk = gate.desk(rt, self.alloc)?;
        let judged = judged_ask(rt, self.alloc, &mut desk, &site, self.before, self.after);
        let answer = ask(rt, &mut desk, judged, self.moment);
        desk.close();
        answer
    }
}

// Judges by one text, and brings the other.
fn judged_ask<G: Gate, R: Wait>(
    rt: &R,
    alloc: Global,
    desk: &mut Desk<'_, G>,
    site: &Authority,
    before: Option<&str>,
    after: Option<&str>,
) -> Result<Judged, Fail>
    ensures { KeepsOut desk.old desk.new }
{
    load(rt, alloc, desk, site, before)?;
    let judged = judge(rt, alloc, desk, before.is_some())?;
    if after.is_some() {
        load(rt, alloc, desk, site, after)?;
    }
    Ok(judged)
}

// Begins a turn at 100 and brings at 105 the text's rules, or no robots.txt.
fn load<G: Gate, R: Wait>(
    rt: &R,
    alloc: Global,
    desk: &mut Desk<'_, G>,
    site: &Authority,
    text: Option<&str>,
) -> Result<(), Fail>
    ensures { KeepsOut desk.old desk.new }
{
    let answer = match text {
        Some(text) => Answer::rules(alloc, RobotsText::read(alloc, text.as_bytes())?)?,
        None => Answer::Open(Opening::Unavailable),
    };
    let answer = TimedAnswer::new(answer, LIFE);
    if answer.spares() < 2 {
        return Err(Fail::new("an answer without two spares"));
    }
    let Ok(turn) = desk.begin(rt, site, 100) else {
        return Err(Fail::new("no turn"));
    };
    desk.arrive(rt, turn, answer, 105);
    Ok(())
}

// The ask judged by the policy in force, which exists exactly with rules.
fn judge<G: Gate, R: Wait>(
    rt: &R,
    alloc: Global,
    desk: &Desk<'_, G>,
    has_rules: bool,
) -> Result<Judged, Fail> {
    let token = Token::new(alloc, b"FooBot")?;
    let url = PageUrl::parse(alloc, PAGE)?;
    let policy = {
        let held = desk.lend(rt);
        held.book().hint("a.example", 110)
    };
    if policy.is_some() != has_rules {
        return Err(Fail::new("a policy where there are no rules, or none where there are"));
    }
    Ok(Judged::new(policy, token, url))
}

// The granted number, which is given back, or the cause of the denial.
fn ask<G: Gate, R: Wait>(
    rt: &R,
    desk: &mut Desk<'_, G>,
    judged: Result<Judged, Fail>,
    moment: u64,
) -> Result<Result<u64, Cause>, Fail>
    ensures { KeepsOut desk.old desk.new }
{
    let judged = judged?;
    let answer = {
        let mut held = desk.lend(rt);
        desk.ask_in(&mut held, judged, moment)
    };
    match answer {
        Ok(permit) => {
            let number = permit.number().number();
            desk.back(rt, permit);
            Ok(Ok(number))
        }
        Err(AskRefusal::Denied(denial)) => Ok(Err(denial.cause)),
        Err(_) => Err(Fail::new("another refusal")),
    }
}

#[test]
fn the_answer_under_the_lock_decides(rt: HostRuntime) -> Result<(), Fail> {
    let keys = RandomState::new(&rt)?;
    for (name, before, after, moment, want) in ROWS {
        let row = JudgedRow {
            rt: &rt,
            alloc: rt.alloc(),
            before: *before,
            after: *after,
            moment: *moment,
        };
        if with_gate(book(rt.alloc(), keys, 1_024, 65_536)?, row)? != *want {
            return Err(Fail::new(name));
        }
    }
    Ok(())
}
