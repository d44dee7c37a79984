//! How much faster a verdict by an index is than one by a walk over the text.
//! That both agree is proved. Only this test shows that the gate's reading is no walk.

use super::policies::policy_of;
use robots_text::Token;
use robots_verdict::{Allowed, Policy, Verdict};
use std::alloc::{AllocError, Global};
use std::test::Fail;
use std::time::Instant;

// How many rules the text has.
const RULES: u64 = 16_000;

// How many times slower the walk must at least be. It takes hundreds.
const TIMES: u128 = 8;

// How many verdicts are timed, for a path without a matching rule.
const VERDICTS: u64 = 64;

const PATH: &[u8] = b"/part3/side9309";

#[test]
fn verdicts_walk_over_no_rules(rt: HostRuntime) -> Result<(), Fail> {
    let text = plain_rules(rt.alloc())?;
    let policy = policy_of(rt.alloc(), text.as_slice())?;
    let token = Token::new(rt.alloc(), b"foobot".as_slice())?;
    let indexed = policy.indexed(rt.alloc())?;
    compares(rt, &policy, &indexed, &token)
}

fn plain_rules(alloc: Global) -> Result<Vec<u8>, AllocError> {
    let mut text = Vec::from_slice(alloc, b"User-agent: *\n")?;
    push_rules(alloc, &mut text)?;
    Ok(text)
}

fn push_rules(alloc: Global, text: &mut Vec<u8>) -> Result<(), AllocError> {
    for rule in 0..RULES {
        let line = format!(in alloc; "Disallow: /part{}/page{rule}\n", rule % 64)?;
        text.extend_from_slice(line.as_bytes())?;
    }
    Ok(())
}

fn compares(rt: HostRuntime, policy: &Policy, indexed: &Policy, token: &Token) -> Result<(), Fail> {
    let by_index = nanos(rt, indexed, token)?;
    let by_walk = nanos(rt, policy, token)?;
    if by_index.saturating_mul(TIMES) < by_walk {
        Ok(())
    } else {
        Err(Fail::new(format_args!("{by_index} ns by the index, {by_walk} by the walk")))
    }
}

fn nanos(rt: HostRuntime, policy: &Policy, token: &Token) -> Result<u128, Fail> {
    let begun = Instant::now(&rt)?;
    let lines = named_lines(policy, token);
    let nanos = begun.elapsed(&rt)?.as_nanos();
    if lines == 0 {
        Ok(nanos)
    } else {
        Err(Fail::new("a rule matches"))
    }
}

// How many of the verdicts name a line.
fn named_lines(policy: &Policy, token: &Token) -> u64 {
    let mut lines: u64 = 0;
    for _ in 0..VERDICTS {
        if policy.verdict(token, PATH) != Verdict::Allow(Allowed::NoRule) {
            lines = lines.saturating_add(1);
        }
    }
    lines
}
