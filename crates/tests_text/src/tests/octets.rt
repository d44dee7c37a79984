//! Calls over the octets of a path: a pattern, and a policy's verdict by a walk over its text.
//! RFC 9309, sections 2.2.2 and 2.2.3.

use super::demand;
use super::policies::{EXAMPLE, policy_of};
use path_pattern::{Path, Pattern, SuffixArray, empty_room};
use robots_text::Token;
use robots_verdict::laws::{verdict_by_patterns, verdict_plain};
use robots_verdict::{Allowed, Policy, Verdict};
use std::alloc::{AllocError, Global};
use std::test::Fail;

#[test]
fn a_pattern_matches_octets(rt: HostRuntime) -> Result<(), Fail> {
    let pattern = Pattern::new(rt.alloc(), b"/a*b$")?;
    let holds = matches_so(&pattern, b"/abcb", true)
        && matches_so(&pattern, b"/abcc", false)
        && matches_so(&pattern, b"/bcab", false);
    demand(holds, "octets, or a path")
}

fn matches_so(pattern: &Pattern, path: &[u8], want: bool) -> bool {
    pattern.matches(path) == want && pattern.matches_path(&mut Path::new(path)) == want
}

#[test]
fn a_policy_says_the_same_by_its_text(rt: HostRuntime) -> Result<(), Fail> {
    let policy = policy_of(rt.alloc(), EXAMPLE.as_bytes())?;
    demand(says_line_8(rt.alloc(), &policy)?, "by its text")?;
    let indexed = policy.indexed(rt.alloc())?;
    demand(says_line_8(rt.alloc(), &indexed)?, "by its index")
}

fn says_line_8(alloc: Global, policy: &Policy) -> Result<bool, Fail> {
    let token = Token::new(alloc, b"foobot")?;
    let path = b"/example/page.html";
    let want = Verdict::Allow(Allowed::Line(8));
    let by_patterns = verdict_by_patterns(alloc, policy.text(), &token, path)?;
    let by_text = verdict_plain(policy, &token, path);
    Ok(policy.verdict(&token, path) == want && by_text == want && by_patterns == want)
}

// How many other octets follow each `a` of a path, and how many of these it has.
const ROWS: [(&str, usize, usize); 5] = [
    ("at all places", 0, 2_000),
    ("at each second place", 1, 1_000),
    ("at each tenth place", 9, 300),
    ("in each second block", 119, 102),
    ("at few places", 119, 50),
];

#[test]
fn a_path_with_sorted_places_says_the_same(rt: HostRuntime) -> Result<(), Fail> {
    for (name, others, times) in ROWS {
        let piece = repeated(rt.alloc(), b"a", b"b", others)?;
        let path = repeated(rt.alloc(), b"/", piece.as_slice(), times)?;
        let fits = repeated(rt.alloc(), b"/", b"*a", times)?;
        demand(
            says_sorted(rt.alloc(), fits.as_slice(), path.as_slice(), true)?,
            name,
        )?;
        let more = repeated(rt.alloc(), fits.as_slice(), b"*a", 1)?;
        demand(
            says_sorted(rt.alloc(), more.as_slice(), path.as_slice(), false)?,
            name,
        )?;
    }
    Ok(())
}

fn says_sorted(alloc: Global, raw: &[u8], path: &[u8], want: bool) -> Result<bool, AllocError> {
    let pattern = Pattern::new(alloc, raw)?;
    let places = SuffixArray::of(path);
    let mut room = empty_room();
    let sorted = pattern.matches_path(&mut Path::with(path, &places, &mut room));
    Ok(sorted == want && pattern.matches(path) == want)
}

fn repeated(
    alloc: Global,
    front: &[u8],
    piece: &[u8],
    times: usize,
) -> Result<Vec<u8>, AllocError> {
    let mut text = Vec::from_slice(alloc, front)?;
    for _ in 0..times {
        text.extend_from_slice(piece)?;
    }
    Ok(text)
}
