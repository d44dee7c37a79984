//! The groups that apply to a token, found among a text's lines.
//! RFC 9309, section 2.2.1.
ghost use Rattle.std.specs.Prelude.{◌≡◌, IfOk, map};
ghost use Rattle.std.specs.List.{list_any};
ghost use Rattle.std.specs.List.Sorted.{IsNonDecreasing};
ghost use Rattle.robots_text.specs.Grouped.{grouped_seen};
ghost use Rattle.robots_text.specs.Groups.{names_token};
ghost use Rattle.robots_text.specs.Records.{Record, kind_seen};
ghost use Rattle.robots_text.specs.Walk.{speaks};
ghost use Rattle.robots_check.specs.AgentText.{groups_that};
ghost use Rattle.robots_check.specs.Said.{has_group, speaks_among};

use robots_text::{GroupedRecord, Whom, speaks};
use std::alloc::{AllocError, Global};

/// Whose groups to find: the token's if one of the lines names it, else those for `*`.
pub(crate) fn whom_among<'k>(said: &[GroupedRecord<'_>], word: &'k [u8]) -> Whom<'k>
    ensures { (kind : Record) → speaks result kind
        ≡ speaks_among (map grouped_seen said.now) word.now kind }
{
    if is_named(said, word) {
        Whom::Token(word)
    } else {
        Whom::Everybody
    }
}

fn is_named(said: &[GroupedRecord<'_>], word: &[u8]) -> bool
    ensures { result ≡ list_any (λ line. names_token word.now (kind_seen line.kind)) said.now }
{
    said.iter().any(|line| speaks(Whom::Token(word), line.kind))
}

/// The groups of the lines that speak to them, one for each such line.
pub(crate) fn groups_that(
    alloc: Global,
    said: &[GroupedRecord<'_>],
    whom: Whom<'_>,
) -> Result<Vec<u64>, AllocError>
    ensures { IfOk result (λ groups.
        groups.items ≡ groups_that (speaks whom.entry) (map grouped_seen said.now)) }
{
    let mut groups = Vec::new(alloc);
    for line in said {
        if speaks(whom, line.kind) {
            groups.push(line.group)?;
        }
    }
    Ok(groups)
}

/// Whether a group is one of these, whose numbers don't fall.
pub(crate) fn has_group(groups: &[u64], sought: u64) -> bool
    requires { IsNonDecreasing groups.now }
    ensures { result ≡ has_group groups.now sought }
{
    groups.binary_search(&sought).is_ok()
}
