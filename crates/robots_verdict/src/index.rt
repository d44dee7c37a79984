//! The index of a robots text: its rule lines, strongest first, the ways to find them, and the names of
//! its groups. RFC 9309, section 2.2.2.
ghost use Rattle.std.specs.Prelude.{◌≡◌, ◌+◌, ◌*◌, ◌^◌, ◌<◌, ◌≤◌, ◌++◌, Contains, IfOk, length, map};
ghost use Rattle.robots_text.specs.Lines.{text_limit};
ghost use Rattle.robots_text.specs.Grouped.{grouped_records, grouped_seen, numbered_of, value_octets};
ghost use Rattle.robots_text.specs.Records.{kind_seen, numbered_records};
ghost use Rattle.robots_verdict.specs.Heads.{name_seen};
ghost use Rattle.robots_verdict.specs.Index.{IsIndexOf};
ghost use Rattle.robots_verdict.specs.Placed.{everybody_at, everybody_in, named_at, named_in, placed_at, placed_in};

use crate::heads::{Heads, NamedGroups};
use crate::normal_text::NormalText;
use crate::ranked_rows::RankedRows;
use crate::rows::Rows;
use robots_text::{GroupedRecord, RecordKind, RuleLine};
use std::alloc::{AllocError, Global};

/// The rows, how to find them, and the names.
#[derive(Drop)]
pub(crate) struct Index {
    pub(crate) rows: Rows,
    pub(crate) ranks: RankedRows,
    pub(crate) heads: Heads,
}

impl Index {
    /// The index of a text.
    pub(crate) fn of(alloc: Global, normal: &NormalText) -> Result<Index, AllocError>
        ensures { IfOk result (IsIndexOf normal.now) }
    {
        let (mut rows, names) = read(alloc, normal)?;
        // Spare capacity is freed before the lists of places are made.
        rows.fit();
        rows.sort();
        let ranks = RankedRows::of(alloc, &rows)?;
        let heads = Heads::of(alloc, names)?;
        Ok(Index { rows, ranks, heads })
    }
}

fn read(alloc: Global, normal: &NormalText) -> Result<(Rows, NamedGroups), AllocError>
    ensures rows { IfOk result (λ parts. parts.0.rows ≡ placed_in (grouped_records normal.now)) }
    ensures few { IfOk result (λ parts. length parts.0.rows ≤ text_limit) }
    ensures named { IfOk result (λ parts. map name_seen parts.1.names.items
        ≡ named_in (grouped_records normal.now)) }
    ensures everybody { IfOk result (λ parts. parts.1.everybody.items
        ≡ everybody_in (grouped_records normal.now)) }
{
    let mut rows = Rows::new(alloc);
    let mut names = NamedGroups::new(alloc);
    let mut near = 0;
    let mut records = normal.text().groups();
    while let Some(item) = records.next() {
        take(alloc, normal, &mut near, &mut rows, &mut names, item)?;
    }
    Ok((rows, names))
}

// Adds a record. Its form, if kept, is near this place.
fn take(
    alloc: Global,
    normal: &NormalText,
    near: &mut usize,
    rows: &mut Rows,
    names: &mut NamedGroups,
    item: GroupedRecord<'_>,
) -> Result<(), AllocError>
    requires stands { Contains (numbered_records normal.now) (numbered_of (grouped_seen item)) }
    requires octets { rows.old.octets + 3 * value_octets (kind_seen item.kind) < 2 ^ 24 }
    requires numbers { (item.line < 2 ^ 24) × (item.group < 2 ^ 24) }
    ensures rows { IfOk result (λ _. rows.new.rows
        ≡ rows.old.rows ++ placed_at item.entry.group item.entry.line (kind_seen item.entry.kind)) }
    ensures octets { IfOk result (λ _. rows.new.octets
        ≤ rows.old.octets + 3 * value_octets (kind_seen item.entry.kind)) }
    ensures names { IfOk result (λ _. (map name_seen names.new.names.items
        ≡ map name_seen names.old.names.items
        ++ named_at item.entry.group (kind_seen item.entry.kind))
        × (names.new.everybody.items
        ≡ names.old.everybody.items ++ everybody_at item.entry.group (kind_seen item.entry.kind))) }
{
    match item.kind {
        RecordKind::Agent(who) => names.push(alloc, who, item.group as u32),
        RecordKind::Rule(kind, pattern) => {
            let line = item.line;
            let form = normal.form(
                RuleLine {
                    line,
                    kind,
                    pattern,
                },
                near,
            );
            rows.push(item.group as u32, line as u32, kind, form)
        }
        RecordKind::Other => Ok(()),
    }
}
