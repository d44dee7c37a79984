//! The user-agent lines and rule lines of a robots text, kept so that the text is read once.
//! RFC 9309, section 2.2.
ghost use Rattle.std.specs.Prelude.{◌≡◌, IfOk, map};
ghost use Rattle.robots_text.specs.Grouped.{grouped_records, grouped_seen};
ghost use Rattle.robots_text.specs.Records.{kind_seen};
ghost use Rattle.robots_check.specs.Notes.{is_said};
ghost use Rattle.robots_check.specs.Said.{said_among};

use robots_text::{GroupedRecord, RecordKind, RobotsText};
use std::alloc::{AllocError, Global};

/// A text, and its lines that say something, with their groups.
#[derive(Drop)]
pub(crate) struct SaidLines<'t> {
    pub(crate) text: &'t RobotsText,
    pub(crate) lines: Vec<GroupedRecord<'t>>,
    ghost are: { map grouped_seen lines.items ≡ said_among (grouped_records text.now) },
}

impl<'t> SaidLines<'t> {
    /// The lines of a text. Walks over it once.
    pub(crate) fn of(alloc: Global, text: &'t RobotsText) -> Result<SaidLines<'t>, AllocError>
        ensures { IfOk result (λ said. said.text.now ≡ text.now) }
    {
        let lines = said_lines(alloc, text)?;
        Ok(SaidLines { text, lines })
    }
}

fn said_lines<'t>(alloc: Global, text: &'t RobotsText) -> Result<Vec<GroupedRecord<'t>>, AllocError>
    ensures { IfOk result (λ lines.
        map grouped_seen lines.items ≡ said_among (grouped_records text.now)) }
{
    let mut lines = Vec::new(alloc);
    let mut left = text.groups();
    while let Some(line) = left.next() {
        if is_said(line.kind) {
            lines.push(line)?;
        }
    }
    Ok(lines)
}

fn is_said(kind: RecordKind<'_>) -> bool
    ensures { result ≡ is_said (kind_seen kind.entry) }
{
    match kind {
        RecordKind::Agent(_) | RecordKind::Rule(_, _) => true,
        RecordKind::Other => false,
    }
}
