//! The records of a robots text, each with its group.
//! RFC 9309, section 2.2.1.
ghost use Rattle.std.specs.Prelude.{◌≡◌};

use crate::record::RecordKind;
use crate::records::Records;

/// A record, and the line number of the user-agent line that begins its group; 0 before the first
/// user-agent line.
#[derive(Clone, Copy, Debug, PartialEq, Eq)]
pub struct GroupedRecord<'a> {
    pub group: u64,
    pub line: u64,
    pub kind: RecordKind<'a>,
}

/// The remaining records, one for each line. Takes no memory.
#[derive(Drop)]
pub struct GroupedRecords<'a> {
    records: Records<'a>,
    group: u64,
    // Whether a user-agent line would begin a group.
    begins: bool,
}

impl<'a> GroupedRecords<'a> {
    ghost use Rattle.robots_text.specs.Grouped.{grouped_from, grouped_left};
    ghost use Rattle.robots_text.specs.Left.{records_left};
    ghost use Rattle.std.specs.Prelude.{true};

    /// The records of a text with their groups.
    pub(crate) fn of(records: Records<'a>) -> GroupedRecords<'a>
        ensures { grouped_left result ≡ grouped_from 0 true (records_left records.entry) }
    {
        GroupedRecords {
            records,
            group: 0,
            begins: true,
        }
    }
}

impl<'a> Iterator for GroupedRecords<'a> {
    ghost use Rattle.std.specs.Iterator.{YieldsFirstBy, item_count};
    ghost use Rattle.robots_text.specs.Grouped.{grouped_left, grouped_seen};

    type Item = GroupedRecord<'a>;

    ghost next_gives = { YieldsFirstBy grouped_seen grouped_left };

    ghost remaining = { item_count grouped_left };

    fn next(&mut self) -> Option<GroupedRecord<'a>> {
        let record = self.records.next()?;
        match record.kind {
            RecordKind::Agent(_) if self.begins => {
                self.group = record.line;
                self.begins = false;
            }
            RecordKind::Rule(_, _) => self.begins = true,
            RecordKind::Agent(_) | RecordKind::Other => {}
        }
        Some(GroupedRecord {
            group: self.group,
            line: record.line,
            kind: record.kind,
        })
    }
}
