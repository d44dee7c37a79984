//! The records of a robots text, borrowed from it one by one.
//! RFC 9309, section 2.2.
ghost use Rattle.std.specs.Prelude.{◌≡◌, ◌≤◌, ◌<◌, ◌+◌, ◌^◌, false, length, map};

use crate::line::cut_line;
use crate::record::{RecordLine, record_in};

/// The remaining records, one for each line. Takes no memory.
#[derive(Drop)]
pub struct Records<'a> {
    rest: &'a [u8],
    line: u64,
    ghost fits: { line + length rest.now ≤ 2 ^ 63 },
}

impl<'a> Records<'a> {
    ghost use Rattle.robots_text.specs.Left.{records_left};
    ghost use Rattle.robots_text.specs.Lines.{lines_from};
    ghost use Rattle.robots_text.specs.Records.{numbered_from, record_of};

    /// The records of a text without its byte order mark.
    pub(crate) fn of(text: &'a [u8]) -> Records<'a>
        requires { length text.now < 2 ^ 63 }
        ensures { records_left result
            ≡ numbered_from 1 (map record_of (lines_from false text.now)) }
    {
        Records {
            rest: text,
            line: 1,
        }
    }
}

impl<'a> Iterator for Records<'a> {
    ghost use Rattle.std.specs.Iterator.{YieldsFirstBy, item_count};
    ghost use Rattle.robots_text.specs.Left.{records_left};
    ghost use Rattle.robots_text.specs.Records.{line_seen};

    type Item = RecordLine<'a>;

    ghost next_gives = { YieldsFirstBy line_seen records_left };

    ghost remaining = { item_count records_left };

    fn next(&mut self) -> Option<RecordLine<'a>> {
        if self.rest.is_empty() {
            return None;
        }
        let (front, rest) = cut_line(self.rest);
        let line = self.line;
        *self = Records {
            rest,
            line: line + 1,
        };
        Some(RecordLine {
            line,
            kind: record_in(front),
        })
    }
}
