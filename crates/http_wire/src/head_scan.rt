//! When to parse a head.
//! RFC 9112, section 2.2. A head that comes octet by octet is parsed twice: at the end of its first
//! line, to reject what is no head, and where an empty line may end it.

use crate::line_ends::{has_empty_line, has_line_end};
use std::mem;

/// How much of a head a scan has seen.
#[derive(Clone, Copy, PartialEq, Eq)]
enum ScanState {
    /// Nothing but empty lines.
    Before,
    /// The beginning of the first nonempty line.
    StartLine,
    /// The end of that line.
    Fields,
    /// More header lines than a head may have.
    Over,
}

/// A scan for the line ends of a head. No answer depends on it.
#[derive(Clone, Copy, PartialEq, Eq)]
pub(crate) struct HeadScan {
    stage: ScanState,
    seen: usize,
}

impl HeadScan {
    /// A scan from the first octet on.
    pub(crate) fn new() -> HeadScan {
        HeadScan {
            stage: ScanState::Before,
            seen: 0,
        }
    }

    /// Whether to parse the text, which begins with the text scanned before.
    pub(crate) fn may_tell(&mut self, text: &[u8]) -> bool {
        let seen = mem::replace(&mut self.seen, text.len());
        match self.stage {
            ScanState::Before => self.begins(text, seen),
            ScanState::StartLine => self.ends_start_line(text, seen),
            ScanState::Fields => has_empty_line(text, seen),
            ScanState::Over => false,
        }
    }

    /// No head within the limits will come any more.
    pub(crate) fn stop(&mut self) {
        self.stage = ScanState::Over;
    }

    fn begins(&mut self, text: &[u8], seen: usize) -> bool {
        match first_of_line(text, seen) {
            Some(first) => self.ends_start_line(text, first),
            None => false,
        }
    }

    fn ends_start_line(&mut self, text: &[u8], from: usize) -> bool {
        let ends = has_line_end(text, from);
        self.stage = if ends {
            ScanState::Fields
        } else {
            ScanState::StartLine
        };
        ends
    }
}

fn first_of_line(text: &[u8], from: usize) -> Option<usize> {
    (from..text.len()).find(|place| !matches!(text[*place], b'\r' | b'\n'))
}
