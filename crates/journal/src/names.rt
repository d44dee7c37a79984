//! The names of a journal's files: the number of earlier entries, in twenty digits.
//! So `cat FOLDER/*` gives them to an audit in order. docs/FORMATS.md has the texts' first lines.
ghost use Rattle.std.specs.Prelude.{◌≡◌, ◌↔◌, ◌⊎◌, IfSome, IsNone};
ghost use Rattle.journal.specs.Heads.{Agrees};

use std::alloc::{AllocError, Global};

/// The name of an unfinished file. `cat FOLDER/*` skips it.
pub(crate) const NEW_NAME: &str = ".new";

/// The name of the file whose lock protects the folder.
pub(crate) const LOCK_NAME: &str = ".lock";

/// What the name of a log has after its digits.
pub(crate) const LOG_END: &str = ".log";

/// The digits of a file's name.
pub(crate) const NAME_DIGITS: usize = 20;

// The first line of a text without a base, and of one with a base.
const FIRST: &str = "V 2\n";

const FURTHER: &str = "V 3\n";

/// The name of the file after this many entries.
pub fn file_name(alloc: Global, entries: u64) -> Result<String, AllocError> {
    format!(in alloc; "{entries:020}")
}

/// The name of the log after this many entries.
pub fn log_name(alloc: Global, entries: u64) -> Result<String, AllocError> {
    format!(in alloc; "{entries:020}{LOG_END}")
}

/// The path of a file in a folder.
pub(crate) fn path_in(alloc: Global, folder: &str, name: &str) -> Result<String, AllocError> {
    format!(in alloc; "{folder}/{name}")
}

/// How many entries precede the file with this path, in digits as a text has them; no digit for 0.
pub(crate) fn file_digits(path: &str) -> &str {
    let name = match path.rsplit_once('/') {
        Some((_, name)) => name,
        None => path,
    };
    let digits = match name.strip_suffix(LOG_END) {
        Some(digits) => digits,
        None => name,
    };
    digits.trim_start_matches('0')
}

/// The number that these digits are; the greatest one for those of a greater number, as no file has it.
pub(crate) fn number_of(digits: &str) -> u64 {
    if digits.is_empty() {
        return 0;
    }
    digits.parse::<u64>().unwrap_or(u64::MAX)
}

/// What the text of the file with this path begins with.
pub(crate) fn head_of(alloc: Global, path: &str) -> Result<String, AllocError> {
    let digits = file_digits(path);
    if digits.is_empty() {
        String::from_str(alloc, FIRST)
    } else {
        format!(in alloc; "{FURTHER}T {digits} ")
    }
}

/// The line in which a text leaves this head, if it does: the text may end within it.
pub(crate) fn line_unlike(head: &[u8], text: &[u8]) -> Option<u64>
    ensures agrees { IsNone result ↔ Agrees head.now text.now }
    ensures line { IfSome result (λ line. (line ≡ 1) ⊎ (line ≡ 2)) }
{
    if text.starts_with(head) || head.starts_with(text) {
        return None;
    }
    let further = FURTHER.as_bytes();
    if head.starts_with(further) && text.starts_with(further) {
        Some(2)
    } else {
        Some(1)
    }
}
