//! The names in a journal's folder: which are of its files, which a start refuses, and which are left alone.
//! docs/FORMATS.md has the names (The files of a journal); `Folder` reads them.
ghost use Rattle.std.specs.Prelude.{◌≡◌, ◌&&◌};
ghost use Rattle.std.specs.Char.{is_ascii_digit};
ghost use Rattle.std.specs.List.{list_all};
ghost use Rattle.journal.specs.FolderNames.{begins_with_number, kind_behind, kind_of};

use crate::names::{LOCK_NAME, LOG_END, NAME_DIGITS, NEW_NAME};

/// What a name in a journal's folder is of.
#[derive(Clone, Copy, Debug, PartialEq, Eq)]
pub(crate) enum NameKind {
    /// A base of the journal, and perhaps entries behind it: twenty digits. Later files have greater names.
    Numbered,
    /// A log of the journal, entries alone: twenty digits and `.log`.
    Log,
    /// The lock, or the beginning of the next file.
    Own,
    /// Twenty digits and more, as of a file of the journal that was compressed or copied in the folder.
    Altered,
    /// Something else, which is left alone.
    Foreign,
}

/// What a name is of.
pub(crate) fn kind_of(name: &str) -> NameKind
    ensures { result ≡ kind_of name.now }
{
    if begins_with_number(name.as_bytes()) {
        kind_behind(&name.as_bytes()[NAME_DIGITS..])
    } else if name == LOCK_NAME || name == NEW_NAME {
        NameKind::Own
    } else {
        NameKind::Foreign
    }
}

// What a name is of that has this after its number.
fn kind_behind(rest: &[u8]) -> NameKind
    ensures { result ≡ kind_behind rest.now }
{
    if rest.is_empty() {
        NameKind::Numbered
    } else if rest == LOG_END.as_bytes() {
        NameKind::Log
    } else {
        NameKind::Altered
    }
}

fn begins_with_number(name: &[u8]) -> bool
    ensures { result ≡ begins_with_number name.now }
{
    name.len() >= NAME_DIGITS && are_digits(&name[..NAME_DIGITS])
}

fn are_digits(octets: &[u8]) -> bool
    ensures { result ≡ list_all is_ascii_digit octets.now }
{
    octets.iter().all(|octet| octet.is_ascii_digit())
}
