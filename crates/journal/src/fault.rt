//! Why a journal can't begin, or has failed.
//! docs/FAULTS.md has the messages.
use std::alloc::AllocError;
use std::io;
use std::io::ErrorKind;

/// Why a journal has failed, for good: nothing more is written to it, or may be sent.
#[derive(Clone, Copy, Debug)]
pub enum JournalFault {
    /// A write or sync failed, or a file could not be created, for this reason if known.
    Device(Option<io::Error>),
    /// The disk, or what the owner may have of it, has no room for these octets: of the next file, or of what
    /// ends the last one.
    NoRoom(u64),
    /// No memory for a file's name, or for what is allocated at the start.
    NoMemory,
    /// The entries don't continue where the journal ends: another call sealed them.
    Elsewhere,
    /// The folder's name leads to it no more: it was removed, or another was put in its place.
    Gone,
}

impl From<AllocError> for JournalFault {
    ghost use Rattle.std.specs.Prelude.{◌≡◌};
    ghost use Rattle.journal.specs.declared.fault.JournalFault.TheVariants as faults;

    ghost from_gives = { λ _ told. told ≡ faults.NoMemory };

    fn from(_: AllocError) -> JournalFault {
        JournalFault::NoMemory
    }
}

/// The fault of so many octets that can't be written to a file.
pub(crate) fn fault_of(cause: io::Error, octets: u64) -> JournalFault {
    match cause.kind() {
        ErrorKind::StorageFull | ErrorKind::QuotaExceeded => JournalFault::NoRoom(octets),
        ErrorKind::OutOfMemory => JournalFault::NoMemory,
        _ => JournalFault::Device(Some(cause)),
    }
}

/// Why a folder can't be used for a journal.
#[derive(Debug, Drop)]
pub enum FolderFault {
    /// What has this path in it is named as a journal's file is, with something after the twenty digits.
    Altered(String),
    /// What has this path in it, which is a name of a journal's, is no regular file: a link, a pipe, a folder.
    NotRegular(String),
    /// Another process has it.
    InUse,
    /// It can't be made, read or locked, for this reason.
    Device(io::Error),
    /// No memory for its name.
    NoMemory,
}

impl From<io::Error> for FolderFault {
    fn from(cause: io::Error) -> FolderFault {
        FolderFault::Device(cause)
    }
}

impl From<AllocError> for FolderFault {
    fn from(_: AllocError) -> FolderFault {
        FolderFault::NoMemory
    }
}
