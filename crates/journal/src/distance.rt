//! How far the end of a journal's files is from their last base, and what follows from that.
//! The limits are in docs/FORMATS.md.
ghost use Rattle.std.specs.Prelude.{◌≡◌, ◌↔◌, IsTrue};
ghost use Rattle.journal.specs.Bases.{HasTextRoom, IsFar, base_entries, base_files, distance_from, entries_added, file_added, file_octets, most_octets, octets_added, text_entries};

use crate::group::FILE_OCTETS;

/// The entries since the last base, past which another one is due.
pub const BASE_ENTRIES: u64 = 500_000;

/// The files since the last base, past which another one is due.
pub const BASE_FILES: u64 = 24;

/// The entries since the last base, at which no new ones are made until there is another: a start reads as
/// one text what came since the last base but one, and ends it.
pub const TEXT_ENTRIES: u64 = 750_000;

// The part of the files' limit that a base may be behind.
const PART: u64 = 8;

/// What a journal's files have since their last base, and the octets of that base.
#[derive(Clone, Copy, Debug, PartialEq, Eq)]
pub struct Distance {
    /// The entries since then.
    pub entries: u64,
    /// The files since then, without the base.
    pub files: u64,
    /// The octets of those files.
    pub octets: u64,
    /// The octets of the base.
    pub base: u64,
}

impl Distance {
    /// Right behind a base of so many octets.
    pub fn behind(base: u64) -> Distance
        ensures { result ≡ record { entries = 0; files = 0; octets = 0; base = base } }
    {
        Distance {
            entries: 0,
            files: 0,
            octets: 0,
            base,
        }
    }

    /// Whether another base is due, where all files may have so many octets, if that is limited.
    pub fn is_far(&self, limit: Option<u64>) -> bool
        ensures far { IsTrue result ↔ IsFar self.now limit }
        ensures entries { BASE_ENTRIES ≡ base_entries }
        ensures files { BASE_FILES ≡ base_files }
        ensures octets { FILE_OCTETS ≡ file_octets }
    {
        self.entries > BASE_ENTRIES
            || self.files > BASE_FILES
            || (self.octets > most_octets(limit) && self.octets > self.base)
    }

    /// Whether the text since the base has room for entries that are not made yet.
    pub fn has_text_room(&self) -> bool
        ensures room { IsTrue result ↔ HasTextRoom self.now }
        ensures entries { TEXT_ENTRIES ≡ text_entries }
    {
        self.entries < TEXT_ENTRIES
    }

    /// So many octets were written.
    pub(crate) fn add_octets(&mut self, octets: u64)
        ensures { self.new ≡ octets_added self.old octets }
    {
        self.octets = self.octets.saturating_add(octets);
    }

    /// So many entries were written.
    pub(crate) fn add_entries(&mut self, entries: u64)
        ensures { self.new ≡ entries_added self.old entries }
    {
        self.entries = self.entries.saturating_add(entries);
    }

    /// A file was begun.
    pub(crate) fn add_file(&mut self)
        ensures { self.new ≡ file_added self.old }
    {
        self.files = self.files.saturating_add(1);
    }

    /// The distance from a base of so many octets that was put where the distance from the one before was
    /// this.
    pub(crate) fn from(&self, there: Distance, base: u64) -> Distance
        ensures { result ≡ distance_from self.now there base }
    {
        Distance {
            entries: self.entries.saturating_sub(there.entries),
            files: self.files.saturating_sub(there.files),
            octets: self.octets.saturating_sub(there.octets),
            base,
        }
    }
}

// The octets since the last base, past which another one is due if the base has fewer.
fn most_octets(limit: Option<u64>) -> u64
    ensures { result ≡ most_octets limit }
{
    match limit {
        Some(limit) => (limit / PART).min(FILE_OCTETS),
        None => FILE_OCTETS,
    }
}
