//! The last files of a journal that an earlier process wrote, from which it goes on: those from the last base
//! but one on, so that a base that was changed is found.
//! What was open at their end is ended in the last one before a new file begins, so `cat FOLDER/*` stays one
//! history.

use crate::counting::{NumberedFile, first_misplaced};
use crate::cutting::{TextEnd, end_text};
use crate::distance::Distance;
use crate::fault::{JournalFault, fault_of};
use crate::file_tape::FileTape;
use crate::folder_names::{NameKind, kind_of};
use crate::joined::{Joined, TextPlace};
use crate::names::{file_digits, head_of, line_unlike, number_of};
use crate::regular::open_named;
use crate::text_read::EntriesAt;
use crate::writing::cause_of;
use std::alloc::{AllocError, Global};
use std::fs::{File, Files};
use std::io;
use std::io::Read;
use std::os::unix::fs::FileExt;

// More octets than the longest head has.
const HEAD: usize = 32;

/// A line of a file, numbered from 1.
#[derive(Clone, Copy, Debug)]
pub struct FileLine<'a> {
    /// The file's path.
    pub path: &'a str,
    pub line: u64,
}

/// A file of a journal that is there, by its path, which ends in its name.
#[derive(Drop)]
pub(crate) struct FilePlace<R> {
    pub(crate) rt: R,
    pub(crate) alloc: Global,
    pub(crate) path: String,
    pub(crate) kind: NameKind,
}

impl<R: Files<File = File> + Drop> FilePlace<R> {
    fn number(&self) -> u64 {
        number_of(file_digits(self.path.as_str()))
    }

    // The first line that isn't what the file's name says, as far as the file goes. A log has no such line.
    fn misnamed(&self) -> io::Result<Option<FileLine<'_>>> {
        if self.kind == NameKind::Log {
            return Ok(None);
        }
        let head = head_of(self.alloc, self.path.as_str())?;
        let file = TextPlace::open(self)?;
        let mut begin = [0; HEAD];
        let count = file.read_at(&mut begin, 0)?;
        let line = line_unlike(head.as_bytes(), &begin[..count]);
        Ok(line.map(|line| self.at(line)))
    }

    fn at(&self, line: u64) -> FileLine<'_> {
        FileLine {
            path: self.path.as_str(),
            line,
        }
    }
}

impl<R: Files<File = File> + Drop> TextPlace for FilePlace<R> {
    ghost use Rattle.std.specs.Prelude.{None};

    type Text = File;

    ghost octets = { λ _. None };

    fn open(&self) -> io::Result<File> {
        let mut how = File::options();
        how.read(true);
        open_named(&self.rt, self.alloc, &how, self.path.as_str())
    }

    fn entries_at(&self) -> EntriesAt {
        match self.kind {
            NameKind::Log => EntriesAt::Here,
            _ if file_digits(self.path.as_str()).is_empty() => EntriesAt::NextLine,
            _ => EntriesAt::BehindBase,
        }
    }
}

/// A journal's last files, at least one, whose texts are read in order as one: each is opened when it is read,
/// and closed behind it. To be read once.
#[derive(Drop)]
pub struct LastFiles<R: Files<File = File> + Drop> {
    alloc: Global,
    texts: Joined<FilePlace<R>, File>,
}

impl<R: Files<File = File> + Drop> LastFiles<R> {
    pub(crate) fn new(
        alloc: Global,
        places: Vec<FilePlace<R>>,
    ) -> Result<LastFiles<R>, AllocError> {
        Ok(LastFiles {
            alloc,
            texts: Joined::new(alloc, places)?,
        })
    }

    /// The last file's path.
    pub fn path(&self) -> &str {
        match self.texts.places().last() {
            Some(place) => place.path.as_str(),
            None => "",
        }
    }

    /// The path of the first file that is read.
    pub fn first_path(&self) -> &str {
        match self.texts.places().first() {
            Some(place) => place.path.as_str(),
            None => "",
        }
    }

    /// Whether the first file that is read is a log: then no base is before it, and no start can go on from it.
    pub fn lacks_base(&self) -> bool {
        match self.texts.places().first() {
            Some(place) => place.kind == NameKind::Log,
            None => false,
        }
    }

    /// The first line in which a file's begin isn't what its name says: `V 2` after no entry, and else a base
    /// of as many entries. A log begins with any entry.
    pub fn misnamed(&self) -> io::Result<Option<FileLine<'_>>> {
        for place in self.texts.places() {
            let line = place.misnamed()?;
            if line.is_some() {
                return Ok(line);
            }
        }
        Ok(None)
    }

    /// After how many entries the first file that is read begins, in digits, if a base before it is not here.
    pub fn begins_alone(&self) -> Option<&str> {
        digits_alone(self.texts.places())
    }

    /// Which line of which file that is, of all that was read.
    pub fn line_of(&self, line: u64) -> FileLine<'_> {
        let line = self.texts.line(line);
        match self.texts.places().get(line.part) {
            Some(place) => place.at(line.line),
            None => FileLine {
                path: "",
                line: line.line,
            },
        }
    }

    /// How many of the first octets of all are the last file's; none if none is.
    pub fn in_last(&self, octets: u64) -> Option<u64> {
        let own = self.texts.in_last(octets)?;
        // (a base without a line is none; a log may have no entry yet)
        if own == 0 && !self.ends_with_log() {
            return None;
        }
        Some(own)
    }

    fn ends_with_log(&self) -> bool {
        match self.texts.places().last() {
            Some(place) => place.kind == NameKind::Log,
            None => false,
        }
    }

    /// How many octets the last file has behind the first so many.
    pub fn torn(&self, whole: u64) -> u64 {
        match self
            .texts
            .read_of(self.texts.places().len().saturating_sub(1))
        {
            Some(read) => read.octets.saturating_sub(whole),
            None => 0,
        }
    }

    /// The path of the first file that is not named by the count of entries before it, where all have so many
    /// entries: a file before it is not here, or is another's. To be asked when all was read, or up to the file
    /// with a bad line, then with no count.
    pub fn first_misplaced(&self, entries: Option<u64>) -> Result<Option<&str>, AllocError> {
        let files = self.numbered()?;
        match first_misplaced(files.as_slice(), entries) {
            Some(part) => Ok(
                self.texts
                    .places()
                    .get(part)
                    .map(|place| place.path.as_str()),
            ),
            None => Ok(None),
        }
    }

    /// How far the end of all files is from the last base, where they have so many entries.
    pub fn distance(&self, entries: u64) -> Distance {
        let mut distance = Distance::behind(0);
        for (part, place) in self.texts.places().iter().enumerate() {
            let Some(read) = self.texts.read_of(part) else {
                return distance;
            };
            if place.kind == NameKind::Log {
                if read.octets > 0 {
                    distance.add_file();
                }
                distance.add_octets(read.octets);
            } else {
                distance = Distance::behind(read.octets);
                distance.add_entries(entries.saturating_sub(place.number()));
            }
        }
        distance
    }

    // The numbers of the files that were read, and their entries.
    fn numbered(&self) -> Result<Vec<NumberedFile>, AllocError> {
        let mut files = Vec::new(self.alloc);
        for (part, place) in self.texts.places().iter().enumerate() {
            let Some(read) = self.texts.read_of(part) else {
                return Ok(files);
            };
            files.push(NumberedFile {
                number: place.number(),
                entries: read.text.entries,
            })?;
        }
        Ok(files)
    }

    /// Cuts the last file after this many octets, appends these, and waits until a crash keeps both. If that
    /// fails, as on a full disk, the file is cut there again, so that it ends with the line before them.
    pub fn end(self, whole: u64, ending: &[u8]) -> Result<(), JournalFault> {
        let file = match self.open_last() {
            Ok(file) => file,
            Err(cause) => return Err(fault_of(cause, ending.len() as u64)),
        };
        let mut tape = FileTape::new(file);
        match end_text(&mut tape, whole, ending) {
            TextEnd::Appended => Ok(()),
            TextEnd::Uncut | TextEnd::Undone | TextEnd::Torn => {
                Err(fault_of(cause_of(&tape), ending.len() as u64))
            }
        }
    }

    // Opens the last file for writing.
    fn open_last(&self) -> io::Result<File> {
        let mut how = File::options();
        how.read(true).write(true);
        match self.texts.places().last() {
            Some(place) => open_named(&place.rt, place.alloc, &how, place.path.as_str()),
            None => Err(io::Error::from(io::ErrorKind::NotFound)),
        }
    }
}

impl<R: Files<File = File> + Drop> Read for LastFiles<R> {
    fn read(&mut self, buf: &mut [u8]) -> io::Result<usize> {
        self.texts.read(buf)
    }
}

fn digits_alone<R: Files<File = File> + Drop>(places: &[FilePlace<R>]) -> Option<&str> {
    let digits = file_digits(places.first()?.path.as_str());
    let bases = places
        .iter()
        .filter(|place| place.kind != NameKind::Log)
        .count();
    if bases > 1 || digits.is_empty() {
        return None;
    }
    Some(digits)
}
