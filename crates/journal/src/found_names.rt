//! The names that a start finds in a journal's folder.
//! Used by `Folder::open`.
ghost use Rattle.std.specs.Prelude.{◌≡◌};
ghost use Rattle.journal.specs.NamesRead.{base_count, from_last_but_one, is_base, names_read};

use crate::fault::FolderFault;
use crate::folder_names::{NameKind, kind_of};
use crate::names::{NAME_DIGITS, path_in};
use std::alloc::Global;
use std::fs::{DirEntry, Files};
use std::io::ErrorKind;
use std::{fs, io};

/// The names in a folder that a start needs.
#[derive(Drop)]
pub(crate) struct FoundNames {
    // Those of a journal's files, in order.
    numbered: Vec<String>,
    // Those that are not a journal's, and how many further ones are no UTF-8.
    pub(crate) foreign: Vec<String>,
    pub(crate) unread: u64,
}

/// The names in a folder, each of which is a journal's or left alone.
pub(crate) fn find_names<R: Files + AllocGlobal + Clone + Drop>(
    rt: &R,
    path: &str,
) -> Result<FoundNames, FolderFault> {
    let alloc = rt.alloc();
    let mut names = FoundNames {
        numbered: Vec::new(alloc),
        foreign: Vec::new(alloc),
        unread: 0,
    };
    for entry in fs::read_dir(rt, path)? {
        match entry {
            Ok(entry) => names.take(alloc, path, &entry)?,
            Err(cause) if is_unread(&cause) => names.unread = names.unread.saturating_add(1),
            Err(cause) => return Err(FolderFault::Device(cause)),
        }
    }
    names.numbered.sort_unstable();
    Ok(names)
}

impl FoundNames {
    // Takes a name, unless it must not be in the folder.
    fn take<R: Files + Clone + Drop>(
        &mut self,
        alloc: Global,
        path: &str,
        entry: &DirEntry<R>,
    ) -> Result<(), FolderFault> {
        let name = entry.file_name();
        let kind = kind_of(name);
        match kind {
            NameKind::Foreign => return self.leave(String::from_str(alloc, name)?),
            NameKind::Altered => return Err(FolderFault::Altered(path_in(alloc, path, name)?)),
            NameKind::Numbered | NameKind::Log | NameKind::Own => {}
        }
        if !entry.file_type()?.is_file() {
            return Err(FolderFault::NotRegular(path_in(alloc, path, name)?));
        }
        if kind == NameKind::Own {
            return Ok(());
        }
        match self.numbered.push(String::from_str(alloc, name)?) {
            Ok(()) => Ok(()),
            Err(_) => Err(FolderFault::NoMemory),
        }
    }

    // Notes a name that is left alone.
    fn leave(&mut self, name: String) -> Result<(), FolderFault> {
        match self.foreign.push(name) {
            Ok(()) => Ok(()),
            Err(_) => Err(FolderFault::NoMemory),
        }
    }

    /// The names of the files from the last base but one on.
    pub(crate) fn last(&self) -> &[String]
        ensures { result.now ≡ names_read self.now.numbered.items }
    {
        names_read(self.numbered.as_slice())
    }
}

// Of names in order those that a start reads.
fn names_read(names: &[String]) -> &[String]
    ensures { result.now ≡ names_read names.now }
{
    if base_count(names) == 0 {
        return names;
    }
    from_last_but_one(names)
}

// The names from the last base but one on, or from the only one.
fn from_last_but_one(names: &[String]) -> &[String]
    ensures { result.now ≡ from_last_but_one names.now }
{
    let mut rest = names;
    while let [name, behind @ ..] = rest {
        if is_base(name) && base_count(behind) <= 1 {
            return rest;
        }
        rest = behind;
    }
    rest
}

// How many of these are names of bases.
fn base_count(names: &[String]) -> usize
    ensures { result ≡ base_count names.now }
{
    let mut rest = names;
    let mut count = 0;
    while let [name, behind @ ..] = rest {
        if is_base(name) {
            count += 1;
        }
        rest = behind;
    }
    count
}

fn is_base(name: &String) -> bool
    ensures { result ≡ is_base name.now }
{
    name.len() == NAME_DIGITS
}

/// Whether this is told of a name that is no UTF-8.
pub(crate) fn is_unread(cause: &io::Error) -> bool {
    cause.kind() == ErrorKind::InvalidFilename
}
