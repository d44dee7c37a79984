//! `Folder`: a folder with a journal's files, for one process at a time.
//! A file with a base gets its name only once it has the whole base. A log has its name from the beginning.
use crate::chronicle::Chronicle;
use crate::fault::{FolderFault, JournalFault, fault_of};
use crate::file_tape::FileTape;
use crate::folder_bases::FolderBases;
use crate::folder_files::{look_at, make_new, open_empty, remove_if_there};
use crate::folder_names::{NameKind, kind_of};
use crate::found_names::{FoundNames, find_names, is_unread};
use crate::last_files::{FilePlace, LastFiles};
use crate::meter::JournalMeter;
use crate::metered_tape::{MeteredTape, time_since};
use crate::names::{LOCK_NAME, NEW_NAME, file_name, log_name, path_in};
use crate::position::JournalPosition;
use crate::regular::open_regular;
use crate::shelf::{BegunFile, Shelf};
use crate::writing::NewFile;
use counted_io::{DeviceFault, Output};
use std::alloc::{AllocError, Global};
use std::fs::{DirBuilder, DirEntry, File, Files, TryLockError};
use std::io::ErrorKind;
use std::os::unix::fs::DirBuilderExt;
use std::sync::Arc;
use std::time::{Clock, Instant};
use std::{fs, io};

// A folder that is made is its owner's alone.
const FOLDER_MODE: u32 = 0o700;

/// A folder, and this process's lock on it, released on drop.
#[derive(Drop)]
pub struct Folder<R> {
    rt: R,
    alloc: Global,
    path: String,
    // The folder itself, whatever its name leads to later.
    home: File,
    lock: File,
    // The names in it at the start.
    names: FoundNames,
    meter: Arc<JournalMeter>,
}

impl<R: Files<File = File> + AllocGlobal + Clock + Clone + Drop> Folder<R> {
    /// Makes the folder if needed, and locks it. What has a journal's name in it must be a regular file, and no
    /// name may be that of a journal's file with something after it. Other names are left alone.
    pub fn open(rt: R, path: &str) -> Result<Folder<R>, FolderFault> {
        let alloc = rt.alloc();
        let home = open_home(&rt, path)?;
        let lock_path = path_in(alloc, path, LOCK_NAME)?;
        let lock = lock(&rt, alloc, lock_path.as_str())?;
        let names = find_names(&rt, path)?;
        let path = String::from_str(alloc, path)?;
        let meter = Arc::new(alloc, JournalMeter::new()).map_err(AllocError::from)?;
        Ok(Folder {
            rt,
            alloc,
            path,
            home,
            lock,
            names,
            meter,
        })
    }

    /// The last files when it was opened, from whose texts a journal continues, if there is one: those from the
    /// last base but one on. An incomplete file doesn't count; the next one replaces it.
    pub fn last_files(&self) -> Result<Option<LastFiles<R>>, FolderFault> {
        let names = self.names.last();
        if names.is_empty() {
            return Ok(None);
        }
        let mut places = Vec::new(self.alloc);
        places.reserve(names.len())?;
        for name in names {
            places
                .push(self.place_of(name.as_str())?)
                .map_err(AllocError::from)?;
        }
        Ok(Some(LastFiles::new(self.alloc, places)?))
    }

    fn place_of(&self, name: &str) -> Result<FilePlace<R>, FolderFault> {
        Ok(FilePlace {
            rt: self.rt.clone()?,
            alloc: self.alloc,
            path: path_in(self.alloc, self.path.as_str(), name)?,
            kind: kind_of(name),
        })
    }

    /// The names that were there when it was opened and are not a journal's.
    pub fn foreign_names(&self) -> &[String] {
        self.names.foreign.as_slice()
    }

    /// How many further names were there that are no UTF-8, and so not a journal's.
    pub fn unread_names(&self) -> u64 {
        self.names.unread
    }

    // Makes a log, or takes up one without octets.
    fn make_log(&self, entries: u64) -> io::Result<MeteredTape<FileTape<File>, R>> {
        let name = log_name(self.alloc, entries)?;
        let path = path_in(self.alloc, self.path.as_str(), name.as_str())?;
        let file = open_empty(&self.rt, self.alloc, path.as_str())?;
        // A synced folder keeps its names in a crash.
        self.home.sync_all()?;
        Ok(MeteredTape {
            tape: FileTape::new(file),
            meter: self.meter.clone()?,
            rt: self.rt.clone()?,
        })
    }

    // Waits until a crash keeps the new file.
    fn keep_new(&self, file: NewFile) -> io::Result<FileTape<File>> {
        let octets = file.octets();
        let begun = Instant::now(&self.rt).ok();
        let tape = file.keep()?;
        self.meter.write(octets);
        self.meter.sync(time_since(&self.rt, begun));
        Ok(tape)
    }

    // Removes a log after so many entries, if it has no octet: entries follow in the file that gets its number.
    fn leave_out_log(&self, entries: u64) -> io::Result<()> {
        let name = log_name(self.alloc, entries)?;
        let path = path_in(self.alloc, self.path.as_str(), name.as_str())?;
        match fs::symlink_metadata(&self.rt, path.as_str()) {
            Ok(about) if about.len() == 0 => remove_if_there(&self.rt, path.as_str()),
            Ok(_) => Err(io::Error::from(ErrorKind::AlreadyExists)),
            Err(cause) if cause.kind() == ErrorKind::NotFound => Ok(()),
            Err(cause) => Err(cause),
        }
    }

    // Waits until a crash keeps the new file, and then gives it its name.
    fn name_new(&self, file: NewFile, entries: u64) -> io::Result<MeteredTape<FileTape<File>, R>> {
        let tape = self.keep_new(file)?;
        self.leave_out_log(entries)?;
        let new = path_in(self.alloc, self.path.as_str(), NEW_NAME)?;
        let name = file_name(self.alloc, entries)?;
        let name = path_in(self.alloc, self.path.as_str(), name.as_str())?;
        fs::rename(&self.rt, new.as_str(), name.as_str())?;
        // A synced folder keeps its names in a crash.
        self.home.sync_all()?;
        Ok(MeteredTape {
            tape,
            meter: self.meter.clone()?,
            rt: self.rt.clone()?,
        })
    }
}

impl<R: Files<File = File> + AllocGlobal + Clock + Clone + Drop> Shelf for Folder<R> {
    type Tape = MeteredTape<FileTape<File>, R>;

    type Bases = FolderBases<R>;

    fn put_up<H: Chronicle>(
        &mut self,
        chronicle: &H,
        output: &mut Output,
    ) -> Result<BegunFile<MeteredTape<FileTape<File>, R>>, JournalFault> {
        self.look()?;
        let mut file = NewFile::new(make_new(&self.rt, self.alloc, self.path.as_str()));
        let place = match chronicle.begin(output, &mut file) {
            Ok(place) => place,
            Err(DeviceFault) => return Err(JournalFault::Device(None)),
        };
        let octets = file.octets();
        match self.name_new(file, place.begun) {
            Ok(tape) => Ok(BegunFile {
                tape,
                place,
                octets,
            }),
            Err(cause) => Err(fault_of(cause, octets)),
        }
    }

    fn put_log(
        &mut self,
        entries: u64,
    ) -> Result<BegunFile<MeteredTape<FileTape<File>, R>>, JournalFault> {
        self.look()?;
        match self.make_log(entries) {
            Ok(tape) => Ok(BegunFile {
                tape,
                place: JournalPosition::after(entries),
                octets: 0,
            }),
            Err(cause) if cause.kind() == ErrorKind::OutOfMemory => Err(JournalFault::NoMemory),
            Err(cause) => Err(JournalFault::Device(Some(cause))),
        }
    }

    /// A base that an earlier process did not finish is removed.
    fn bases(&self) -> Result<FolderBases<R>, JournalFault> {
        let new = path_in(self.alloc, self.path.as_str(), NEW_NAME)?;
        if let Err(cause) = remove_if_there(&self.rt, new.as_str()) {
            return Err(JournalFault::Device(Some(cause)));
        }
        let home = match self.home.try_clone() {
            Ok(home) => home,
            Err(cause) => return Err(JournalFault::Device(Some(cause))),
        };
        Ok(FolderBases {
            rt: self.rt.clone()?,
            alloc: self.alloc,
            path: self.path.clone()?,
            home,
            meter: self.meter.clone()?,
        })
    }

    fn octets(&self) -> Result<u64, JournalFault> {
        match octets_in(&self.rt, self.path.as_str()) {
            Ok(octets) => Ok(octets),
            Err(cause) => Err(JournalFault::Device(Some(cause))),
        }
    }

    fn meter(&self) -> Result<Option<Arc<JournalMeter>>, AllocError> {
        Ok(Some(self.meter.clone()?))
    }

    fn look(&self) -> Result<(), JournalFault> {
        look_at(&self.rt, self.path.as_str(), &self.home)
    }
}

// The octets of a journal's files in a folder.
fn octets_in<R: Files + AllocGlobal + Clone + Drop>(rt: &R, path: &str) -> io::Result<u64> {
    let mut octets: u64 = 0;
    for entry in fs::read_dir(rt, path)? {
        match entry {
            Ok(entry) => octets = octets.saturating_add(octets_of(&entry)?),
            Err(cause) if is_unread(&cause) => {}
            Err(cause) => return Err(cause),
        }
    }
    Ok(octets)
}

// The octets of a file, if it is a journal's and was not removed meanwhile.
fn octets_of<R: Files + Clone + Drop>(entry: &DirEntry<R>) -> io::Result<u64> {
    if kind_of(entry.file_name()) == NameKind::Foreign {
        return Ok(0);
    }
    match entry.metadata() {
        Ok(about) => Ok(about.len()),
        Err(cause) if cause.kind() == ErrorKind::NotFound => Ok(0),
        Err(cause) => Err(cause),
    }
}

// Makes a folder, if there is none, and opens it.
fn open_home<R: Files<File = File>>(rt: &R, path: &str) -> io::Result<File> {
    match DirBuilder::new().mode(FOLDER_MODE).create(rt, path) {
        Err(cause) if cause.kind() != ErrorKind::AlreadyExists => return Err(cause),
        _ => {}
    }
    if !fs::metadata(rt, path)?.is_dir() {
        return Err(io::Error::from(ErrorKind::NotADirectory));
    }
    File::open(rt, path)
}

// Locks a folder, without waiting.
fn lock<R: Files<File = File>>(rt: &R, alloc: Global, path: &str) -> Result<File, FolderFault> {
    let file = open_lock(rt, alloc, path)?;
    match file.try_lock() {
        Ok(()) => Ok(file),
        Err(TryLockError::WouldBlock) => Err(FolderFault::InUse),
        Err(TryLockError::Error(cause)) => Err(FolderFault::Device(cause)),
    }
}

// Makes the file of the lock, or opens the one that is there.
fn open_lock<R: Files<File = File>>(
    rt: &R,
    alloc: Global,
    path: &str,
) -> Result<File, FolderFault> {
    let mut how = File::options();
    how.write(true);
    let mut new = File::options();
    new.write(true).create_new(true);
    match new.open(rt, path) {
        Err(cause) if cause.kind() == ErrorKind::AlreadyExists => {
            open_regular(rt, alloc, &how, path)
        }
        made => Ok(made?),
    }
}
