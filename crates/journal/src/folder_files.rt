//! The files of a journal's folder: made, removed, and looked for.
//! Used by `Folder` and `FolderBases`.

use crate::fault::JournalFault;
use crate::names::{NEW_NAME, path_in};
use crate::regular::{leads_to, open_named};
use std::alloc::Global;
use std::fs::{File, Files};
use std::io::ErrorKind;
use std::{fs, io};

/// Makes a file with a temporary name in a folder.
pub(crate) fn make_new<R: Files<File = File>>(
    rt: &R,
    alloc: Global,
    folder: &str,
) -> io::Result<File> {
    let new = path_in(alloc, folder, NEW_NAME)?;
    remove_if_there(rt, new.as_str())?;
    File::options()
        .write(true)
        .create_new(true)
        .open(rt, new.as_str())
}

/// Makes a file, or opens one that is there and has no octet.
pub(crate) fn open_empty<R: Files<File = File>>(
    rt: &R,
    alloc: Global,
    path: &str,
) -> io::Result<File> {
    let mut new = File::options();
    new.write(true).create_new(true);
    match new.open(rt, path) {
        Err(cause) if cause.kind() == ErrorKind::AlreadyExists => {}
        made => return made,
    }
    let mut how = File::options();
    how.write(true);
    let file = open_named(rt, alloc, &how, path)?;
    if file.metadata()?.len() > 0 {
        return Err(io::Error::from(ErrorKind::AlreadyExists));
    }
    Ok(file)
}

/// Removes a file, if it is there.
pub(crate) fn remove_if_there<R: Files>(rt: &R, path: &str) -> io::Result<()> {
    match fs::remove_file(rt, path) {
        Err(cause) if cause.kind() != ErrorKind::NotFound => Err(cause),
        _ => Ok(()),
    }
}

/// Whether a folder is still where it was: `Gone` if not.
pub(crate) fn look_at<R: Files<File = File>>(
    rt: &R,
    path: &str,
    home: &File,
) -> Result<(), JournalFault> {
    match leads_to(rt, path, home) {
        Ok(true) => Ok(()),
        Ok(false) => Err(JournalFault::Gone),
        Err(cause) if cause.kind() == ErrorKind::NotFound => Err(JournalFault::Gone),
        Err(cause) => Err(JournalFault::Device(Some(cause))),
    }
}
