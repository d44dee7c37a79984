//! Files opened by names at which others may have put something else: regular files alone, through no link.
//! No open can say so itself, so what a name leads to is looked at before and after.

use crate::fault::FolderFault;
use std::alloc::Global;
use std::fs::{File, Files, Metadata, OpenOptions};
use std::io::ErrorKind;
use std::os::unix::fs::MetadataExt;
use std::{fs, io};

/// Opens a regular file that is there. What a link leads to is not changed, and a pipe is not waited for.
pub(crate) fn open_regular<R: Files<File = File>>(
    rt: &R,
    alloc: Global,
    how: &OpenOptions,
    path: &str,
) -> Result<File, FolderFault> {
    if fs::symlink_metadata(rt, path)?.is_file() {
        let file = how.open(rt, path)?;
        // Something else may have got the name meanwhile.
        let named = fs::symlink_metadata(rt, path)?;
        if named.is_file() && is_same(&named, &file.metadata()?) {
            return Ok(file);
        }
    }
    Err(FolderFault::NotRegular(String::from_str(alloc, path)?))
}

/// Opens a regular file that is there, or tells why the system does not.
pub(crate) fn open_named<R: Files<File = File>>(
    rt: &R,
    alloc: Global,
    how: &OpenOptions,
    path: &str,
) -> io::Result<File> {
    match open_regular(rt, alloc, how, path) {
        Ok(file) => Ok(file),
        Err(FolderFault::Device(cause)) => Err(cause),
        Err(FolderFault::NoMemory) => Err(io::Error::from(ErrorKind::OutOfMemory)),
        Err(_) => Err(io::Error::from(ErrorKind::InvalidInput)),
    }
}

/// Whether a name leads to this open folder. An open folder's number is given to no other.
pub(crate) fn leads_to<R: Files<File = File>>(rt: &R, path: &str, home: &File) -> io::Result<bool> {
    Ok(is_same(&fs::metadata(rt, path)?, &home.metadata()?))
}

fn is_same(one: &Metadata, other: &Metadata) -> bool {
    one.dev() == other.dev() && one.ino() == other.ino()
}
