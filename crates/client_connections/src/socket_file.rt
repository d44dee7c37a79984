//! A socket file that only its owner can open.
//! Made by `Listener::bind_socket`, and for who accepts by means of their own.

use std::alloc::{AllocError, Global};
use std::fs::{DirBuilder, Files, Permissions};
use std::io::ErrorKind;
use std::net::Net;
use std::os::unix::fs::{DirBuilderExt, FileTypeExt, PermissionsExt};
use std::os::unix::net::{UnixListener, UnixStream};
use std::random::RandomSource;
use std::{fs, io};

// Only its owner reads and writes it.
const OWNERS_FILE: u32 = 0o600;

// Only its owner can enter it.
const OWNERS_FOLDER: u32 = 0o700;

/// Listens at a socket file of this path, which only its owner can open (mode 0600). A socket left by a dead
/// server is replaced; `AddrInUse` if a server still listens, or if the file is no socket. It is made in a
/// folder beside it, which only its owner can enter, so nobody else can open it before its mode is set; then
/// it is moved. The folder's name is drawn, so that nobody who may write there can have taken it.
pub fn bind_socket_file<R: Files + Net + RandomSource>(
    rt: &R,
    alloc: Global,
    path: &str,
) -> io::Result<UnixListener> {
    refuse_taken(rt, path)?;
    let folder = folder_beside(alloc, path, drawn(rt)?)?;
    let made = format!(in alloc; "{folder}/s")?;
    bind_by(rt, folder.as_str(), made.as_str(), path)
}

// A number that nobody can guess.
fn drawn<R: RandomSource>(rt: &R) -> io::Result<u32> {
    let mut octets = [0; 4];
    rt.fill_bytes(&mut octets)?;
    Ok(u32::from_le_bytes(octets))
}

fn folder_beside(alloc: Global, path: &str, number: u32) -> Result<String, AllocError> {
    format!(in alloc; "{path}.{number:08x}")
}

// Makes the socket in this folder, which is there only meanwhile.
fn bind_by<R: Files + Net>(
    rt: &R,
    folder: &str,
    made: &str,
    path: &str,
) -> io::Result<UnixListener> {
    DirBuilder::new().mode(OWNERS_FOLDER).create(rt, folder)?;
    let bound = bind_within(rt, made, path);
    clear(rt, folder, made);
    bound
}

// Removes the folder, and what may be left in it.
fn clear<R: Files + Net>(rt: &R, folder: &str, made: &str) {
    let _ = fs::remove_file(rt, made);
    let _ = fs::remove_dir(rt, folder);
}

// Makes a socket that only its owner can open, and moves it to its path.
fn bind_within<R: Files + Net>(rt: &R, made: &str, path: &str) -> io::Result<UnixListener> {
    let listener = UnixListener::bind(rt, made)?;
    show(rt, made, path)?;
    Ok(listener)
}

// Lets its owner alone open the socket, and moves it to its path.
fn show<R: Files + Net>(rt: &R, made: &str, path: &str) -> io::Result<()> {
    fs::set_permissions(rt, made, Permissions::from_mode(OWNERS_FILE))?;
    fs::rename(rt, made, path)
}

// Refuses a path where a server listens, or that is a file but no socket.
fn refuse_taken<R: Files + Net>(rt: &R, path: &str) -> io::Result<()> {
    match fs::symlink_metadata(rt, path) {
        Ok(found) => refuse_file(rt, path, found.file_type().is_socket()),
        Err(error) if error.kind() == ErrorKind::NotFound => Ok(()),
        Err(error) => Err(error),
    }
}

fn refuse_file<R: Files + Net>(rt: &R, path: &str, is_socket: bool) -> io::Result<()> {
    if is_socket && UnixStream::connect(rt, path).is_err() {
        return Ok(());
    }
    Err(io::Error::from(ErrorKind::AddrInUse))
}
