//! The pipe of `shift --until`: the shift ends early once no process holds it open for writing.
//! Whoever starts the shift holds it, and lets it go, as by Ctrl-C.
use program_commands::{Ending, tell_bad_pipe, tell_no_pipe};
use std::alloc::AllocError;
use std::fs::{File, metadata};
use std::sync::Arc;
use std::sync::atomic::{AtomicBool, Ordering};
use std::thread::Threads;
use std::{io, thread};

/// Whether a shift is asked to end: set once this pipe is at its end, and never without a pipe.
pub(crate) fn asked_by<R: Threads>(
    rt: &R,
    host: &HostRuntime,
    pipe: &Option<String>,
) -> Result<Arc<AtomicBool>, Ending> {
    let Ok(asked) = Arc::new(host.alloc(), AtomicBool::new(false)) else {
        return Err(Ending::NoMemory);
    };
    if let Some(path) = pipe {
        find_pipe(host, path.as_str())?;
        if watch(rt, host, path.as_str(), &asked).is_err() {
            return Err(Ending::NoMemory);
        }
    }
    Ok(asked)
}

// Has a thread of its own read the pipe. It may wait there for ever: it ends with the program.
fn watch<R: Threads>(
    rt: &R,
    host: &HostRuntime,
    path: &str,
    asked: &Arc<AtomicBool>,
) -> Result<(), AllocError> {
    let (host, set) = (*host, Arc::try_clone(asked)?);
    let path = String::from_str(host.alloc(), path)?;
    thread::spawn(rt, move || {
        read_to_end(&host, path.as_str());
        set.store(true, Ordering::SeqCst);
    })?;
    Ok(())
}

// Whether there is such a pipe. (It is not opened here, since that waits until a process opens it for
// writing.)
fn find_pipe(host: &HostRuntime, path: &str) -> Result<(), Ending> {
    match metadata(host, path) {
        Ok(found) if found.is_file() || found.is_dir() => Err(tell_no_pipe(host, path)),
        Ok(_) => Ok(()),
        Err(error) => Err(tell_bad_pipe(host, path, error.kind())),
    }
}

// Reads until no process holds the pipe open for writing, or it can't be read.
fn read_to_end(host: &HostRuntime, path: &str) {
    let read = File::open(host, path).and_then(|mut pipe| io::copy(&mut pipe, &mut io::sink()));
    if let Err(error) = read {
        tell_bad_pipe(host, path, error.kind());
    }
}
