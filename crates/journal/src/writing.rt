//! Octets written so that a crash keeps them.
//! Used to begin a journal's files.
ghost use Rattle.std.specs.Prelude.{None};

use crate::file_tape::FileTape;
use crate::tape::{Tape, append_all};
use counted_io::{DeviceFault, Sink};
use std::fs::File;
use std::io;
use std::io::ErrorKind;

/// A new file while the text that begins it is written. Past a fault it only counts, so that who is told of
/// the fault learns how many octets the file needs.
#[derive(Drop)]
pub(crate) struct NewFile {
    tape: io::Result<FileTape<File>>,
    octets: u64,
}

impl NewFile {
    pub fn new(file: io::Result<File>) -> NewFile {
        NewFile {
            tape: file.map(FileTape::new),
            octets: 0,
        }
    }

    /// The octets of all that came.
    pub fn octets(&self) -> u64 {
        self.octets
    }

    /// Waits until a crash keeps all of it.
    pub fn keep(self) -> io::Result<FileTape<File>> {
        synced(self.tape?)
    }

    /// Whether nothing has failed.
    pub fn works(&self) -> bool {
        self.tape.is_ok()
    }

    /// It fails: nothing more is written.
    pub fn fail(&mut self) {
        self.tape = Err(io::Error::from(ErrorKind::Other));
    }

    /// Waits until a crash keeps what came, unless it has failed.
    pub fn sync(&mut self) {
        let Ok(tape) = &mut self.tape else {
            return;
        };
        if tape.sync().is_err() {
            let cause = cause_of(tape);
            self.tape = Err(cause);
        }
    }

    // Appends to the file, unless it has failed.
    fn append(&mut self, bytes: &[u8]) {
        let Ok(tape) = &mut self.tape else {
            return;
        };
        if append_all(tape, bytes).is_err() {
            let cause = cause_of(tape);
            self.tape = Err(cause);
        }
    }
}

/// The system does not tell what a file holds, so no contract knows it.
impl Sink for NewFile {
    ghost written = { λ _. None };

    ghost failures = { λ _. 0 };

    fn write(&mut self, bytes: &[u8]) -> Result<usize, DeviceFault> {
        self.octets = self.octets.saturating_add(bytes.len() as u64);
        self.append(bytes);
        Ok(bytes.len())
    }
}

fn synced(tape: FileTape<File>) -> io::Result<FileTape<File>> {
    let mut tape = tape;
    match tape.sync() {
        Ok(()) => Ok(tape),
        Err(DeviceFault) => Err(cause_of(&tape)),
    }
}

/// Why a call of a tape failed.
pub(crate) fn cause_of(tape: &FileTape<File>) -> io::Error {
    match tape.cause() {
        Some(cause) => cause,
        None => io::Error::from(ErrorKind::Other),
    }
}
