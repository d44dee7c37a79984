//! A new base, which is written and synced by pieces.
//! Used by `FolderBases`.
ghost use Rattle.std.specs.Prelude.{None};

use crate::journaled_sink::CatchesUp;
use crate::writing::NewFile;
use counted_io::{DeviceFault, Sink};
use std::fs::File;
use std::io;

/// The octets of a base that are written and synced at once: where one sync has more to write, those of the log
/// wait for it.
pub const PIECE_OCTETS: u64 = 1_048_576;

/// A new file while a base is written to it, and what comes up between its pieces. Past a fault of the file it
/// only counts.
#[derive(Drop)]
pub(crate) struct NewBase<'a, A: CatchesUp> {
    file: NewFile,
    between: &'a A,
    // The octets that are not synced, and the number of the next piece.
    open: u64,
    number: u64,
}

impl<'a, A: CatchesUp> NewBase<'a, A> {
    pub fn new(file: io::Result<File>, between: &'a A) -> NewBase<'a, A> {
        NewBase {
            file: NewFile::new(file),
            between,
            open: 0,
            number: 1,
        }
    }

    /// The octets of all that came.
    pub fn octets(&self) -> u64 {
        self.file.octets()
    }

    /// Waits until a crash keeps all of it.
    pub fn keep(self) -> io::Result<()> {
        let _ = self.file.keep()?;
        Ok(())
    }

    // Ends a piece. What fails makes the file fail.
    fn end_piece(&mut self) {
        self.open = 0;
        let number = self.number;
        self.number = number.wrapping_add(1);
        self.file.sync();
        if self.file.works() && self.between.catch_up(number).is_err() {
            self.file.fail();
        }
    }
}

/// The system does not tell what a file holds, so no contract knows it.
impl<'a, A: CatchesUp> Sink for NewBase<'a, A> {
    ghost written = { λ _. None };

    ghost failures = { λ _. 0 };

    fn write(&mut self, bytes: &[u8]) -> Result<usize, DeviceFault> {
        let taken = self.file.write(bytes)?;
        self.open = self.open.saturating_add(taken as u64);
        if self.open >= PIECE_OCTETS {
            self.end_piece();
        }
        Ok(taken)
    }
}
