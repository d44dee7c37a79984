//! A tape over a system file.
//! A journal's file is written and synced only through it.
ghost use Rattle.std.specs.Prelude.{◌≡◌, None};
ghost use Rattle.counted_io.specs.Device.{failures_after, one_more};
ghost use Rattle.journal.specs.Parts.{file_failures};

use crate::tape::Tape;
use counted_io::DeviceFault;
use std::fs::{File, OpenFile};
use std::io;
use std::io::{ErrorKind, Seek, SeekFrom, Write};

/// A file opened for appending. A contract does not know its contents: the system promises that written
/// octets outlive the process, and synced ones the machine.
#[derive(Drop)]
pub struct FileTape<F> {
    file: F,
    failures: u64,
    cause: Option<io::Error>,
}

impl<F: Write + OpenFile> FileTape<F> {
    /// A tape without failures so far.
    pub fn new(file: F) -> FileTape<F>
        ensures { file_failures result ≡ 0 }
    {
        FileTape {
            file,
            failures: 0,
            cause: None,
        }
    }

    fn fault(&mut self, cause: io::Error) -> DeviceFault
        ensures { file_failures self.new ≡ one_more (file_failures self.old) }
    {
        self.failures = self.failures.wrapping_add(1);
        self.cause = Some(cause);
        DeviceFault
    }
}

impl FileTape<File> {
    /// Leaves the first octets, and appends after them from now on.
    pub(crate) fn set_end(&mut self, size: u64) -> Result<(), DeviceFault>
        ensures { file_failures self.new ≡ failures_after (file_failures self.old) result }
    {
        let cut = match self.file.set_len(size) {
            Ok(()) => self.file.seek(SeekFrom::Start(size)),
            Err(cause) => Err(cause),
        };
        match cut {
            Ok(_) => Ok(()),
            Err(cause) => Err(self.fault(cause)),
        }
    }
}

impl<F: Write + OpenFile> Tape for FileTape<F> {
    ghost written = { λ _. None };

    ghost kept = { λ _. 0 };

    ghost failures = { file_failures };

    /// A write that takes nothing of a nonempty piece is a failure too.
    fn append(&mut self, bytes: &[u8]) -> Result<usize, DeviceFault> {
        match self.file.write(bytes) {
            Ok(count) if count > 0 || bytes.is_empty() => Ok(count),
            Ok(_) => Err(self.fault(io::Error::from(ErrorKind::WriteZero))),
            Err(cause) => Err(self.fault(cause)),
        }
    }

    fn sync(&mut self) -> Result<(), DeviceFault> {
        match self.file.sync_data() {
            Ok(()) => Ok(()),
            Err(cause) => Err(self.fault(cause)),
        }
    }

    fn cause(&self) -> Option<io::Error> {
        self.cause
    }
}
