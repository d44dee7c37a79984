//! `FolderBases`: the bases of a journal in a folder, written beside its log.
//! A base gets its name only once it is whole; each piece is synced, so that no sync of the log waits long.
ghost use Rattle.std.specs.Prelude.{None};

use crate::base_shelf::BaseShelf;
use crate::chronicle::Sealer;
use crate::fault::{JournalFault, fault_of};
use crate::folder_files::{look_at, make_new, remove_if_there};
use crate::journaled_sink::CatchesUp;
use crate::meter::JournalMeter;
use crate::names::{NEW_NAME, file_name, path_in};
use crate::pieces::NewBase;
use counted_io::{DeviceFault, Output};
use std::alloc::Global;
use std::fs::{File, Files};
use std::io::ErrorKind;
use std::sync::Arc;
use std::{fs, io};

/// The folder of a journal's bases, with its own handle.
#[derive(Drop)]
pub struct FolderBases<R> {
    pub(crate) rt: R,
    pub(crate) alloc: Global,
    pub(crate) path: String,
    pub(crate) home: File,
    pub(crate) meter: Arc<JournalMeter>,
}

impl<R: Files<File = File>> FolderBases<R> {
    // Whether a file of this name is there.
    fn stands(&self, name: &str) -> io::Result<bool> {
        match fs::symlink_metadata(&self.rt, name) {
            Ok(_) => Ok(true),
            Err(cause) if cause.kind() == ErrorKind::NotFound => Ok(false),
            Err(cause) => Err(cause),
        }
    }

    // Writes a base under the temporary name.
    fn write<K: Sealer, A: CatchesUp>(
        &self,
        sealed: &K::Sealed,
        between: &A,
    ) -> Result<u64, JournalFault> {
        let file = make_new(&self.rt, self.alloc, self.path.as_str());
        let mut output = Output::new(self.alloc)?;
        let mut sink = NewBase::new(file, between);
        if let Err(DeviceFault) = K::write_base(sealed, &mut output, &mut sink) {
            return Err(JournalFault::Device(None));
        }
        let octets = sink.octets();
        match sink.keep() {
            Ok(()) => {
                self.meter.write(octets);
                Ok(octets)
            }
            Err(cause) => Err(fault_of(cause, octets)),
        }
    }

    // Writes a base, and gives it this name.
    fn write_named<K: Sealer, A: CatchesUp>(
        &self,
        sealed: &K::Sealed,
        between: &A,
        name: &str,
    ) -> Result<u64, JournalFault> {
        let new = path_in(self.alloc, self.path.as_str(), NEW_NAME)?;
        let written = self.write::<K, A>(sealed, between);
        let named = match written {
            Ok(octets) => match fs::rename(&self.rt, new.as_str(), name) {
                Ok(()) => Ok(octets),
                Err(cause) => Err(fault_of(cause, octets)),
            },
            Err(fault) => Err(fault),
        };
        if named.is_err() {
            // (what is left is removed by the next try, or the next start)
            let _ = remove_if_there(&self.rt, new.as_str());
        }
        named
    }
}

impl<R: Files<File = File>> BaseShelf for FolderBases<R> {
    ghost last = { λ _. None };

    fn put_base<K: Sealer, A: CatchesUp>(
        &mut self,
        sealed: &K::Sealed,
        entries: u64,
        between: &A,
    ) -> Result<u64, JournalFault> {
        look_at(&self.rt, self.path.as_str(), &self.home)?;
        let name = file_name(self.alloc, entries)?;
        let name = path_in(self.alloc, self.path.as_str(), name.as_str())?;
        match self.stands(name.as_str()) {
            Ok(true) => return Ok(0),
            Ok(false) => {}
            Err(cause) => return Err(JournalFault::Device(Some(cause))),
        }
        let octets = self.write_named::<K, A>(sealed, between, name.as_str())?;
        match self.home.sync_all() {
            Ok(()) => Ok(octets),
            Err(cause) => Err(JournalFault::Device(Some(cause))),
        }
    }
}
