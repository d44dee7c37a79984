//! A journal over a tape; it has failed for good once the tape has.
//! What is told to others is written through it first.
ghost use Rattle.std.specs.Prelude.{◌≡◌, false, true, [], OnOk, OnErr};
ghost use Rattle.journal.specs.Journal.{Commits, Fails, Writes, failures_unless};

use crate::tape::{Tape, append_all};
use counted_io::DeviceFault;
use std::marker::Model;

/// A tape, and whether it has failed. After a failed write or sync nobody knows what a crash leaves after
/// the kept octets, so nothing more is written.
#[derive(Drop)]
pub struct Journal<T: Tape> {
    tape: T,
    failed: bool,
}

impl<T: Tape> Model for Journal<T> {
    ghost use Rattle.journal.specs.Journal.{Noted};

    ghost Value = { Noted };

    ghost view = { λ j. record {
      written = T.written j.tape;
      kept = T.kept j.tape;
      failures = T.failures j.tape;
      failed = j.failed;
    } };
}

impl<T: Tape> Journal<T> {
    /// A journal that continues the tape.
    pub fn new(tape: T) -> Journal<T>
        ensures written { result.written ≡ T.written tape }
        ensures kept { result.kept ≡ T.kept tape }
        ensures failures { result.failures ≡ T.failures tape }
        ensures works { result.failed ≡ false }
    {
        Journal {
            tape,
            failed: false,
        }
    }

    /// Whether a write or a sync has failed, as all later calls then do.
    pub fn has_failed(&self) -> bool
        ensures { result ≡ self.now.failed }
    {
        self.failed
    }

    /// The tape, which may know why it failed.
    pub fn tape(&self) -> &T
        ensures written { T.written result.now ≡ self.now.written }
        ensures kept { T.kept result.now ≡ self.now.kept }
        ensures failures { T.failures result.now ≡ self.now.failures }
    {
        &self.tape
    }

    /// The tape alone.
    pub fn into_tape(self) -> T
        ensures written { T.written result ≡ self.written }
        ensures kept { T.kept result ≡ self.kept }
        ensures failures { T.failures result ≡ self.failures }
    {
        self.tape
    }

    /// Appends all of `bytes`. They survive a kill of the process, but perhaps not a crash of the machine.
    /// After a fault a prefix is on the tape, and no call writes again.
    pub fn write(&mut self, bytes: &[u8]) -> Result<(), DeviceFault>
        ensures ok { OnOk result (Writes self.old self.new bytes.now) }
        ensures err { OnErr result (Fails self.old self.new bytes.now) }
        ensures stays { self.old.failed ≡ true → self.new ≡ self.old }
        ensures count { self.new.failures ≡ failures_unless self.old result }
    {
        if self.failed {
            return Err(DeviceFault);
        }
        let written = append_all(&mut self.tape, bytes);
        self.failed = written.is_err();
        written
    }

    /// Appends all of `bytes`, and waits until they survive any crash.
    pub fn commit(&mut self, bytes: &[u8]) -> Result<(), DeviceFault>
        ensures ok { OnOk result (Commits self.old self.new bytes.now) }
        ensures err { OnErr result (Fails self.old self.new bytes.now) }
        ensures stays { self.old.failed ≡ true → self.new ≡ self.old }
        ensures count { self.new.failures ≡ failures_unless self.old result }
    {
        self.write(bytes)?;
        let synced = self.tape.sync();
        self.failed = synced.is_err();
        synced
    }

    /// Waits until all that was written survives any crash.
    pub fn sync(&mut self) -> Result<(), DeviceFault>
        ensures ok { OnOk result (Commits self.old self.new []) }
        ensures err { OnErr result (Fails self.old self.new []) }
        ensures stays { self.old.failed ≡ true → self.new ≡ self.old }
        ensures count { self.new.failures ≡ failures_unless self.old result }
    {
        self.commit(&[])
    }
}
