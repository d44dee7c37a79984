//! A tape in memory that fails at a chosen call.
//! Tests use it instead of a file.
ghost use Rattle.std.specs.Prelude.{◌≡◌, ◌<◌, length, Some};
ghost use Rattle.journal.specs.Crash.{MayLeave};

use crate::tape::Tape;
use counted_io::{DeviceFault, FailAt, Sink};
use std::marker::Model;

/// Octets in memory; a crash keeps the synced ones.
#[derive(Drop)]
pub struct MemoryTape {
    device: FailAt,
    kept: usize,
}

impl Model for MemoryTape {
    ghost use Rattle.std.specs.Prelude.{◌≤◌, length};
    ghost use Rattle.journal.specs.Taped.{Taped};

    ghost Value = { Taped };

    ghost view = { λ m. record {
      bytes = m.device.bytes;
      kept = m.kept;
      fails_at = m.device.fails_at;
      failures = m.device.failures;
    } };

    ghost invariant = { λ m. m.kept ≤ length m.device.bytes };
}

impl MemoryTape {
    /// Takes at most `per_call` octets a call, after `bytes`, which a crash keeps. `fails_at` counts the
    /// calls, syncs included, before the failing one: `Some(0)` fails the first.
    pub fn new(bytes: Vec<u8>, per_call: usize, fails_at: Option<u64>) -> MemoryTape
        requires { 0 < per_call }
        ensures bytes { result.bytes ≡ bytes.items }
        ensures kept { result.kept ≡ length bytes.items }
        ensures fails_at { result.fails_at ≡ fails_at }
        ensures failures { result.failures ≡ 0 }
    {
        let kept = bytes.len();
        MemoryTape {
            device: FailAt::new(bytes, per_call, fails_at),
            kept,
        }
    }

    /// All octets.
    pub fn bytes(&self) -> &[u8]
        ensures { result.now ≡ self.now.bytes }
    {
        self.device.bytes()
    }

    /// What a crash may leave: what was synced, and up to `more` octets.
    pub fn left(&self, more: usize) -> &[u8]
        ensures { MayLeave self.now.bytes self.now.kept result.now }
    {
        let bytes = self.device.bytes();
        let size = self.kept.saturating_add(more).min(bytes.len());
        &bytes[..size]
    }
}

impl Tape for MemoryTape {
    ghost written = { λ m. Some m.bytes };

    ghost kept = { λ m. m.kept };

    ghost failures = { λ m. m.failures };

    /// Fails at the chosen call, and if memory runs out.
    fn append(&mut self, bytes: &[u8]) -> Result<usize, DeviceFault> {
        self.device.write(bytes)
    }

    fn sync(&mut self) -> Result<(), DeviceFault> {
        self.device.write(&[])?;
        self.kept = self.device.bytes().len();
        Ok(())
    }
}
