//! A device in memory that moves few octets a call and fails at a chosen call.
//! Tests use it instead of a file, a socket or a stream.
ghost use Rattle.std.specs.Prelude.{◌≡◌, ◌<◌, ◌≤◌, ◌↔◌, length, min, Some, IsErr, IfOk};
ghost use Rattle.std.specs.Io.KnownBytes.{ReadConsumes, WriteAppends};
ghost use Rattle.counted_io.specs.Device.{failures_after, one_more};
ghost use Rattle.counted_io.specs.FailAt.{one_call_later, FollowsPlan, HasSameBytes};

use crate::fault::DeviceFault;
use crate::sink::Sink;
use crate::source::Source;
use std::marker::Model;

/// Octets in memory, read from the front and written at the end.
#[derive(Drop)]
pub struct FailAt {
    bytes: Vec<u8>,
    at: usize,
    per_call: usize,
    fails_at: Option<u64>,
    failures: u64,
}

impl Model for FailAt {
    ghost use Rattle.std.specs.Prelude.{◌<◌, ◌≤◌, drop, vec_len};
    ghost use Rattle.counted_io.specs.FailAt.{Memory};

    ghost Value = { Memory };

    ghost view = { λ m. record {
      bytes = m.bytes.items;
      unread = drop m.at m.bytes.items;
      per_call = m.per_call;
      fails_at = m.fails_at;
      failures = m.failures;
    } };

    ghost invariant = { λ m. (m.at ≤ vec_len m.bytes) × (0 < m.per_call) };
}

impl FailAt {
    /// Moves at most `per_call` octets a call. `fails_at` counts the calls before the failing one, so
    /// `Some(0)` fails the first; no other read fails.
    pub fn new(bytes: Vec<u8>, per_call: usize, fails_at: Option<u64>) -> FailAt
        requires { 0 < per_call }
        ensures unread { result.unread ≡ bytes.items }
        ensures bytes { result.bytes ≡ bytes.items }
        ensures per_call { result.per_call ≡ per_call }
        ensures fails_at { result.fails_at ≡ fails_at }
        ensures failures { result.failures ≡ 0 }
    {
        FailAt {
            bytes,
            at: 0,
            per_call,
            fails_at,
            failures: 0,
        }
    }

    /// All octets: those given, then those written.
    pub fn bytes(&self) -> &[u8]
        ensures { result.now ≡ self.now.bytes }
    {
        self.bytes.as_slice()
    }

    /// The octets not yet read.
    pub fn unread(&self) -> &[u8]
        ensures { result.now ≡ self.now.unread }
    {
        &self.bytes.as_slice()[self.at..]
    }

    /// How many calls failed, modulo 2^64.
    pub fn failures(&self) -> u64
        ensures { result ≡ self.now.failures }
    {
        self.failures
    }

    fn fault(&mut self) -> DeviceFault
        ensures same { HasSameBytes self.old self.new }
        ensures fails_at { self.new.fails_at ≡ self.old.fails_at }
        ensures count { self.new.failures ≡ one_more self.old.failures }
    {
        self.failures = self.failures.wrapping_add(1);
        DeviceFault
    }

    fn begin_call(&mut self) -> Result<(), DeviceFault>
        ensures chosen { IsErr result ↔ (self.old.fails_at ≡ Some 0) }
        ensures later { self.new.fails_at ≡ one_call_later self.old.fails_at }
        ensures same { HasSameBytes self.old self.new }
        ensures count { self.new.failures ≡ failures_after self.old.failures result }
    {
        match self.fails_at {
            None => Ok(()),
            Some(0) => {
                self.fails_at = None;
                Err(self.fault())
            }
            Some(calls) => {
                self.fails_at = Some(calls - 1);
                Ok(())
            }
        }
    }
}

impl Source for FailAt {
    ghost left = { λ s. Some s.unread };

    ghost failures = { λ s. s.failures };

    fn read(&mut self, buffer: &mut [u8]) -> Result<usize, DeviceFault>
        ensures bound { IfOk result (λ n. n ≤ length buffer.new) }
        ensures bytes { ReadConsumes (Some self.old.unread) (Some self.new.unread)
            result buffer.new }
        ensures count { self.new.failures ≡ failures_after self.old.failures result }
        ensures plan { FollowsPlan self.old self.new result }
        ensures only { IsErr result → self.old.fails_at ≡ Some 0 }
        ensures moved { IfOk result (λ n.
            n ≡ min (min self.old.per_call (length buffer.old)) (length self.old.unread)) }
    {
        self.begin_call()?;
        let rest = self.unread();
        let count = self.per_call.min(buffer.len()).min(rest.len());
        buffer[..count].copy_from_slice(&rest[..count]);
        self.at += count;
        Ok(count)
    }
}

impl Sink for FailAt {
    ghost written = { λ s. Some s.bytes };

    ghost failures = { λ s. s.failures };

    /// Fails at the chosen call, and if memory runs out.
    fn write(&mut self, bytes: &[u8]) -> Result<usize, DeviceFault>
        ensures bound { IfOk result (λ n. n ≤ length bytes.now) }
        ensures takes { IfOk result (λ n. 0 < length bytes.now → 0 < n) }
        ensures bytes { WriteAppends (Some self.old.bytes) (Some self.new.bytes)
            result bytes.now }
        ensures count { self.new.failures ≡ failures_after self.old.failures result }
        ensures plan { FollowsPlan self.old self.new result }
        ensures moved { IfOk result (λ n. n ≡ min self.old.per_call (length bytes.now)) }
    {
        self.begin_call()?;
        let count = self.per_call.min(bytes.len());
        if self.bytes.extend_from_slice(&bytes[..count]).is_err() {
            return Err(self.fault());
        }
        Ok(count)
    }
}
