//! The octets received, and reads of more.
//! A response is read into one buffer, so its octets can be looked at again.
ghost use Rattle.std.specs.Io.KnownBytes.{IsAtEnd};
ghost use Rattle.std.specs.Prelude.{◌≡◌, ◌≤◌, ◌<◌, ◌+◌, ◌-◌, Ok, ◌⊎◌, [], Err, length, drop, take, IfOk, OnOk, OnErr, vec_len};
ghost use Rattle.counted_io.specs.Device.{failures_after};
ghost use Rattle.http_wire.specs.Reading.{Fills, Grows, TakesAtMost, TakesTheRest};
ghost use Rattle.http_wire.specs.Response.{failures_after_reading};

use crate::fault::WireFault;
use crate::limits::MOST_RAW;
use counted_io::{DeviceFault, Source};
use std::alloc::{AllocError, Global};
use std::marker::Model;
use std::mem;

/// How many octets the first read asks for.
const FIRST_READ: usize = 16_384;

/// The result of a read.
#[derive(Clone, Copy, PartialEq, Eq)]
pub(crate) enum Fill {
    /// More octets.
    More,
    /// The end of the input.
    Ended,
    /// An octet past the last that a response may have; it is not kept.
    Past,
}

/// The octets received, at most `MOST_RAW`, followed by room for the next read.
#[derive(Drop)]
pub(crate) struct Buffer {
    room: Vec<u8>,
    end: usize,
}

impl Model for Buffer {
    ghost use Rattle.std.specs.Prelude.{◌≤◌, ℕ, List, take, vec_len};
    ghost use Rattle.http_wire.specs.declared.limits.TheConstants.{MOST_RAW};

    ghost Value = { List ℕ };

    ghost view = { λ buffer. take buffer.end buffer.room.items };

    ghost invariant = { λ buffer. (buffer.end ≤ vec_len buffer.room)
        × (vec_len buffer.room ≤ MOST_RAW) };
}

impl Buffer {
    /// An empty buffer, which takes no memory yet.
    pub(crate) fn new(alloc: Global) -> Buffer
        ensures { result ≡ [] }
    {
        Buffer {
            room: Vec::new(alloc),
            end: 0,
        }
    }

    /// The octets received.
    pub(crate) fn octets(&self) -> &[u8]
        ensures value { result.now ≡ self.now }
        ensures within { length self.now ≤ MOST_RAW }
    {
        &self.room[..self.end]
    }

    /// Appends what one read gives, up to `most` octets in all.
    pub(crate) fn fill<S: Source>(&mut self, source: &mut S, most: usize) -> Result<Fill, WireFault>
        requires few { length self.old ≤ most }
        requires bound { most ≤ MOST_RAW }
        ensures ok { IfOk result (λ fill.
            Fills most (S.left source.old) (S.left source.new) self.old self.new fill) }
        ensures count { S.failures source.new
            ≡ failures_after_reading (S.failures source.old) result }
        ensures err { OnErr result
            ((result ≡ Err WireFault.Device) ⊎ (result ≡ Err WireFault.NoMemory)) }
        ensures within { length self.new ≤ most }
        ensures takes { TakesTheRest most self.old (S.left source.old) (S.left source.new) }
    {
        if self.end == most {
            return self.look_past(source, most);
        }
        make_room(&mut self.room, self.end, most)?;
        let count = read_behind(source, self.room.as_mut_slice(), self.end, most)?;
        self.end += count;
        if count == 0 {
            Ok(Fill::Ended)
        } else {
            Ok(Fill::More)
        }
    }

    /// Hands out `len` octets from `start` on, in the memory of the buffer.
    pub(crate) fn hand_out(&mut self, alloc: Global, start: usize, len: usize) -> Vec<u8>
        requires { start + len ≤ length self.old }
        ensures { result.items ≡ take len (drop start self.old) }
    {
        let mut octets = mem::replace(&mut self.room, Vec::new(alloc));
        self.end = 0;
        octets.as_mut_slice().copy_within(start..start + len, 0);
        octets.truncate(len);
        octets
    }

    fn look_past<S: Source>(&self, source: &mut S, most: usize) -> Result<Fill, WireFault>
        requires { length self.now ≡ most }
        ensures ok { IfOk result (λ fill.
            Fills most (S.left source.old) (S.left source.new) self.now self.now fill) }
        ensures count { S.failures source.new
            ≡ failures_after_reading (S.failures source.old) result }
        ensures err { OnErr result (result ≡ Err WireFault.Device) }
        ensures takes { TakesAtMost 1 (S.left source.old) (S.left source.new) }
    {
        match source.read(&mut [0])? {
            0 => Ok(Fill::Ended),
            _ => Ok(Fill::Past),
        }
    }
}

// Room for an octet after the first `end`; doubles a full buffer, up to `most` octets.
fn make_room(room: &mut Vec<u8>, end: usize, most: usize) -> Result<(), AllocError>
    requires within { end ≤ vec_len room.old }
    requires not_full { end < most }
    requires small { (vec_len room.old ≤ MOST_RAW) × (most ≤ MOST_RAW) }
    ensures kept { take end room.new.items ≡ take end room.old.items }
    ensures more { OnOk result (end < vec_len room.new) }
    ensures bounds { (end ≤ vec_len room.new) × (vec_len room.new ≤ MOST_RAW) }
{
    if end == room.len() {
        room.resize((end * 2).max(FIRST_READ).min(most), 0)?;
    }
    Ok(())
}

// Reads octets into the room after the first `end`, so that it has at most `most` of them.
fn read_behind<S: Source>(
    source: &mut S,
    room: &mut [u8],
    end: usize,
    most: usize,
) -> Result<usize, DeviceFault>
    requires { (end < length room.old) × (end < most) }
    ensures ok { IfOk result (λ count. end + count ≤ length room.new
        × Grows (S.left source.old) (S.left source.new)
        (take end room.old) (take (end + count) room.new)) }
    ensures few { IfOk result (λ count. end + count ≤ most) }
    ensures ended { result ≡ Ok 0 → IsAtEnd (S.left source.old) }
    ensures kept { (length room.new ≡ length room.old) × (take end room.new ≡ take end room.old) }
    ensures takes { TakesAtMost (most - end) (S.left source.old) (S.left source.new) }
    ensures count { S.failures source.new ≡ failures_after (S.failures source.old) result }
{
    let upto = room.len().min(most);
    source.read(&mut room[end..upto])
}
