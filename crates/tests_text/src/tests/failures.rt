//! Reads and writes that fail in turn, and the lines in a buffer.
//! The definitions of `counted_io` on real octets.

use super::demand;
use counted_io::{DeviceFault, FailAt, LineReader, ReadLineFault, Source, write_all};
use std::alloc::Global;
use std::test::Fail;

#[test]
fn tells_each_failed_read(rt: HostRuntime) -> Result<(), Fail> {
    for fails_at in 0..4 {
        let input = Vec::from_slice(rt.alloc(), b"ab\nc\n")?;
        let mut source = FailAt::new(input, 2, Some(fails_at));
        demand(tells_one(rt.alloc(), &mut source)?, "one failed read")?;
    }
    Ok(())
}

// Whether one read of the source fails, and is told.
fn tells_one(alloc: Global, source: &mut FailAt) -> Result<bool, Fail> {
    let mut reader = LineReader::new(alloc)?;
    Ok(failed_reads(alloc, source, &mut reader) == 1 && source.failures() == 1)
}

// How many of four reads of a line report a failed source.
fn failed_reads(alloc: Global, source: &mut FailAt, reader: &mut LineReader) -> u64 {
    let mut line = Vec::new(alloc);
    let mut faults = 0u64;
    for _ in 0..4 {
        if reader.next_line(source, 9, &mut line) == Err(ReadLineFault::Read) {
            faults = faults.wrapping_add(1);
        }
    }
    faults
}

#[test]
fn tells_a_line_that_lies_in_the_buffer(rt: HostRuntime) -> Result<(), Fail> {
    let mut source = FailAt::new(Vec::from_slice(rt.alloc(), b"a\nb\nc")?, 9, None);
    demand(
        lies_in_the_buffer(rt.alloc(), &mut source)?,
        "a line in the buffer",
    )
}

fn lies_in_the_buffer(alloc: Global, source: &mut FailAt) -> Result<bool, Fail> {
    let mut reader = LineReader::new(alloc)?;
    Ok(has_lines(alloc, source, &mut reader))
}

fn has_lines(alloc: Global, source: &mut FailAt, reader: &mut LineReader) -> bool {
    let mut line = Vec::new(alloc);
    for want in [false, true, false, false] {
        if reader.has_line() != want || reader.next_line(source, 9, &mut line).is_err() {
            return false;
        }
    }
    true
}

// Which write fails, counted from 0, and how many octets were written before it.
const WRITES: [(u64, usize); 4] = [(0, 0), (1, 3), (2, 6), (3, 8)];

#[test]
fn keeps_what_was_written_before_a_failure(rt: HostRuntime) -> Result<(), Fail> {
    for (fails_at, want) in WRITES {
        let holds = keeps_what_was_written(rt.alloc(), fails_at, want);
        demand(holds, "what was written")?;
    }
    Ok(())
}

fn keeps_what_was_written(alloc: Global, fails_at: u64, want: usize) -> bool {
    let mut sink = FailAt::new(Vec::new(alloc), 3, Some(fails_at));
    let text = b"abcdefgh";
    let written = write_all(&mut sink, text);
    written.is_err() == (fails_at < 3) && sink.bytes() == &text[..want.min(8)]
}

#[test]
fn names_the_faults(rt: HostRuntime) -> Result<(), Fail> {
    let read = ReadLineFault::Read.to_string(rt.alloc())?;
    demand(read.as_str() == "a read failed", "a read")?;
    let memory = ReadLineFault::NoMemory.to_string(rt.alloc())?;
    demand(memory.as_str() == "no memory for a line", "memory")?;
    let device = DeviceFault.to_string(rt.alloc())?;
    demand(device.as_str() == "the device failed", "a device")
}
