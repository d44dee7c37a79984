//! Outputs, and std readers and writers with counted failures.
//! The definitions of `counted_io` on real octets.

use super::demand;
use counted_io::{Counted, DeviceFault, FailAt, OUTPUT_BUFFER, Output, Sink, Source, write_all};
use std::alloc::Global;
use std::io;
use std::io::Write;
use std::test::Fail;

// One octet more than an output holds.
const LARGE: usize = 65537;

#[test]
fn writes_once_the_buffer_is_full(rt: HostRuntime) -> Result<(), Fail> {
    let mut output = Output::new(rt.alloc())?;
    demand(writes_once_full(rt.alloc(), &mut output), "what is written")
}

fn writes_once_full(alloc: Global, output: &mut Output) -> bool {
    let large = [7; LARGE];
    let mut sink = FailAt::new(Vec::new(alloc), OUTPUT_BUFFER, None);
    has_written(output, &mut sink, b"abc", 0)
        && has_written(output, &mut sink, &large[5..], 0)
        && has_written(output, &mut sink, b"d", 0)
        && has_written(output, &mut sink, b"e", OUTPUT_BUFFER)
        && has_written(output, &mut sink, &large, 2 * OUTPUT_BUFFER + 2)
}

// Whether so many octets are written once these are pushed.
fn has_written(output: &mut Output, sink: &mut FailAt, octets: &[u8], written: usize) -> bool {
    output.push(sink, octets).is_ok() && sink.bytes().len() == written
}

#[derive(Drop)]
struct Stuck;

impl Write for Stuck {
    fn write(&mut self, _bytes: &[u8]) -> io::Result<usize> {
        Ok(0)
    }

    fn flush(&mut self) -> io::Result<()> {
        Ok(())
    }
}

#[test]
fn counts_failures_of_std(rt: HostRuntime) -> Result<(), Fail> {
    demand(counts_writes() && counts_reads(b"abc"), "counts")?;
    demand(keeps_octets(rt.alloc(), b"abc"), "octets")
}

fn counts_writes() -> bool {
    let mut stuck = Counted::new(Stuck);
    stuck.write(b"a") == Err(DeviceFault) && stuck.write(b"") == Ok(0) && stuck.failures() == 1
}

fn counts_reads(input: &[u8]) -> bool {
    let mut source = Counted::new(input);
    let mut buffer = [0; 2];
    source.read(&mut buffer) == Ok(2) && buffer == *b"ab" && source.failures() == 0
}

fn keeps_octets(alloc: Global, input: &[u8]) -> bool {
    let mut sink = Counted::new(Vec::new(alloc));
    write_all(&mut sink, input).is_ok() && sink.into_inner().as_slice() == input
}
