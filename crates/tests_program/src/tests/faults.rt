//! A session whose read or write fails, at every call in turn.

use super::{demand, new_book, new_writer, reader_of};
use command_lines::{SessionFault, replay};
use counted_io::FailAt;
use std::test::Fail;

const INPUT: &[u8] = b"\
100 BEGIN a.example
105 ARRIVE a.example 1 404 -
110 ASK foobot http://a.example/x
120 START 65536 foobot http://a.example/x
";

const REPLIES: &[u8] = b"\
TURN a.example 1
TAKEN a.example open
PERMIT 65536
GO 65536 open
";

#[test]
fn a_read_fails(rt: HostRuntime) -> Result<(), Fail> {
    for octets in 0..INPUT.len() {
        demand(is_told_of_read(&rt, octets)?, "a read", octets)?;
    }
    Ok(())
}

fn is_told_of_read(rt: &HostRuntime, octets: usize) -> Result<bool, Fail> {
    let mut input = reader_of(rt.alloc(), INPUT, 1, Some(octets as u64))?;
    let mut output = new_writer(rt.alloc());
    let ended = session(rt, &mut input, &mut output)?;
    let lines = lines_of(INPUT, octets);
    Ok(ended == (Err(SessionFault::Read), lines) && has_lines(output.bytes(), lines))
}

// Whether these are so many replies.
fn has_lines(written: &[u8], lines: usize) -> bool {
    let is_whole = written.is_empty() || written.ends_with(b"\n");
    is_whole && REPLIES.starts_with(written) && lines_of(written, written.len()) == lines
}

// How many lines end within so many octets of a text.
fn lines_of(text: &[u8], octets: usize) -> usize {
    text.iter()
        .take(octets)
        .filter(|octet| **octet == b'\n')
        .count()
}

// A session over a new book: its end, and the entries of the history.
fn session(
    rt: &HostRuntime,
    input: &mut FailAt,
    output: &mut FailAt,
) -> Result<(Result<(), SessionFault>, usize), Fail> {
    let mut book = new_book(rt)?;
    let end = replay(rt.alloc(), input, output, &mut book);
    Ok((end, book.history().len()))
}

#[test]
fn a_write_fails(rt: HostRuntime) -> Result<(), Fail> {
    for call in 0..REPLIES.len() {
        demand(is_told_of_write(&rt, call)?, "a write", call)?;
    }
    Ok(())
}

fn is_told_of_write(rt: &HostRuntime, call: usize) -> Result<bool, Fail> {
    let mut input = reader_of(rt.alloc(), INPUT, 65_536, None)?;
    let mut output = FailAt::new(Vec::new(rt.alloc()), 1, Some(call as u64));
    let ended = session(rt, &mut input, &mut output)?;
    let is_front = REPLIES.starts_with(output.bytes()) && output.bytes().len() == call;
    Ok(is_front && ended == (Err(SessionFault::Write), 4))
}
