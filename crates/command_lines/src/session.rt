//! A session: the loop over the lines of a source.
//! Used by everything that takes commands line by line.
ghost use Rattle.std.specs.Prelude.{◌≡◌};
ghost use Rattle.command_lines.specs.Session.{Session, failures_after_reads, failures_after_writes};

use crate::answerer::{Answerer, Flow};
use crate::buffers::Buffers;
use crate::session_fault::SessionFault;
use counted_io::{NextLine, Sink, Source};
use std::alloc::Global;

/// Reads lines of at most `limit` octets, answers each from the state, and writes the replies, before each
/// read that may wait and at the end. Stops at the end of the input, at a line that ends the session, at a
/// line over the limit, after `most` lines, and at a fault. After a failed write no line is answered.
pub fn run_session<R: Source, W: Sink, S, A: Answerer<S>>(
    alloc: Global,
    reader: &mut R,
    writer: &mut W,
    answerer: &A,
    state: &mut S,
    limit: usize,
    most: u64,
) -> Result<(), SessionFault>
    ensures session { Session (A.answers answerer.now (W.failures writer.old))
        limit most state.old state.new
        (R.left reader.old) (R.left reader.new)
        (W.written writer.old) (W.written writer.new) result }
    ensures reads { R.failures reader.new ≡ failures_after_reads (R.failures reader.old) result }
    ensures writes { W.failures writer.new
        ≡ failures_after_writes (W.failures writer.old) result }
{
    let mut buffers = Buffers::new(alloc)?;
    for taken in 0..most {
        match buffers.next(reader, writer, limit)? {
            NextLine::Line => match buffers.answer(alloc, answerer, state, writer)? {
                Flow::Goes => {}
                Flow::Ends => return buffers.close(writer, Ok(())),
            },
            NextLine::Last => {
                buffers.answer(alloc, answerer, state, writer)?;
                return buffers.close(writer, Ok(()));
            }
            NextLine::End => return buffers.close(writer, Ok(())),
            NextLine::TooLong => return buffers.close(writer, Err(SessionFault::LongLine)),
        }
    }
    match buffers.next(reader, writer, limit)? {
        NextLine::End => buffers.close(writer, Ok(())),
        NextLine::TooLong => buffers.close(writer, Err(SessionFault::LongLine)),
        NextLine::Line | NextLine::Last => buffers.close(writer, Err(SessionFault::Lines)),
    }
}
