//! The buffers of a session, and their use for each line.
//! Used by `run_session`.
ghost use Rattle.std.specs.Prelude.{◌≡◌, ◌≢◌, ◌≤◌, ◌++◌, [], IfOk, IfErr, OnOk, OnErr, length};
ghost use Rattle.std.specs.Io.KnownBytes.{prepend_known};
ghost use Rattle.counted_io.specs.Device.{failures_after};
ghost use Rattle.counted_io.specs.Limits.{output_buffer};
ghost use Rattle.counted_io.specs.Lines.{Takes};
ghost use Rattle.counted_io.specs.Output.{Passes};
ghost use Rattle.line_text.specs.Pieces.{pieces_text};
ghost use Rattle.command_lines.specs.Answers.{ends_session, GivesReply, LosesReply};
ghost use Rattle.command_lines.specs.Session.{last_words, ResultsIn, Writes, failures_after_reads, failures_after_writes};
ghost use Rattle.command_lines.specs.Steps.{FailsToReadLine};

use crate::answerer::{Answerer, Flow};
use crate::fault::LineFault;
use crate::reply_text::fault_pieces;
use crate::session_fault::SessionFault;
use counted_io::{DeviceFault, LineReader, NextLine, Output, ReadLineFault, Sink, Source};
use line_text::Pieces;
use std::alloc::{AllocError, Global};

/// The octets not yet taken, the current line, and the replies not yet written.
#[derive(Drop)]
pub(crate) struct Buffers {
    reader: LineReader,
    line: Vec<u8>,
    output: Output,
}

impl Buffers {
    /// Empty buffers.
    pub(crate) fn new(alloc: Global) -> Result<Buffers, AllocError>
        ensures reader { IfOk result (λ buffers. buffers.reader ≡ []) }
        ensures output { IfOk result (λ buffers. buffers.output ≡ []) }
    {
        Ok(Buffers {
            reader: LineReader::new(alloc)?,
            line: Vec::new(alloc),
            output: Output::new(alloc)?,
        })
    }

    /// Takes the next line. Writes the pending replies before a read that may wait.
    pub(crate) fn next<R: Source, W: Sink>(
        &mut self,
        reader: &mut R,
        writer: &mut W,
        limit: usize,
    ) -> Result<NextLine, SessionFault>
        ensures takes { IfOk result (λ next. Takes limit
            (prepend_known self.old.reader (R.left reader.old)) self.new.reader (R.left reader.new)
            next self.new.line.items) }
        ensures passed { OnOk result (Passes (W.written writer.old) (W.written writer.new)
            self.old.output self.new.output) }
        ensures few { (length self.old.output ≤ output_buffer)
            × (length self.new.output ≤ output_buffer) }
        ensures fault { IfErr result (FailsToReadLine
            (prepend_known self.old.reader (R.left reader.old)) self.new.reader (R.left reader.new)
            self.old.output (W.written writer.old) (W.written writer.new)) }
        ensures reads { R.failures reader.new
            ≡ failures_after_reads (R.failures reader.old) result }
        ensures writes { W.failures writer.new
            ≡ failures_after_writes (W.failures writer.old) result }
    {
        if !self.output.is_empty() && !self.reader.has_line() {
            self.output.flush(writer)?;
        }
        match self.reader.next_line(reader, limit, &mut self.line) {
            Ok(next) => Ok(next),
            Err(ReadLineFault::Read) => Err(SessionFault::Read),
            Err(ReadLineFault::NoMemory) => {
                self.output.flush(writer)?;
                Err(SessionFault::NoMemory)
            }
        }
    }

    /// Answers the current line.
    pub(crate) fn answer<W: Sink, S, A: Answerer<S>>(
        &mut self,
        alloc: Global,
        answerer: &A,
        state: &mut S,
        writer: &mut W,
    ) -> Result<Flow, DeviceFault>
        ensures ok { IfOk result (λ flow. GivesReply
            (λ reply. A.answers answerer.now (W.failures writer.old)
            state.old self.old.line.items reply (ends_session flow) state.new)
            (W.written writer.old) (W.written writer.new) self.old.output self.new.output) }
        ensures err { OnErr result (LosesReply
            (λ reply ended. A.answers answerer.now (W.failures writer.old)
            state.old self.old.line.items reply ended state.new)
            (W.written writer.old) (W.written writer.new) self.old.output) }
        ensures reader { self.new.reader ≡ self.old.reader }
        ensures count { W.failures writer.new ≡ failures_after (W.failures writer.old) result }
    {
        answerer.answer(alloc, state, self.line.as_slice(), &mut self.output, writer)
    }

    /// Writes the pending replies and the last words; returns `end` if no write fails.
    pub(crate) fn close<W: Sink>(
        &mut self,
        writer: &mut W,
        end: Result<(), SessionFault>,
    ) -> Result<(), SessionFault>
        requires { end ≢ Err SessionFault.Write }
        ensures few { length self.old.output ≤ output_buffer }
        ensures results { ResultsIn end result }
        ensures wrote { Writes (W.written writer.old) (W.written writer.new)
            (self.old.output ++ last_words end) result }
        ensures writes { W.failures writer.new
            ≡ failures_after_writes (W.failures writer.old) result }
    {
        if self.output.is_empty() && end == Ok(()) {
            return end;
        }
        last_pieces(&end).push(&mut self.output, writer)?;
        self.output.flush(writer)?;
        end
    }
}

// What follows the replies.
fn last_pieces(end: &Result<(), SessionFault>) -> Pieces<'static>
    ensures { pieces_text result ≡ last_words end.now }
{
    match end {
        Err(SessionFault::LongLine) => fault_pieces(LineFault::Long),
        Err(SessionFault::Lines) => fault_pieces(LineFault::Lines),
        _ => Pieces::whole(""),
    }
}
