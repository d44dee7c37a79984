//! Lines of a source, read through a buffer.
//! Used by everything that takes commands or records line by line.
ghost use Rattle.std.specs.Prelude.{◌≡◌, ◌<◌, ◌≤◌, ◌+◌, ◌↔◌, [], length, drop, Contains, IsTrue, IfOk, OnOk, OnErr, MatchBool, vec_len};
ghost use Rattle.std.specs.Io.KnownBytes.{Consumes, IsAtEnd, prepend_known};
ghost use Rattle.counted_io.specs.Device.{failures_after};
ghost use Rattle.counted_io.specs.Limits.{line_buffer};
ghost use Rattle.counted_io.specs.Lines.{IsDrained, LinesEnd, Moves, Takes, TakesPart, TakesTo, failures_after_line};

use crate::fault::DeviceFault;
use crate::line_end::{LineEnd, drop_end};
use crate::line_part::{LinePart, part_len};
use crate::next_line::{NextLine, ReadLineFault};
use crate::source::Source;
use memchr::memrchr;
use std::alloc::{AllocError, Global};
use std::marker::Model;

/// The most octets of one read of the source.
pub const LINE_BUFFER: usize = 65536;

/// The octets read and not yet taken. The source is passed to each call.
#[derive(Drop)]
pub struct LineReader {
    buffer: Vec<u8>,
    start: usize,
    end: usize,
    // Behind the last line feed, or 0 if there is none.
    lines_end: usize,
}

impl Model for LineReader {
    ghost use Rattle.std.specs.Prelude.{◌≡◌, ◌≤◌, ℕ, List, slice_range, vec_len};
    ghost use Rattle.counted_io.specs.declared.line_reader.TheConstants.{LINE_BUFFER};
    ghost use Rattle.counted_io.specs.Lines.{LinesEnd};

    ghost Value = { List ℕ };

    ghost view = { λ r. slice_range r.buffer.items r.start r.end };

    ghost invariant = { λ r. (r.start ≤ r.end) × (r.end ≤ vec_len r.buffer)
        × (vec_len r.buffer ≡ LINE_BUFFER) × LinesEnd r.buffer.items r.end r.lines_end };
}

impl LineReader {
    /// An empty buffer of `LINE_BUFFER` octets, a reader's only memory.
    pub fn new(alloc: Global) -> Result<LineReader, AllocError>
        ensures { IfOk result (λ reader. reader ≡ []) }
    {
        let mut buffer = Vec::new(alloc);
        buffer.resize(LINE_BUFFER, 0)?;
        Ok(LineReader {
            buffer,
            start: 0,
            end: 0,
            lines_end: 0,
        })
    }

    /// Whether the buffer has a whole line, so that `next_line` reads no source. It searches nothing.
    pub fn has_line(&self) -> bool
        ensures { IsTrue result ↔ Contains self.now 10 }
    {
        let _octets = self.buffer.as_slice();
        self.start < self.lines_end
    }

    /// `next_line_to` for lines that end with LF or CR LF.
    pub fn next_line<S: Source>(
        &mut self,
        source: &mut S,
        limit: usize,
        line: &mut Vec<u8>,
    ) -> Result<NextLine, ReadLineFault>
        ensures takes { IfOk result (λ next. Takes limit
            (prepend_known self.old (S.left source.old)) self.new (S.left source.new)
            next line.new.items) }
        ensures fault { OnErr result (TakesPart
            (prepend_known self.old (S.left source.old))
            (prepend_known self.new (S.left source.new)) line.new.items) }
        ensures count { S.failures source.new ≡ failures_after_line (S.failures source.old) result }
        ensures buffered { Contains self.old 10 → source.new ≡ source.old }
    {
        self.next_line_to(source, LineEnd::LfOrCrLf, limit, line)
    }

    /// Replaces `line` by the next line, without its end. A last line needs no end, and keeps a CR at its
    /// end. While the buffer has no LF, reads the source, at most `LINE_BUFFER` octets a read, until the
    /// line is longer than `limit` octets; `line` is then a part of at most `limit + 1` octets. After a
    /// fault it is what was taken.
    pub fn next_line_to<S: Source>(
        &mut self,
        source: &mut S,
        end: LineEnd,
        limit: usize,
        line: &mut Vec<u8>,
    ) -> Result<NextLine, ReadLineFault>
        ensures takes { IfOk result (λ next. TakesTo end limit
            (prepend_known self.old (S.left source.old)) self.new (S.left source.new)
            next line.new.items) }
        ensures fault { OnErr result (TakesPart
            (prepend_known self.old (S.left source.old))
            (prepend_known self.new (S.left source.new)) line.new.items) }
        ensures count { S.failures source.new ≡ failures_after_line (S.failures source.old) result }
        ensures buffered { Contains self.old 10 → source.new ≡ source.old }
        ensures size { LINE_BUFFER ≡ line_buffer }
    {
        line.clear();
        while self.has_more(source)? {
            match self.move_part(end, limit, line)? {
                LinePart::Open => {}
                LinePart::Whole => return Ok(NextLine::Line),
                LinePart::TooLong => return Ok(NextLine::TooLong),
            }
        }
        if line.is_empty() {
            return Ok(NextLine::End);
        }
        if line.len() <= limit {
            Ok(NextLine::Last)
        } else {
            Ok(NextLine::TooLong)
        }
    }

    fn pending(&self) -> &[u8]
        ensures value { result.now ≡ self.now }
        ensures len { length result.now ≤ LINE_BUFFER }
    {
        &self.buffer.as_slice()[self.start..self.end]
    }

    fn skip(&mut self, count: usize)
        requires { count ≤ length self.old }
        ensures { self.new ≡ drop count self.old }
    {
        self.start += count;
    }

    fn refill<S: Source>(&mut self, source: &mut S) -> Result<(), DeviceFault>
        requires { self.old ≡ [] }
        ensures kept { Consumes (prepend_known self.old (S.left source.old))
            (prepend_known self.new (S.left source.new)) [] }
        ensures end { OnOk result (self.new ≡ [] → IsAtEnd (S.left source.new)) }
        ensures count { S.failures source.new ≡ failures_after (S.failures source.old) result }
    {
        self.start = 0;
        self.end = 0;
        self.lines_end = 0;
        let end = source.read(self.buffer.as_mut_slice())?;
        self.lines_end = lines_end(&self.buffer.as_slice()[..end]);
        self.end = end;
        Ok(())
    }

    // Whether an octet is left: reads the source only if the buffer is empty.
    fn has_more<S: Source>(&mut self, source: &mut S) -> Result<bool, DeviceFault>
        ensures kept { Consumes (prepend_known self.old (S.left source.old))
            (prepend_known self.new (S.left source.new)) [] }
        ensures more { IfOk result (λ more. MatchBool more (0 < length self.new)
            (IsDrained self.new (S.left source.new))) }
        ensures count { S.failures source.new ≡ failures_after (S.failures source.old) result }
        ensures buffered { 0 < length self.old
            → (source.new ≡ source.old) × (self.new ≡ self.old) }
    {
        if self.pending().is_empty() {
            self.refill(source)?;
        }
        Ok(!self.pending().is_empty())
    }

    fn move_part(
        &mut self,
        end: LineEnd,
        limit: usize,
        line: &mut Vec<u8>,
    ) -> Result<LinePart, AllocError>
        requires { vec_len line.old ≤ limit + 1 }
        ensures moves { IfOk result
            (Moves end limit self.old self.new line.old.items line.new.items) }
        ensures err { OnErr result
            ((self.new ≡ self.old) × (line.new.items ≡ line.old.items)) }
    {
        let count = part_len(self.pending());
        let ends = count < self.pending().len();
        if (line.len() + count).saturating_sub(1) > limit {
            self.skip(count);
            return Ok(LinePart::TooLong);
        }
        line.extend_from_slice(&self.pending()[..count])?;
        self.skip(count);
        if !ends {
            return Ok(LinePart::Open);
        }
        drop_end(end, line);
        if line.len() > limit {
            return Ok(LinePart::TooLong);
        }
        self.skip(1);
        Ok(LinePart::Whole)
    }
}

// The place behind the last line feed, or 0.
fn lines_end(octets: &[u8]) -> usize
    ensures { LinesEnd octets.now (length octets.now) result }
{
    match memrchr(b'\n', octets) {
        Some(place) => place + 1,
        None => 0,
    }
}
