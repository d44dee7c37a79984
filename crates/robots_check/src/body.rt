//! Reads a source in large pieces.
//! Used by `check` and `lines`, and by callers that need the body of a robots text.
ghost use Rattle.std.specs.Prelude.{◌≡◌, ◌+◌, IfOk, IfErr, OnErr};
ghost use Rattle.counted_io.specs.Reads.{ReadsFront};
ghost use Rattle.robots_text.specs.Lines.{text_limit};
ghost use Rattle.robots_check.specs.Checks.{IsReadFault, ReadsBody, ReadsWhole, failures_after_reads};

use crate::fault::TextFault;
use counted_io::{Source, read_to};
use robots_text::MAX_TEXT;
use std::alloc::Global;

/// The octets read of a robots text: one more than the limit shows that it is longer.
pub const MAX_BODY: usize = MAX_TEXT + 1;

// More octets than possible.
const MOST: usize = usize::MAX;

/// Reads the body of a robots text to its end, but at most `MAX_BODY` octets. Its only faults are `Read`
/// and `NoMemory`.
pub fn read_body<R: Source>(alloc: Global, reader: &mut R) -> Result<Vec<u8>, TextFault>
    ensures body { IfOk result (λ body.
        ReadsBody (R.left reader.old) (R.left reader.new) body.items) }
    ensures front { OnErr result
        (ReadsFront (text_limit + 1) (R.left reader.old) (R.left reader.new)) }
    ensures faults { IfErr result IsReadFault }
    ensures reads { R.failures reader.new ≡ failures_after_reads (R.failures reader.old) result }
{
    let body = read_to(alloc, reader, MAX_BODY)?;
    Ok(body)
}

pub(crate) fn read_whole<R: Source>(alloc: Global, reader: &mut R) -> Result<Vec<u8>, TextFault>
    ensures whole { IfOk result (λ input.
        ReadsWhole (R.left reader.old) (R.left reader.new) input.items) }
    ensures front { OnErr result (ReadsFront MOST (R.left reader.old) (R.left reader.new)) }
    ensures faults { IfErr result IsReadFault }
    ensures reads { R.failures reader.new ≡ failures_after_reads (R.failures reader.old) result }
{
    // A vector has fewer octets.
    let input = read_to(alloc, reader, MOST)?;
    Ok(input)
}
