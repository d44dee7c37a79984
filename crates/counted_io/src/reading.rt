//! A source read to its end, in large pieces.
//! Used by the readers of robots texts.
ghost use Rattle.std.specs.Prelude.{◌≡◌, ◌<◌, IfOk, OnOk, OnErr, length};
ghost use Rattle.counted_io.specs.Reads.{ReadsFront, ReadsLost, ReadsMore, ReadsTo, failures_after_reads};

use crate::next_line::ReadLineFault;
use crate::source::Source;
use std::alloc::Global;

// The most octets of one read.
const READ_SIZE: usize = 65536;

/// Reads a source to its end, at most this many octets. After a fault, what was read is lost.
pub fn read_to<R: Source>(
    alloc: Global,
    reader: &mut R,
    most: usize,
) -> Result<Vec<u8>, ReadLineFault>
    ensures body { IfOk result (λ body.
        ReadsTo most (R.left reader.old) (R.left reader.new) body.items) }
    ensures front { OnErr result (ReadsFront most (R.left reader.old) (R.left reader.new)) }
    ensures reads { R.failures reader.new ≡ failures_after_reads (R.failures reader.old) result }
{
    let mut body = Vec::new(alloc);
    let mut buffer = Vec::new(alloc);
    buffer.resize(READ_SIZE, 0)?;
    let piece = buffer.as_mut_slice();
    while body.len() < most {
        let len = body.len();
        let count = READ_SIZE.min(most - len);
        read_more(reader, &mut piece[..count], &mut body)?;
        if body.len() == len {
            return Ok(body);
        }
    }
    Ok(body)
}

fn read_more<R: Source>(
    reader: &mut R,
    piece: &mut [u8],
    body: &mut Vec<u8>,
) -> Result<(), ReadLineFault>
    requires { 0 < length piece.old }
    ensures more { OnOk result (ReadsMore (R.left reader.old) (R.left reader.new)
        body.old.items body.new.items (length piece.old)) }
    ensures lost { OnErr result (ReadsLost (R.left reader.old) (R.left reader.new)
        (length piece.old)) }
    ensures reads { R.failures reader.new ≡ failures_after_reads (R.failures reader.old) result }
{
    let count = reader.read(piece)?;
    body.extend_from_slice(&piece[..count])?;
    Ok(())
}
