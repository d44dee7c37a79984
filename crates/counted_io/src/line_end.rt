//! What ends a line.
//! Passed to `LineReader` with each line.
ghost use Rattle.std.specs.Prelude.{◌≡◌};
ghost use Rattle.counted_io.specs.Lines.{without_cr, without_end};

/// What ends a line.
#[derive(Clone, Copy, Debug, PartialEq, Eq)]
pub enum LineEnd {
    /// LF. A CR before it is an octet of the line.
    Lf,
    /// LF or CR LF.
    LfOrCrLf,
}

/// Drops what precedes the LF in the line's end.
pub(crate) fn drop_end(end: LineEnd, line: &mut Vec<u8>)
    ensures { line.new.items ≡ without_end end line.old.items }
{
    match end {
        LineEnd::Lf => {}
        LineEnd::LfOrCrLf => drop_carriage_return(line),
    }
}

fn drop_carriage_return(line: &mut Vec<u8>)
    ensures { line.new.items ≡ without_cr line.old.items }
{
    let len = line.len();
    if len > 0 && line[len - 1] == b'\r' {
        line.truncate(len - 1);
    }
}
