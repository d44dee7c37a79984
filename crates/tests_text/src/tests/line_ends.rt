//! Line ends: what a line reader gives, whatever the size of reads.
//! The definitions of `counted_io` on real octets.
ghost use Rattle.std.specs.Prelude.{◌<◌};

use super::demand;
use counted_io::{FailAt, LINE_BUFFER, LineEnd, LineReader, NextLine};
use std::alloc::Global;
use std::test::Fail;

struct Row {
    name: &'static str,
    input: &'static [u8],
    limit: usize,
    lines: &'static [(NextLine, &'static [u8])],
}

const ROWS: &[Row] = &[
    Row {
        name: "line feeds",
        input: b"ab\n\nc\n",
        limit: 2,
        lines: &[
            (NextLine::Line, b"ab"),
            (NextLine::Line, b""),
            (NextLine::Line, b"c"),
            (NextLine::End, b""),
        ],
    },
    Row {
        name: "carriage return and line feed",
        input: b"ab\r\n\r\n",
        limit: 2,
        lines: &[
            (NextLine::Line, b"ab"),
            (NextLine::Line, b""),
            (NextLine::End, b""),
        ],
    },
    Row {
        name: "only one carriage return belongs to the end",
        input: b"a\r\r\n",
        limit: 2,
        lines: &[(NextLine::Line, b"a\r"), (NextLine::End, b"")],
    },
    Row {
        name: "a lone carriage return is no end",
        input: b"a\rb\n",
        limit: 3,
        lines: &[(NextLine::Line, b"a\rb"), (NextLine::End, b"")],
    },
    Row {
        name: "no end at the end",
        input: b"a\nbc",
        limit: 2,
        lines: &[
            (NextLine::Line, b"a"),
            (NextLine::Last, b"bc"),
            (NextLine::End, b""),
        ],
    },
    Row {
        name: "a carriage return at the end stays",
        input: b"a\r",
        limit: 2,
        lines: &[(NextLine::Last, b"a\r"), (NextLine::End, b"")],
    },
    Row {
        name: "nothing",
        input: b"",
        limit: 0,
        lines: &[(NextLine::End, b""), (NextLine::End, b"")],
    },
    Row {
        name: "as long as the limit",
        input: b"abc\r\nabc\nabc",
        limit: 3,
        lines: &[
            (NextLine::Line, b"abc"),
            (NextLine::Line, b"abc"),
            (NextLine::Last, b"abc"),
        ],
    },
    Row {
        name: "one more, with a line feed",
        input: b"abcd\n",
        limit: 3,
        lines: &[(NextLine::TooLong, b"")],
    },
    Row {
        name: "one more, with a carriage return",
        input: b"abcd\r\n",
        limit: 3,
        lines: &[(NextLine::TooLong, b"")],
    },
    Row {
        name: "one more at the end",
        input: b"abcd",
        limit: 3,
        lines: &[(NextLine::TooLong, b"")],
    },
    Row {
        name: "the carriage return at the end is one more",
        input: b"abc\r",
        limit: 3,
        lines: &[(NextLine::TooLong, b"")],
    },
];

// Lines and their octets, if only LF ends a line.
const LF_ROWS: &[Row] = &[
    Row {
        name: "a carriage return before the line feed stays",
        input: b"ab\r\n\r\n",
        limit: 3,
        lines: &[
            (NextLine::Line, b"ab\r"),
            (NextLine::Line, b"\r"),
            (NextLine::End, b""),
        ],
    },
    Row {
        name: "no carriage return",
        input: b"ab\n\nc",
        limit: 2,
        lines: &[
            (NextLine::Line, b"ab"),
            (NextLine::Line, b""),
            (NextLine::Last, b"c"),
            (NextLine::End, b""),
        ],
    },
    Row {
        name: "as long as the limit, with a carriage return",
        input: b"ab\r\n",
        limit: 3,
        lines: &[(NextLine::Line, b"ab\r"), (NextLine::End, b"")],
    },
    Row {
        name: "the carriage return is one more",
        input: b"abc\r\n",
        limit: 3,
        lines: &[(NextLine::TooLong, b"")],
    },
];

#[test]
fn reads_lines(rt: HostRuntime) -> Result<(), Fail> {
    for row in ROWS {
        at_each_size(rt.alloc(), row, LineEnd::LfOrCrLf)?;
    }
    Ok(())
}

#[test]
fn keeps_carriage_returns_where_told(rt: HostRuntime) -> Result<(), Fail> {
    for row in LF_ROWS {
        at_each_size(rt.alloc(), row, LineEnd::Lf)?;
    }
    Ok(())
}

fn at_each_size(alloc: Global, row: &Row, end: LineEnd) -> Result<(), Fail> {
    for per_call in 1..8 {
        demand(reads_row(alloc, row, end, per_call)?, row.name)?;
    }
    demand(reads_row(alloc, row, end, LINE_BUFFER)?, row.name)
}

fn reads_row(alloc: Global, row: &Row, end: LineEnd, per_call: usize) -> Result<bool, Fail>
    requires { 0 < per_call }
{
    let mut source = FailAt::new(Vec::from_slice(alloc, row.input)?, per_call, None);
    reads_source(alloc, row, end, &mut source)
}

fn reads_source(alloc: Global, row: &Row, end: LineEnd, source: &mut FailAt) -> Result<bool, Fail> {
    let mut reader = LineReader::new(alloc)?;
    Ok(gives_lines(alloc, row, end, source, &mut reader))
}

fn gives_lines(
    alloc: Global,
    row: &Row,
    end: LineEnd,
    source: &mut FailAt,
    reader: &mut LineReader,
) -> bool {
    let mut line = Vec::new(alloc);
    for (want, text) in row.lines {
        let next = reader.next_line_to(source, end, row.limit, &mut line);
        let is_text = *want == NextLine::TooLong || line.as_slice() == *text;
        if next != Ok(*want) || !is_text {
            return false;
        }
    }
    true
}
