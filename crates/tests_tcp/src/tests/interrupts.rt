//! Interrupted reads and writes, and those out of time.

use super::demand;
use http_client::{Failure, TimedStream};
use std::io::{ErrorKind, Read, Write};
use std::sync::atomic::AtomicBool;
use std::test::Fail;
use std::time::{Duration, Instant};
use std::{io, time};
use stream_waits::{Deadline, Waits};

// A connection whose first calls a signal interrupts. Later calls move one octet each.
#[derive(Drop)]
struct Interrupted(u32);

impl Interrupted {
    fn call(&mut self) -> io::Result<()> {
        match self.0.checked_sub(1) {
            Some(left) => {
                self.0 = left;
                Err(io::Error::from(ErrorKind::Interrupted))
            }
            None => Ok(()),
        }
    }
}

impl Read for Interrupted {
    fn read(&mut self, buf: &mut [u8]) -> io::Result<usize> {
        self.call()?;
        match buf.first_mut() {
            Some(octet) => {
                *octet = b'x';
                Ok(1)
            }
            None => Ok(0),
        }
    }
}

impl Write for Interrupted {
    fn write(&mut self, buf: &[u8]) -> io::Result<usize> {
        self.call()?;
        Ok(buf.len().min(1))
    }

    fn flush(&mut self) -> io::Result<()> {
        Ok(())
    }
}

impl Waits for Interrupted {
    fn limit_reads(&self, _most: Duration) -> io::Result<()> {
        Ok(())
    }

    fn limit_writes(&self, _most: Duration) -> io::Result<()> {
        Ok(())
    }
}

// A stream interrupted so many times, with so many seconds for the whole.
fn stream_of<'a, R: time::Clock>(
    rt: &'a R,
    times: u32,
    whole: u64,
    stopped: &'a AtomicBool,
) -> io::Result<TimedStream<'a, R, Interrupted>> {
    Ok(TimedStream {
        rt,
        stream: Interrupted(times),
        deadline: Deadline {
            begun: Instant::now(rt)?,
            whole: Duration::from_secs(whole),
        },
        step: Duration::from_secs(30),
        stopped,
        read_limit: None,
        write_limit: None,
        failure: None,
    })
}

// Whether a read of such a stream succeeds, and why it failed.
fn reads(rt: &impl time::Clock, row: &Row) -> io::Result<(bool, Option<Failure>)> {
    let stopped = AtomicBool::new(row.stopped);
    let mut stream = stream_of(rt, row.times, row.whole, &stopped)?;
    let holds = stream.read(&mut [0, 0]).is_ok();
    Ok((holds, stream.failure))
}

// The same of a write.
fn writes(rt: &impl time::Clock, row: &Row) -> io::Result<(bool, Option<Failure>)> {
    let stopped = AtomicBool::new(row.stopped);
    let mut stream = stream_of(rt, row.times, row.whole, &stopped)?;
    let holds = stream.write(b"ab").is_ok();
    Ok((holds, stream.failure))
}

struct Row {
    name: &'static str,
    times: u32,
    whole: u64,
    stopped: bool,
    holds: bool,
}

const ROWS: &[Row] = &[
    Row {
        name: "no interruption",
        times: 0,
        whole: 60,
        stopped: false,
        holds: true,
    },
    Row {
        name: "a few interruptions",
        times: 3,
        whole: 60,
        stopped: false,
        holds: true,
    },
    Row {
        name: "as many as there may be",
        times: 999,
        whole: 60,
        stopped: false,
        holds: true,
    },
    Row {
        name: "one more",
        times: 1_000,
        whole: 60,
        stopped: false,
        holds: false,
    },
    Row {
        name: "a time that is over",
        times: 0,
        whole: 0,
        stopped: false,
        holds: false,
    },
    Row {
        name: "a stream that is stopped",
        times: 0,
        whole: 60,
        stopped: true,
        holds: false,
    },
];

#[test]
fn interruptions(rt: HostRuntime) -> Result<(), Fail> {
    for row in ROWS {
        demand(is_so(reads(&rt, row)?, row), row.name)?;
        demand(is_so(writes(&rt, row)?, row), row.name)?;
    }
    Ok(())
}

fn is_so(given: (bool, Option<Failure>), row: &Row) -> bool {
    given.0 == row.holds && (!row.stopped || given.1 == Some(Failure::Stopped))
}
