//! The robots.txt of `check --robots`.
//! docs/crawlgate.1.md has the message if it can't be read.
ghost use Rattle.std.specs.Prelude.{◌≡◌, ◌+◌, IfSome, IfOk, take};
ghost use Rattle.robots_text.specs.Lines.{text_limit};

use crate::ending::Ending;
use robots_check::MAX_BODY;
use std::alloc::Global;
use std::fs::File;
use std::io;
use std::io::Read;

/// Reads as much of a file as a robots text needs. Prints what prevents it.
pub(crate) fn read_file(rt: &HostRuntime, name: &str) -> Result<Vec<u8>, Ending> {
    match read_named(rt, name) {
        Ok(body) => Ok(body),
        Err(error) if error.kind() == io::ErrorKind::OutOfMemory => Err(Ending::NoMemory),
        Err(error) => {
            // If standard error fails too, the status stays.
            let _ = eprintln!(rt; "crawlgate: cannot read {name:?}: {error}");
            Err(Ending::BadFile)
        }
    }
}

fn read_named(rt: &HostRuntime, name: &str) -> io::Result<Vec<u8>> {
    read_front(rt.alloc(), File::open(rt, name)?)
}

/// Reads a reader to its end, at most `MAX_BODY` octets.
pub(crate) fn read_front<R: Read + Drop>(alloc: Global, reader: R) -> io::Result<Vec<u8>>
    ensures { IfOk result (λ body. IfSome (R.remaining reader) (λ octets.
        body.items ≡ take (text_limit + 1) octets)) }
{
    let mut body = Vec::new(alloc);
    reader.take(MAX_BODY as u64).read_to_end(&mut body)?;
    Ok(body)
}
