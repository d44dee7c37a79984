//! A connection through the TLS program, where the end of the connection ends no response.
//! RFC 9112, section 9.8. The program's connection ends alike whether TLS was ended or cut.
ghost use Rattle.std.specs.Prelude.{◌≡◌, ℕ, List};

use std::io;
use std::io::{ErrorKind, Read};
use std::marker::PhantomData;

/// What a connection that was cut would have brought. Only proofs know it.
pub(crate) trait Unseen {
    ghost octets: { List ℕ };
}

/// Nothing. A reader is the same for each type, so this one serves.
pub(crate) struct Nothing;

impl Unseen for Nothing {
    ghost use Rattle.std.specs.Prelude.{[]};

    ghost octets = { [] };
}

/// A reader that fails at the end of its stream, and notes that, and whether an octet came.
///
/// Its octets are those of the stream and then the unseen ones, whatever these are. So a result for a
/// nonempty buffer is never 0, which would be the end.
#[derive(Drop)]
pub(crate) struct Heard<S, U> {
    pub(crate) stream: S,
    pub(crate) any: bool,
    pub(crate) ended: bool,
    unseen: PhantomData<U>,
}

impl<S, U> Heard<S, U> {
    pub(crate) fn new(stream: S) -> Heard<S, U>
        ensures { result.stream ≡ stream }
    {
        Heard {
            stream,
            any: false,
            ended: false,
            unseen: PhantomData,
        }
    }
}

impl<S: Read, U: Unseen> Read for Heard<S, U> {
    ghost use Rattle.std.specs.Io.KnownBytes.{append_known};

    ghost remaining = { λ s. append_known (S.remaining s.stream) U.octets };

    fn read(&mut self, buf: &mut [u8]) -> io::Result<usize> {
        let count = self.stream.read(buf)?;
        if count > 0 {
            self.any = true;
        } else if !buf.is_empty() {
            self.ended = true;
            return Err(io::Error::from(ErrorKind::UnexpectedEof));
        }
        Ok(count)
    }
}
