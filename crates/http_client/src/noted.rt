//! A connection of which is noted whether an octet came.
use std::io;
use std::io::Read;

/// A reader that notes whether an octet came. Its octets are those of the stream.
#[derive(Drop)]
pub(crate) struct Noted<S> {
    pub(crate) stream: S,
    pub(crate) any: bool,
}

impl<S: Read> Read for Noted<S> {
    ghost remaining = { λ s. S.remaining s.stream };

    fn read(&mut self, buf: &mut [u8]) -> io::Result<usize> {
        let count = self.stream.read(buf)?;
        if count > 0 {
            self.any = true;
        }
        Ok(count)
    }
}
