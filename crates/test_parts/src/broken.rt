//! A reader and a writer that fail.

use std::io::{self, ErrorKind, Read, Write};

/// Gives its bytes, one a read, and then fails.
#[derive(Drop)]
pub(crate) struct BrokenReader<'a> {
    pub(crate) rest: &'a [u8],
}

impl Read for BrokenReader<'_> {
    fn read(&mut self, buf: &mut [u8]) -> io::Result<usize> {
        if self.rest.is_empty() || buf.is_empty() {
            return Err(io::Error::from(ErrorKind::ConnectionReset));
        }
        buf[0] = self.rest[0];
        self.rest = &self.rest[1..];
        Ok(1)
    }
}

/// Takes as many bytes as it has room for, and then fails.
#[derive(Drop)]
pub(crate) struct BrokenWriter {
    pub(crate) room: usize,
}

impl Write for BrokenWriter {
    fn write(&mut self, buf: &[u8]) -> io::Result<usize> {
        if self.room == 0 {
            return Err(io::Error::from(ErrorKind::BrokenPipe));
        }
        let taken = self.room.min(buf.len());
        self.room -= taken;
        Ok(taken)
    }

    fn flush(&mut self) -> io::Result<()> {
        Ok(())
    }
}
