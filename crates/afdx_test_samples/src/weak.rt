//! Devices that move little at a time and fail, for tests of what reads and writes.

ghost use Rattle.std.specs.Prelude.{◌<◌};

use std::io;
use std::io::{ErrorKind, Read, Write};

/// What a device does at the call where it breaks.
#[derive(Clone, Copy, Debug, PartialEq, Eq)]
pub enum Break {
    Fails,
    TakesNone,
}

/// Reads from memory, at most `most` bytes a call, and fails once `calls` calls went well.
#[derive(Drop)]
pub struct WeakReader<'a> {
    pub rest: &'a [u8],
    pub most: usize,
    pub calls: u64,
    ghost moves: { 0 < most },
}

impl Read for WeakReader<'_> {
    ghost use Rattle.std.specs.Prelude.{Some};

    ghost remaining = { λ reader. Some reader.rest.now };

    fn read(&mut self, buf: &mut [u8]) -> io::Result<usize> {
        if self.calls == 0 {
            return Err(io::Error::from(ErrorKind::Other));
        }
        self.calls -= 1;
        let count = buf.len().min(self.most);
        self.rest.read(&mut buf[..count])
    }
}

/// Writes to memory, at most `most` bytes a call, and breaks once `calls` calls went well.
#[derive(Drop)]
pub struct WeakWriter {
    pub written: Vec<u8>,
    pub most: usize,
    pub calls: u64,
    pub at_end: Break,
}

impl Write for WeakWriter {
    ghost use Rattle.std.specs.Prelude.{Some};

    ghost contents = { λ writer. Some writer.written.items };

    fn write(&mut self, buf: &[u8]) -> io::Result<usize> {
        if self.calls == 0 {
            return match self.at_end {
                Break::Fails => Err(io::Error::from(ErrorKind::Other)),
                Break::TakesNone => Ok(0),
            };
        }
        self.calls -= 1;
        let count = buf.len().min(self.most);
        self.written.write(&buf[..count])
    }

    fn flush(&mut self) -> io::Result<()> {
        Ok(())
    }
}
