//! Devices that remember what an explanation needs.

use afdx_command_words::STANDARD_INPUT;
use std::fs::File;
use std::io;
use std::io::{Read, Stdin, Write};

/// What a person is told of standard input.
pub(crate) const INPUT_NAME: &str = "standard input";

/// What a person is told of the input that a word names.
pub fn name_of_input(word: &str) -> &str {
    if word == STANDARD_INPUT {
        return INPUT_NAME;
    }
    word
}

/// A file, or standard input: each call is passed on as it is; or nothing, which is at its end.
#[derive(Drop)]
pub enum InputDevice {
    File(File),
    Standard(Stdin),
    Nothing,
}

impl InputDevice {
    /// The input that a word names.
    pub fn open(rt: &HostRuntime, word: &str) -> io::Result<InputDevice> {
        if word == STANDARD_INPUT {
            return Ok(InputDevice::Standard(rt.stdin()));
        }
        Ok(InputDevice::File(File::open(rt, word)?))
    }
}

impl Read for InputDevice {
    fn read(&mut self, buf: &mut [u8]) -> io::Result<usize> {
        match self {
            InputDevice::File(file) => file.read(buf),
            InputDevice::Standard(stdin) => stdin.read(buf),
            InputDevice::Nothing => Ok(0),
        }
    }
}

/// The longest line that is remembered, in bytes: no fault's line is as long.
const LONGEST: usize = 128;

/// A reader or a writer, and why its last call failed that did. Each call is passed on as it is.
#[derive(Drop)]
pub struct Traced<T> {
    device: T,
    code: Option<i32>,
}

impl<T> Traced<T> {
    /// A device of which no call has failed yet.
    pub fn new(device: T) -> Traced<T> {
        Traced { device, code: None }
    }

    /// Why the last failed call failed, where the system said so.
    pub fn reason(&self) -> Option<io::Error> {
        match self.code {
            Some(code) => Some(io::Error::from_raw_os_error(code)),
            None => None,
        }
    }
}

impl<R: Read> Read for Traced<R> {
    ghost remaining = { λ traced. R.remaining traced.device };

    fn read(&mut self, buf: &mut [u8]) -> io::Result<usize> {
        let read = self.device.read(buf);
        if let Err(error) = &read {
            self.code = error.raw_os_error();
        }
        read
    }
}

impl<W: Write> Write for Traced<W> {
    ghost contents = { λ traced. W.contents traced.device };

    fn write(&mut self, buf: &[u8]) -> io::Result<usize> {
        let written = self.device.write(buf);
        if let Err(error) = &written {
            self.code = error.raw_os_error();
        }
        written
    }

    fn flush(&mut self) -> io::Result<()> {
        self.device.flush()
    }
}

/// The last line of a text that comes piece by piece. Of one that is too long it is the beginning.
#[derive(Drop)]
struct LastLine {
    bytes: [u8; LONGEST],
    length: usize,
    ended: bool,
}

impl LastLine {
    fn add(&mut self, piece: &[u8]) {
        for byte in piece {
            if self.ended {
                self.length = 0;
            }
            self.ended = *byte == b'\n';
            if !self.ended && self.length < LONGEST {
                self.bytes[self.length] = *byte;
                self.length += 1;
            }
        }
    }
}

/// A writer, and the last line that it took. Each call is passed on as it is.
#[derive(Drop)]
pub struct WatchedWriter<W> {
    device: W,
    last: LastLine,
}

impl<W> WatchedWriter<W> {
    /// A device to which no line was written yet.
    pub fn new(device: W) -> WatchedWriter<W> {
        WatchedWriter {
            device,
            last: LastLine {
                bytes: [0; LONGEST],
                length: 0,
                ended: false,
            },
        }
    }

    /// The writer itself.
    pub fn device(&self) -> &W {
        &self.device
    }

    /// The writer itself, to be called past what is remembered.
    pub fn device_mut(&mut self) -> &mut W {
        &mut self.device
    }

    /// The last line, without its line feed.
    pub fn line(&self) -> &str {
        let length = self.last.length.min(LONGEST);
        std::str::from_utf8(&self.last.bytes[..length]).unwrap_or("")
    }
}

impl<W: Write> Write for WatchedWriter<W> {
    ghost contents = { λ heard. W.contents heard.device };

    fn write(&mut self, buf: &[u8]) -> io::Result<usize> {
        let written = self.device.write(buf);
        if let Ok(count) = &written {
            self.last.add(&buf[..buf.len().min(*count)]);
        }
        written
    }

    fn flush(&mut self) -> io::Result<()> {
        self.device.flush()
    }
}
