//! Lines are taken one at a time, and first bytes looked at, also from devices that move little.
//! Their limits are tried at the program (tests/program/police.sh), as are devices that fail
//! (tests/run/devices.py).

ghost use Rattle.std.specs.Prelude.{◌<◌};

use afdx_input_lines::{LineReader, Next, Peeked, RunFault, Watched};
use afdx_test_samples::WeakReader;
use std::alloc::{AllocError, Global};
use std::io::Read;

/// Takes the next line of an input, unless it ended or failed before.
fn next_line<R: Read>(input: &mut Watched<R>, reader: &mut LineReader) -> Result<Next, RunFault> {
    if input.failed() || input.ended() {
        return Ok(Next::Ended);
    }
    reader.next_line(input)
}

/// Puts the line that was taken last, with a bar behind it, to `text`.
fn put_line(reader: &LineReader, text: &mut Vec<u8>) -> Result<(), AllocError> {
    text.extend_from_slice(reader.line())?;
    text.extend_from_slice(b"|")
}

/// Takes the lines of an input until its end or a fault, and puts each with a bar behind it to
/// `text`.
fn take_lines<R: Read>(
    input: &mut Watched<R>,
    reader: &mut LineReader,
    text: &mut Vec<u8>,
) -> Result<(), RunFault> {
    for _ in 0..100_u64 {
        if let Next::Ended = next_line(input, reader)? {
            break;
        }
        put_line(reader, text)?;
    }
    Ok(())
}

/// Takes the lines of an input through a new reader.
fn take_all<R: Read>(
    alloc: Global,
    input: &mut Watched<R>,
    text: &mut Vec<u8>,
) -> Result<(), RunFault> {
    let mut reader = LineReader::new(alloc)?;
    take_lines(input, &mut reader, text)
}

/// Whether the lines of a list are taken as is wanted, at most `most` bytes a read, until its end.
fn are_taken(alloc: Global, list: &str, most: usize, wanted: &str) -> bool
    requires { 0 < most }
{
    let mut input = Watched::new(WeakReader {
        rest: list.as_bytes(),
        most,
        calls: 99,
    });
    let mut text = Vec::new(alloc);
    let answer = take_all(alloc, &mut input, &mut text);
    (answer, text.as_slice(), input.ended(), input.failed())
        == (Ok(()), wanted.as_bytes(), true, false)
}

/// Whether the first bytes of a list are looked at as is wanted, at most `most` bytes a read, and
/// its line is taken whole all the same.
fn is_looked_at(alloc: Global, list: &str, most: usize, wanted: &str) -> bool
    requires { 0 < most }
{
    let mut input = Watched::new(Peeked::new(WeakReader {
        rest: list.as_bytes(),
        most,
        calls: 99,
    }));
    if input.look() || input.seen() != wanted.as_bytes() {
        return false;
    }
    let mut reader = match LineReader::new(alloc) {
        Ok(reader) => reader,
        Err(_) => return false,
    };
    let taken = next_line(&mut input, &mut reader);
    (taken, reader.line()) == (Ok(Next::of_read(list.len())), list.as_bytes())
}

#[test]
fn first_bytes_are_looked_at(rt: HostRuntime) {
    for (list, wanted) in [("", ""), ("a", "a"), ("F 0 A 1 -", "F 0 ")] {
        for most in [1, 3, 16] {
            assert!(rt; is_looked_at(rt.alloc(), list, most, wanted), "{list}");
        }
    }
}

#[test]
fn lines_are_taken_whole(rt: HostRuntime) {
    for (list, wanted) in [
        ("", ""),
        ("a\n", "a|"),
        ("one\ntwo\r\n\nthree", "one|two\r||three|"),
        ("\r", "\r|"),
    ] {
        for most in [1, 2, 16] {
            assert!(rt; are_taken(rt.alloc(), list, most, wanted), "{list}");
        }
    }
}
