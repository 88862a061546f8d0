//! What a line says. Its faults are tried at the program (tests/program/police.sh, send.sh).

use afdx_frame::{Seal, Side};
use afdx_input_lines::{
    Handed, Heading, LineError, LineFault, read_frame_line, read_submission_line,
};
use afdx_test_samples::{all_right, equal};
use std::alloc::Global;
use std::test::Fail;

/// What a line says after a frame at time 5, and the message of its frame.
fn said(alloc: Global, line: &str) -> (Result<Option<Heading>, LineError>, Vec<u8>) {
    let mut frame = Vec::new(alloc);
    let heading = read_frame_line(line.as_bytes(), 5, &mut frame);
    (heading, frame)
}

/// A line that says a frame at port 24: the line, what it says, and the frame's message.
type Said<'a> = (&'a str, Heading, &'a [u8]);

/// What a line with a frame at port 24 says.
fn heading(time: u64, side: Side, seal: Seal) -> Heading {
    Heading {
        time,
        side,
        switch: 0,
        port: 24,
        seal,
    }
}

/// Whether a line says a frame with this heading and message.
fn says_frame(alloc: Global, line: &str, heading: Heading, message: &[u8]) -> bool {
    let (found, frame) = said(alloc, line);
    (found, frame.as_slice()) == (Ok(Some(heading)), message)
}

/// The first of the lines that doesn't say its frame.
fn says_another<'a>(alloc: Global, lines: &[Said<'a>]) -> Option<&'a str> {
    for (line, heading, message) in lines {
        if !says_frame(alloc, line, *heading, message) {
            return Some(line);
        }
    }
    None
}

#[test]
fn lines_that_say_a_frame(rt: HostRuntime) -> Result<(), Fail> {
    let message = b"123456789".as_slice();
    let lines = [
        (
            "B 6 B 24 313233343536373839",
            heading(6, Side::B, Seal::Wrong),
            message,
        ),
        (
            "R 6 B 24 3132333435363738392639f4cb\r",
            heading(6, Side::B, Seal::Right),
            message,
        ),
        (
            "R 0001000000000000000 A 000000000000000000000024 aBcD",
            heading(1_000_000_000_000_000, Side::A, Seal::Missing),
            b"\xab\xcd",
        ),
    ];
    all_right(says_another(rt.alloc(), &lines))
}

/// What a submission line says after one at 5 ns, and the bytes.
fn handed(alloc: Global, line: &str) -> (Result<Option<Handed>, LineError>, Vec<u8>) {
    let mut payload = Vec::new(alloc);
    let said = read_submission_line(line.as_bytes(), 5, &mut payload);
    (said, payload)
}

/// Whether a submission line says what is wanted, and with these bytes.
fn hands(alloc: Global, line: &str, wanted: Handed, bytes: &[u8]) -> bool {
    let (said, payload) = handed(alloc, line);
    (said, payload.as_slice()) == (Ok(Some(wanted)), bytes)
}

#[test]
fn a_submission_line(rt: HostRuntime) {
    let wanted = Handed {
        time: 6,
        vl: 65535,
        sub: 255,
        udp: 0,
    };
    let line = "006 65535 255 0 0aFF\r";
    assert!(rt; hands(rt.alloc(), line, wanted, &[0x0a, 0xff]));
}

#[test]
fn a_space_among_digits_whose_memory_is_refused(rt: HostRuntime) -> Result<(), Fail> {
    let bad_line = LineError::Fault(LineFault::BadLine);
    let of_frame = said(rt.alloc(), "F 6 A 1 00 00").0;
    let of_message = handed(rt.alloc(), "6 1 1 1000 00 00").0;
    equal((of_frame, of_message), (Err(bad_line), Err(bad_line)))
}
