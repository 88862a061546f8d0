//! What a line of a list of several switches says. Its faults are tried at the program
//! (tests/run/cascade_runs.py).

use afdx_frame::{Seal, Side};
use afdx_input_lines::{Heading, LineError, ListedSwitch, read_sited_line};
use afdx_test_samples::all_right;
use std::alloc::{AllocError, Global};
use std::test::Fail;

/// A switch with a cable at this port, and nothing said of the ports of greater numbers.
fn switch(alloc: Global, name: &str, cable: usize) -> Result<ListedSwitch, AllocError> {
    let mut cables = Vec::new(alloc);
    cables.resize(cable, false)?;
    cables.push(true)?;
    Ok(ListedSwitch::new(String::from_str(alloc, name)?, cables))
}

/// What a line says after a frame at time 5, and the message of its frame, where two switches are
/// joined by a cable at port 24 of the one and port 20 of the other.
fn said(alloc: Global, line: &str) -> Result<(Option<Heading>, Vec<u8>), LineError> {
    let switches = [switch(alloc, "fwd", 24)?, switch(alloc, "aft", 20)?];
    let mut frame = Vec::new(alloc);
    let heading = read_sited_line(line.as_bytes(), 5, &switches, &mut frame)?;
    Ok((heading, frame))
}

/// What a line says of a frame at this port of the switch at this place.
fn heading(side: Side, switch: u8, port: u8, seal: Seal) -> Heading {
    Heading {
        time: 6,
        side,
        switch,
        port,
        seal,
    }
}

/// Whether a line says a frame with this heading and message.
fn says_frame(alloc: Global, line: &str, wanted: Heading, message: &[u8]) -> bool {
    match said(alloc, line) {
        Ok((Some(heading), frame)) => (heading, frame.as_slice()) == (wanted, message),
        _ => false,
    }
}

#[test]
fn lines_that_say_a_frame(rt: HostRuntime) -> Result<(), Fail> {
    let lines = [
        (
            "F 6 A fwd 20 68656c6c6f",
            heading(Side::A, 0, 20, Seal::Right),
            b"hello".as_slice(),
        ),
        (
            "B 6 B aft 24 68656c6c6f",
            heading(Side::B, 1, 24, Seal::Wrong),
            b"hello",
        ),
    ];
    let mut wrong = None;
    for (line, heading, message) in lines {
        if !says_frame(rt.alloc(), line, heading, message) {
            wrong = Some(line);
        }
    }
    all_right(wrong)
}
