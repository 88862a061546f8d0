//! What a number of a recording becomes. Each line of the table is tried at the program
//! (tests/recordings/outcome_rows.py).

use afdx_config::ConfigFault;
use afdx_frame::Side;
use afdx_input_files::{CheckSequence, Recorded, RecordedFrame, Stamp};
use afdx_input_sources::{
    Interfaces, RecordingOptions, SystemPorts, TapPoint, UnsaidPort, becomes,
};
use afdx_test_samples::{HELLO, base_tables, equal};
use std::alloc::{AllocError, Global};
use std::test::Fail;

/// A frame of interface 3, without its check sequence.
const FRAME: RecordedFrame = RecordedFrame {
    interface: 3,
    link_type: 1,
    stamp: Stamp::At(1_000),
    original: 60,
    check_sequence: CheckSequence::Without,
    found_wrong: false,
};

/// The side, the port and the moment of the arrival that the frame `hello` becomes.
fn arrival(alloc: Global) -> Result<Option<(Side, u8, u64)>, ConfigFault> {
    let tables = base_tables(alloc)?;
    let ports = SystemPorts::unsaid(alloc, UnsaidPort::OfSender(&tables))?;
    let options = RecordingOptions::none(alloc)?;
    match becomes(
        &options,
        &ports,
        7,
        &Recorded::Frame(FRAME),
        HELLO.as_slice(),
    ) {
        Ok(found) => Ok(Some((found.side, found.port, found.moment))),
        Err(_) => Ok(None),
    }
}

#[test]
fn a_recorded_frame_is_an_arrival(rt: HostRuntime) -> Result<(), Fail> {
    equal(arrival(rt.alloc())?, Some((Side::A, 1, 1_000)))
}

/// How many of two interfaces of which something is said aren't among so many, and the least.
type Unused = ([u64; 3], [Option<u64>; 3]);

fn unused(alloc: Global) -> Result<Unused, AllocError> {
    let mut interfaces = Interfaces::new(alloc)?;
    interfaces.put(2, TapPoint::LeftOut);
    interfaces.put(3, TapPoint::OnSide(Side::A));
    let counts = [2, 3, 4];
    let least = counts.map(|count| interfaces.first_unused(count));
    Ok((counts.map(|count| interfaces.unused(count)), least))
}

#[test]
fn interfaces_that_arent_there_are_unused(rt: HostRuntime) -> Result<(), Fail> {
    equal(unused(rt.alloc())?, ([2, 1, 0], [Some(2), Some(3), None]))
}
