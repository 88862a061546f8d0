//! Two switches. What a file describes, its faults and its admission are tried at the program
//! (tests/run/cascades.py), what happens in them too (tests/run/cascade_runs.py).

use afdx_config::{ConfigFault, Described, FileFault, Switches, read_file};
use std::alloc::Global;
use std::test::Fail;

mod refused;

fn read(alloc: Global, text: &str) -> Result<Described, FileFault> {
    match read_file(alloc, text.as_bytes()) {
        Err(fault) if fault.fault == ConfigFault::Memory => read_file(alloc, text.as_bytes()),
        answer => answer,
    }
}

/// The switches of a text. Fails where it describes one.
fn switches_of(alloc: Global, text: &str) -> Result<Switches, Fail> {
    match read(alloc, text)? {
        Described::Several(switches) => Ok(switches),
        Described::One(_) => Err("one switch".into()),
    }
}
