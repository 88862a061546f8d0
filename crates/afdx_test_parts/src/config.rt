//! A configuration that is read where any one growth is refused: it is read again. Its faults are
//! tried at the program (tests/program/check.sh, tests/run/hostile.py).

use afdx_config::{ConfigFault, Part, Place, SystemId, Tables, read_tables};
use afdx_frame::VlId;
use afdx_test_samples::{base, changed, equal};
use std::alloc::Global;
use std::test::Fail;

fn read(alloc: Global, text: &[u8]) -> Result<Tables, ConfigFault> {
    match read_tables(alloc, text) {
        Err(ConfigFault::Memory) => read_tables(alloc, text),
        answer => answer,
    }
}

/// Whether the tables have the profile, the buffer and as many rows as the base tables.
fn are_counted(tables: &Tables) -> bool {
    let counts = (
        tables.system_count(),
        tables.link_count(),
        tables.com_count(),
    );
    (tables.profile(), tables.buffer()) == (1, 252) && counts == (3, 2, 2)
}

/// Whether the names and numbers of the base tables lead to their rows, and others to none.
fn are_found(tables: &Tables) -> bool {
    tables.system_named("s2") == Some(SystemId(1))
        && tables.system_named("s9").is_none()
        && tables.system_at(3) == Some(SystemId(2))
        && tables.system_at(4).is_none()
        && tables.link_of(VlId(2)) == Some(1)
        && tables.link_of(VlId(3)).is_none()
}

/// The fault of a text, if it has one.
fn fault_of(alloc: Global, text: &[u8]) -> Option<ConfigFault> {
    read(alloc, text).err()
}

#[test]
fn refused_readings_are_made_again(rt: HostRuntime) -> Result<(), Fail> {
    let tables = read(rt.alloc(), base().as_bytes())?;
    assert!(rt; are_counted(&tables) && are_found(&tables));
    let text = changed(base(), "depth = 4", "depth = 65")?;
    let fault = fault_of(rt.alloc(), text.as_bytes());
    let place = Place {
        part: Part::Port,
        index: 2,
        key: 5,
    };
    equal(fault, Some(ConfigFault::OutOfRange(place)))
}
