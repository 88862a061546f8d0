//! The items of `afdx_comport`.

use afdx_comport::{ComPorts, PutFault};
use afdx_config::{SystemId, Tables};
use afdx_frame::VlId;
use afdx_test_samples::{base_tables, equal};
use std::alloc::{AllocError, Global};
use std::test::Fail;

/// The place of a refusal in the order in which they are answered.
fn place(fault: PutFault) -> u8 {
    match fault {
        PutFault::Full => 1,
        PutFault::Memory => 2,
    }
}

/// The ports of the third system.
fn new_ports(alloc: Global, tables: &Tables) -> Result<ComPorts, AllocError> {
    let ports: Result<ComPorts, AllocError> = ComPorts::new(alloc, tables, SystemId(2));
    ports
}

/// Whether a sampling port has a message that was put to it.
fn is_shown(ports: &mut ComPorts) -> bool {
    let udp: u16 = 1000;
    let row: u16 = 0;
    let near: Option<usize> = ports.find_near(row, VlId(1), udp);
    let found: Option<usize> = ports.find(VlId(1), udp);
    let Some(port) = found else {
        return false;
    };
    let (time, message): (u64, &[u8]) = (5, b"a");
    let taken: Result<(), PutFault> = ports.put(port, time, message);
    let is_taken = taken.map_err(place).is_ok();
    let shown: Option<(u64, &[u8])> = ports.read_sample(port);
    near == found && is_taken && shown == Some((time, message))
}

/// Whether a queue gives a message that was put to it.
fn is_given(ports: &mut ComPorts) -> bool {
    let Some(port) = ports.find(VlId(2), 2000) else {
        return false;
    };
    let is_taken = ports.put(port, 5, b"b").is_ok();
    let given: Option<Vec<u8>> = ports.take_queued(port);
    match given {
        Some(message) => is_taken && message.as_slice() == b"b".as_slice(),
        None => false,
    }
}

#[test]
fn ports(rt: HostRuntime) -> Result<(), Fail> {
    let tables = base_tables(rt.alloc())?;
    let mut ports = new_ports(rt.alloc(), &tables)?;
    equal(is_shown(&mut ports), true)?;
    equal(is_given(&mut ports), true)
}
