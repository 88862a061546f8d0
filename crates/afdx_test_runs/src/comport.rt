//! Ports of a small network, filled and read. No command leaves messages in them.

use afdx_comport::{ComPorts, PutFault};
use afdx_config::{SystemId, Tables};
use afdx_frame::VlId;
use afdx_test_samples::{all_right, base_tables};
use std::alloc::{AllocError, Global};
use std::process::Abort;
use std::test::Fail;

/// Of all growths one alone may be refused in these tests: a call that is refused memory is made
/// again.
fn new_ports(alloc: Global, tables: &Tables, system: SystemId) -> Result<ComPorts, AllocError> {
    match ComPorts::new(alloc, tables, system) {
        Err(_) => ComPorts::new(alloc, tables, system),
        ports => ports,
    }
}

/// The ports of the third system.
fn base_ports(alloc: Global) -> Result<ComPorts, Fail> {
    let tables = base_tables(alloc)?;
    Ok(new_ports(alloc, &tables, SystemId(2))?)
}

/// What is done at the third system's ports, a sampling port of link 1 and a queue of link 2, and
/// what must become of it. A message has one byte.
#[derive(Clone, Copy, Debug, Drop)]
enum Step {
    /// A message comes at this time to the sampling port.
    Sample(u64, u8),
    /// The sampling port has the message of this time.
    Shows(u64, u8),
    /// The sampling port has no message yet.
    ShowsNone,
    /// A message comes to the queue.
    Queue(u8),
    /// A message comes to the queue, which is full.
    IsFull(u8),
    /// The oldest message is taken out of the queue.
    Takes(u8),
    /// The queue is empty.
    IsEmpty,
}

/// Whether nothing can be taken out of the sampling port, which is no queue.
fn is_no_queue(rt: &impl Abort, ports: &mut ComPorts) -> bool {
    let port = ports.find(VlId(1), 1000).expect(rt, "the sampling port");
    ports.take_queued(port).is_none()
}

/// The message of the sampling port, and when it came.
fn sample(rt: &impl Abort, ports: &mut ComPorts) -> Option<(u64, u8)> {
    assert!(rt; is_no_queue(rt, ports));
    let port = ports.find(VlId(1), 1000).expect(rt, "the sampling port");
    let (time, bytes) = ports.read_sample(port)?;
    let [byte] = bytes else { return None };
    Some((time, *byte))
}

/// A message comes to the sampling port. Where memory is refused it has the one before, and the
/// call is made again.
fn put_sample(rt: &impl Abort, ports: &mut ComPorts, time: u64, byte: u8) -> Result<(), PutFault> {
    let before = sample(rt, ports);
    let port = ports.find(VlId(1), 1000).expect(rt, "the sampling port");
    match ports.put(port, time, &[byte]) {
        Err(PutFault::Memory) => {
            assert_eq!(rt; sample(rt, ports), before);
            let port = ports.find(VlId(1), 1000).expect(rt, "the sampling port");
            ports.put(port, time, &[byte])
        }
        answer => answer,
    }
}

/// A message comes to the queue. Where memory is refused, the call is made again.
fn put_queued(rt: &impl Abort, ports: &mut ComPorts, message: &[u8]) -> Result<(), PutFault> {
    let port = ports.find(VlId(2), 2000).expect(rt, "the queue");
    match ports.put(port, 0, message) {
        Err(PutFault::Memory) => ports.put(port, 0, message),
        answer => answer,
    }
}

/// The oldest message, taken out of the queue. It is no sampling port.
fn take(rt: &impl Abort, ports: &mut ComPorts) -> Option<u8> {
    let port = ports.find(VlId(2), 2000).expect(rt, "the queue");
    assert!(rt; ports.read_sample(port).is_none());
    let bytes = ports.take_queued(port)?;
    let [byte] = bytes.as_slice() else {
        return None
    };
    Some(*byte)
}

/// Whether the answer is this one. Fails where memory was refused again.
fn is_answer(answer: Result<(), PutFault>, wanted: Result<(), PutFault>) -> Result<bool, PutFault> {
    match answer {
        Err(PutFault::Memory) => Err(PutFault::Memory),
        answer => Ok(answer == wanted),
    }
}

/// Whether what is done has become what it must. Fails where memory was refused again.
fn is_done(rt: &impl Abort, ports: &mut ComPorts, step: Step) -> Result<bool, PutFault> {
    match step {
        Step::Sample(time, byte) => is_answer(put_sample(rt, ports, time, byte), Ok(())),
        Step::Shows(time, byte) => Ok(sample(rt, ports) == Some((time, byte))),
        Step::ShowsNone => Ok(sample(rt, ports).is_none()),
        Step::Queue(byte) => is_answer(put_queued(rt, ports, &[byte]), Ok(())),
        Step::IsFull(byte) => is_answer(put_queued(rt, ports, &[byte]), Err(PutFault::Full)),
        Step::Takes(byte) => Ok(take(rt, ports) == Some(byte)),
        Step::IsEmpty => Ok(take(rt, ports).is_none()),
    }
}

/// Does one step after another at the ports, and tells the first that becomes something else. Fails
/// where memory was refused again.
fn wrong_step(
    rt: &impl Abort,
    ports: &mut ComPorts,
    steps: &[Step],
) -> Result<Option<Step>, PutFault> {
    for step in steps {
        if !is_done(rt, ports, *step)? {
            return Ok(Some(*step));
        }
    }
    Ok(None)
}

#[test]
fn first_in_is_first_out_through_refused_puts(rt: HostRuntime) -> Result<(), Fail> {
    let steps = [
        Step::IsEmpty,
        Step::Queue(1),
        Step::Queue(2),
        Step::Queue(3),
        Step::Queue(4),
        Step::IsFull(5),
        Step::Takes(1),
        Step::Queue(6),
        Step::Takes(2),
        Step::Takes(3),
        Step::Takes(4),
        Step::Takes(6),
        Step::IsEmpty,
    ];
    let mut ports = base_ports(rt.alloc())?;
    all_right(wrong_step(&rt, &mut ports, steps.as_slice())?)
}

#[test]
fn refused_put_leaves_the_sample(rt: HostRuntime) -> Result<(), Fail> {
    let steps = [
        Step::ShowsNone,
        Step::Sample(5, 1),
        Step::Shows(5, 1),
        Step::Sample(6, 2),
        Step::Shows(6, 2),
        Step::Shows(6, 2),
    ];
    let mut ports = base_ports(rt.alloc())?;
    all_right(wrong_step(&rt, &mut ports, steps.as_slice())?)
}

#[test]
fn each_port_by_itself(rt: HostRuntime) -> Result<(), Fail> {
    let steps = [
        Step::Sample(5, 1),
        Step::Queue(2),
        Step::Shows(5, 1),
        Step::Takes(2),
        Step::Shows(5, 1),
    ];
    let mut ports = base_ports(rt.alloc())?;
    all_right(wrong_step(&rt, &mut ports, steps.as_slice())?)
}

/// Whether the message is put to the queue of link 2, taken out of it and given back.
fn passes(rt: &impl Abort, ports: &mut ComPorts, message: &[u8]) -> bool {
    if put_queued(rt, ports, message).is_err() {
        return false;
    }
    let port = ports.find(VlId(2), 2000).expect(rt, "the queue");
    match ports.take_queued(port) {
        Some(bytes) => {
            let is_same = bytes.as_slice() == message;
            ports.give_back(port, bytes);
            is_same && ports.take_queued(port).is_none()
        }
        None => false,
    }
}

#[test]
fn given_back_room_holds_the_next_message(rt: HostRuntime) -> Result<(), Fail> {
    let mut ports = base_ports(rt.alloc())?;
    for message in [b"ab".as_slice(), b"cde", b"f", b"ghi"] {
        assert!(rt; passes(&rt, &mut ports, message));
    }
    Ok(())
}
