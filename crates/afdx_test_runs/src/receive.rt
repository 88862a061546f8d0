//! Receptions of frames that no switch hands over. Numbers, copies and datagrams are tried at the
//! program (tests/program/replay.sh, tests/run/streams.py).

use afdx_config::{SystemId, Tables};
use afdx_frame::{MacFault, Side, VlId};
use afdx_receive::{DropReason, Receiver, Reception};
use afdx_test_samples::{HELLO, base_tables, hello, sealed};
use std::alloc::{AllocError, Global};
use std::test::Fail;

const SECOND: SystemId = SystemId(1);

const THIRD: SystemId = SystemId(2);

/// Of all growths one alone may be refused in these tests: a call that is refused memory is made
/// again.
fn new_receiver(alloc: Global, tables: &Tables, system: SystemId) -> Result<Receiver, AllocError> {
    match Receiver::new(alloc, tables, system) {
        Err(_) => Receiver::new(alloc, tables, system),
        receiver => receiver,
    }
}

fn base_receiver(alloc: Global, system: SystemId) -> Result<Receiver, Fail> {
    let tables = base_tables(alloc)?;
    Ok(new_receiver(alloc, &tables, system)?)
}

/// Whether it is the message `hello` of link 1.
fn is_hello(reception: Reception<'_>) -> bool {
    match reception {
        Reception::Message { vl, udp, bytes } => vl == VlId(1)
            && udp == 1000
            && bytes == b"hello".as_slice(),
        Reception::Dropped(_) => false,
    }
}

/// Whether it is dropped for this reason, or without one is the message `hello` of link 1.
fn is_answer(reception: Reception<'_>, wanted: Option<DropReason>) -> bool {
    match (reception, wanted) {
        (Reception::Dropped(reason), Some(why)) => reason == why,
        (reception, None) => is_hello(reception),
        (Reception::Message { .. }, Some(_)) => false,
    }
}

/// Whether a frame that comes at this time by this network is answered so.
fn answers(
    receiver: &mut Receiver,
    time: u64,
    side: Side,
    bytes: &[u8],
    wanted: Option<DropReason>,
) -> bool {
    is_answer(receiver.receive(time, side, bytes), wanted)
}

#[test]
fn refused_new_is_made_again(rt: HostRuntime) -> Result<(), Fail> {
    let mut receiver = base_receiver(rt.alloc(), THIRD)?;
    assert!(rt; answers(&mut receiver, 0, Side::A, &hello(0), None));
    Ok(())
}

/// Whether frames which aren't this receiver's are dropped, and `hello` is received then.
fn drops_what_is_not_its(receiver: &mut Receiver) -> bool {
    let stranger = Some(DropReason::NotSubscribed);
    let wrong = Some(DropReason::Mac(MacFault::BadFcs));
    let mut damaged = hello(0);
    damaged[63] ^= 0xff;
    answers(receiver, 0, Side::A, &sealed(&HELLO, &[(5, 9)]), stranger)
        && answers(receiver, 0, Side::A, &damaged, wrong)
        && answers(receiver, 0, Side::A, &hello(0), None)
}

#[test]
fn not_its_frames(rt: HostRuntime) -> Result<(), Fail> {
    let mut third = base_receiver(rt.alloc(), THIRD)?;
    assert!(rt; drops_what_is_not_its(&mut third));
    let mut second = base_receiver(rt.alloc(), SECOND)?;
    let stranger = Some(DropReason::NotSubscribed);
    assert!(rt; answers(&mut second, 0, Side::A, &hello(0), stranger));
    Ok(())
}
