//! The items of `afdx_receive`.

use afdx_config::{SystemId, Tables};
use afdx_frame::{IpFault, MacFault, Side, VlId};
use afdx_receive::{DropReason, Receiver, Reception};
use afdx_test_samples::{base_tables, equal, hello};
use std::alloc::{AllocError, Global};
use std::test::Fail;

/// The place of a reason in the order in which they are answered.
fn place(why: DropReason) -> u8 {
    match why {
        DropReason::Mac(fault) => {
            let _fault: MacFault = fault;
            1
        }
        DropReason::NotSubscribed => 2,
        DropReason::Sequence => 3,
        DropReason::Redundant => 4,
        DropReason::Ip(fault) => {
            let _fault: IpFault = fault;
            5
        }
        DropReason::NoPort => 6,
    }
}

/// The message of a reception, or the place of the reason why there is none.
fn told(reception: Reception<'_>) -> Result<(VlId, u16, &[u8]), u8> {
    match reception {
        Reception::Message { vl, udp, bytes } => Ok((vl, udp, bytes)),
        Reception::Dropped(why) => Err(place(why)),
    }
}

/// A receiver of the third system.
fn new_receiver(alloc: Global, tables: &Tables) -> Result<Receiver, AllocError> {
    let receiver: Result<Receiver, AllocError> = Receiver::new(alloc, tables, SystemId(2));
    receiver
}

/// What becomes of a frame.
fn received<'a>(
    receiver: &mut Receiver,
    side: Side,
    bytes: &'a [u8],
) -> Result<(VlId, u16, &'a [u8]), u8> {
    let time: u64 = 6720;
    let reception: Reception<'a> = receiver.receive(time, side, bytes);
    told(reception)
}

#[test]
fn receptions(rt: HostRuntime) -> Result<(), Fail> {
    let tables = base_tables(rt.alloc())?;
    let mut receiver = new_receiver(rt.alloc(), &tables)?;
    let frame = hello(0);
    let message = (VlId(1), 1000, b"hello".as_slice());
    equal(received(&mut receiver, Side::A, &frame), Ok(message))?;
    equal(received(&mut receiver, Side::B, &frame), Err(4))
}
