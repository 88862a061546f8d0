//! The items of `afdx_port`.

ghost use Rattle.std.specs.Prelude.{◌≤◌};
ghost use Rattle.std.proofs.Props.{props};
ghost use Rattle.std.specs.Prelude.{IfSome};
ghost use Rattle.afdx_frame.specs.Lengths.{least_frame, greatest_frame};
ghost use Rattle.afdx_port.specs.Times.{greatest_wait};

use afdx_frame::Priority;
use afdx_port::{HasLength, Left, Port};
use afdx_test_samples::equal;
use std::alloc::{AllocError, Global};
use std::test::Fail;

/// A frame, and how long it waits at most.
#[derive(Clone, Copy, Drop, PartialEq, Debug)]
struct Frame {
    bytes: u64,
    wait: Option<u64>,
    ghost least: { least_frame ≤ bytes },
    ghost most: { bytes ≤ greatest_frame },
    ghost lasts: { IfSome wait (λ w. w ≤ greatest_wait) } by { Prim.hlevel props },
}

impl HasLength for Frame {
    ghost facts = { λ f. record { bytes = f.bytes; longest_wait = f.wait } };

    fn length(&self) -> u64 {
        self.bytes
    }

    fn longest_wait(&self) -> Option<u64> {
        self.wait
    }

    ghost lawful = { λ f. record { least = f.least; most = f.most; wait = f.lasts } };
}

const FRAME: Frame = Frame {
    bytes: 64,
    wait: None,
};

/// What left a port: the length of the frame, whether it is high, its end, and whether it was too
/// old.
fn parts(left: Left<Frame>) -> (u64, bool, u64, bool) {
    let item: Frame = left.item;
    let priority: Priority = left.priority;
    let end: u64 = left.end;
    let too_old: bool = left.too_old;
    (item.length(), priority == Priority::High, end, too_old)
}

/// A port of a line of 100 Mbit/s.
fn new_port(alloc: Global) -> Result<Port<Frame>, AllocError> {
    let (byte_ns, buffer): (u64, u64) = (80, 64);
    let port: Result<Port<Frame>, AllocError> = Port::new(alloc, byte_ns, buffer);
    port
}

/// What a new port gives of a frame, and what it answers to a second one.
fn passed(alloc: Global) -> Result<(bool, Option<(u64, bool, u64, bool)>), AllocError> {
    let (time, until): (u64, u64) = (0, 6720);
    let mut port = Port::new(alloc, 80, 64)?;
    let first: Result<(), Frame> = port.put(time, Priority::High, FRAME);
    let second: Result<(), Frame> = port.put(time, Priority::Low, FRAME);
    let left: Option<Left<Frame>> = port.take(until);
    Ok((first.is_ok() && second == Err(FRAME), left.map(parts)))
}

#[test]
fn turns(rt: HostRuntime) -> Result<(), Fail> {
    let (is_kept, left) = passed(rt.alloc())?;
    equal(is_kept, true)?;
    equal(left, Some((64, true, 6720, false)))?;
    equal(FRAME.longest_wait(), None)
}
