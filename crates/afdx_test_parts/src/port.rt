//! A port with the largest buffer. What becomes of frames at ports is tried at the program
//! (tests/program/replay.sh).

ghost use Rattle.std.specs.Prelude.{◌≡◌, ◌≤◌, IfOk, IfSome};
ghost use Rattle.std.proofs.Props.{props};
ghost use Rattle.afdx_frame.specs.Lengths.{least_frame, greatest_frame};
ghost use Rattle.afdx_port.specs.Held.{last_time};
ghost use Rattle.afdx_port.specs.Times.{greatest_wait};

use afdx_frame::Priority;
use afdx_port::{HasLength, Port};
use afdx_test_samples::equal;
use std::alloc::{AllocError, Global};
use std::test::Fail;

/// A frame, and how long it waits at most.
#[derive(Clone, Copy, Drop)]
struct Frame {
    bytes: u64,
    wait: Option<u64>,
    ghost least: { least_frame ≤ bytes },
    ghost most: { bytes ≤ greatest_frame },
    ghost lasts: { IfSome wait (λ w. w ≤ greatest_wait) } by { Prim.hlevel props },
}

impl HasLength for Frame {
    ghost facts = { λ f. record { bytes = f.bytes; longest_wait = f.wait } };

    fn length(&self) -> u64 {
        self.bytes
    }

    fn longest_wait(&self) -> Option<u64> {
        self.wait
    }

    ghost lawful = { λ f. record { least = f.least; most = f.most; wait = f.lasts } };
}

const FRAME: Frame = Frame {
    bytes: 1518,
    wait: None,
};

/// An idle port of 100 Mbit/s with the largest buffer. Where a growth is refused, it is made again.
fn idle_port(alloc: Global) -> Result<Port<Frame>, AllocError>
    ensures clock { IfOk result (λ p. last_time p ≡ 0) }
{
    match Port::new(alloc, 80, 4_194_304) {
        Ok(port) => Ok(port),
        Err(AllocError) => Port::new(alloc, 80, 4_194_304),
    }
}

/// What leaves a port by a time: when, how long it is, and whether it was too old.
fn left(port: &mut Port<Frame>, until: u64) -> Option<(u64, u64, bool)>
    requires { last_time port.old ≤ until }
{
    port.take(until)
        .map(|left| (left.end, left.item.bytes, left.too_old))
}

/// What leaves a new port to which the longest frame came.
fn passed(alloc: Global) -> Result<Option<(u64, u64, bool)>, AllocError> {
    let mut port = idle_port(alloc)?;
    if !port.is_quiet(0) {
        return Ok(None);
    }
    if port.put(0, Priority::High, FRAME).is_err() {
        return Ok(None);
    }
    Ok(left(&mut port, 123_040))
}

#[test]
fn the_largest_buffer_or_refused(rt: HostRuntime) -> Result<(), Fail> {
    equal(passed(rt.alloc())?, Some((123_040, 1518, false)))
}
