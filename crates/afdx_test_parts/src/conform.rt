//! A stream whose arrivals and frames come one after another lets go of what it decided. What is
//! found in streams is tried at the program (tests/run/conformance.py).

use afdx_conform::{Arrived, CheckedBytes, Finding, Leeway, LeftFrame, Spare, Stream};
use afdx_frame::{Checked, Policing, Side, VlId};
use afdx_police::LinkRule;
use afdx_test_samples::{equal, hello};
use std::alloc::{AllocError, Global};
use std::test::Fail;

/// A stream, the memory of what it forgot, and what was found in it so far.
#[derive(Drop)]
struct Told {
    stream: Stream,
    spare: Spare,
    found: Vec<Finding>,
}

/// Decides what is due before this time.
fn decide_before(told: &mut Told, time: u64) -> Result<(), AllocError> {
    for _ in 0..2_000_u32 {
        match told.stream.due() {
            Some(moment) if moment < time => {}
            _ => return Ok(()),
        }
        let more = told.stream.decide(&mut told.spare, None)?;
        for finding in more.as_slice() {
            told.found.push(*finding)?;
        }
    }
    Ok(())
}

/// One more arrival of this frame at this time. It leaves 6,720 ns later.
fn pass(
    told: &mut Told,
    rule: &LinkRule,
    number: u64,
    time: u32,
    frame: &[u8; 64],
) -> Result<(), AllocError> {
    let (came, left): (u64, u64) = (time.into(), u64::from(time).saturating_add(6_720));
    decide_before(told, came)?;
    let bytes = CheckedBytes::of(&mut told.spare, Checked::new(frame))?;
    told.stream
        .came(Arrived::new(rule, number, came, Side::A, 1, bytes))?;
    decide_before(told, left)?;
    let bytes = CheckedBytes::of(&mut told.spare, Checked::new(frame))?;
    told.stream.left(LeftFrame {
        number,
        time: left,
        bytes,
    })
}

/// A stream of a link with frames of 64 bytes, a BAG of 1 ms, a jitter of 500 us and a latency of
/// 17 us, at a port of 100 Mbit/s.
fn new_stream(alloc: Global) -> Option<(LinkRule, Told)> {
    let by = Leeway::new(0, 0, 0, 0, None)?;
    let rule = LinkRule::new(VlId(1), 1, 1, 64, 64, 500, Policing::Frame)?;
    let stream = Stream::new(alloc, &rule, 17_000, 80, by);
    let told = Told {
        stream,
        spare: Spare::new(alloc),
        found: Vec::new(alloc),
    };
    Some((rule, told))
}

#[test]
fn what_is_decided_is_let_go_of(rt: HostRuntime) -> Result<(), Fail> {
    let Some((rule, mut told)) = new_stream(rt.alloc()) else {
        return equal(true, false);
    };
    let frame = hello(0);
    let mut most = 0_usize;
    for place in 0..200_u32 {
        pass(&mut told, &rule, place.into(), place * 1_000_000, &frame)?;
        most = most.max(told.stream.held());
    }
    equal((told.found.len(), most <= 8), (0, true))?;
    decide_before(&mut told, u64::MAX)?;
    equal((told.stream.due(), told.stream.held()), (None, 0))
}

#[test]
fn recorders_may_be_apart() -> Result<(), Fail> {
    let together = Leeway::new(1, 0, 0, 0, None).ok_or("a leeway")?;
    let apart = together.apart(100_000_000).ok_or("a leeway")?;
    let beyond = together.apart(100_000_001);
    equal((together.reach(), apart.reach()), (2, 100_000_002))?;
    equal((apart.slack, apart.between), (1, 100_000_000))?;
    equal(beyond.is_none(), true)
}
