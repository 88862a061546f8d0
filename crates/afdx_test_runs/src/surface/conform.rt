//! The items of `afdx_conform`.

use afdx_conform::{Arrived, CheckedBytes, Counts, Finding, Leeway, LeftFrame, Spare, Stream};
use afdx_frame::{Checked, Policing, Side, VlId};
use afdx_police::LinkRule;
use afdx_test_samples::{equal, hello};
use std::alloc::{AllocError, Global};
use std::test::Fail;

/// A stream of link 1, at a port of 100 Mbit/s, with stamps that may be off by 1 ns, and recorders
/// that are 1,000 ns apart.
fn stream(alloc: Global, rule: &LinkRule) -> Option<Stream> {
    let (slack, drift, inner, asked): (u64, u64, u64, u64) = (1, 0, 0, 0);
    let start: Option<u64> = None;
    let by: Leeway = Leeway::new(slack, drift, inner, asked, start)?;
    let between: u64 = 1_000;
    let by: Leeway = by.apart(between)?;
    let (latency_ns, byte_ns): (u64, u64) = (17_000, 80);
    let stream: Stream = Stream::new(alloc, rule, latency_ns, byte_ns, by);
    Some(stream)
}

/// One arrival, and its frame.
fn tell(spare: &mut Spare, stream: &mut Stream, rule: &LinkRule) -> Result<(), AllocError> {
    let (number, side, port): (u64, Side, u8) = (1, Side::A, 1);
    let bytes: CheckedBytes = CheckedBytes::of(spare, Checked::new(&hello(0)))?;
    let arrived: Arrived = Arrived::new(rule, number, 0, side, port, bytes);
    let came: Result<(), AllocError> = stream.came(arrived);
    came?;
    let time: u64 = 6_720;
    let bytes: CheckedBytes = CheckedBytes::of(spare, Checked::new(&hello(0)))?;
    let left: Result<(), AllocError> = stream.left(LeftFrame {
        number,
        time,
        bytes,
    });
    left
}

#[test]
fn one_stream(rt: HostRuntime) -> Result<(), Fail> {
    let alloc = rt.alloc();
    let (vl, policing): (VlId, Policing) = (VlId(1), Policing::Frame);
    let rule: LinkRule = LinkRule::new(vl, 1, 1, 64, 64, 500, policing).ok_or("a rule")?;
    let mut stream = stream(alloc, &rule).ok_or("a leeway")?;
    let mut spare: Spare = Spare::new(alloc);
    tell(&mut spare, &mut stream, &rule)?;
    let due: Option<u64> = stream.due();
    let found: Result<Vec<Finding>, AllocError> = stream.decide(&mut spare, None);
    let found = found?;
    stream.end(100_000);
    let rest: Result<Vec<Finding>, AllocError> = stream.decide(&mut spare, Some(100_000));
    let rest = rest?;
    let unsure: Option<u64> = stream.unsure_behind();
    let counts: Counts = stream.counts();
    let held: usize = stream.held();
    equal((due, unsure), (Some(36_004), None))?;
    equal((found.len(), rest.len(), held <= 2), (0, 0, true))?;
    equal(
        (counts.explained, counts.waiting, counts.uncertain),
        (1, 0, 0),
    )
}
