//! Sources judged while their frames come: what is told of short recordings, in its order, and what
//! is counted. Each row stands in crates/afdx_lawful/specs/Worked.antt too, or is like one there.

mod rows;

use afdx_conform::{Leeway, Spare};
use afdx_frame::{Checked, Policing, Side, VlId};
use afdx_lawful::{Apart, HeardFrame, JudgedSource, SourceCounts, SystemWay};
use afdx_police::LinkRule;
use afdx_test_samples::{HELLO, NUMBER, all_right, equal, sealed};
use rows::{EXACT, Line, ROWS, Row, Sent};
use std::alloc::{AllocError, Global};
use std::test::Fail;

/// A source, the memory of what it forgot, and what was told of it so far.
#[derive(Drop)]
struct Judge {
    source: JudgedSource,
    spare: Spare,
    found: Vec<Line>,
}

/// A frame as it is sent.
fn frame_of(sent: &Sent) -> [u8; 64] {
    let network = match sent.1 {
        Side::A => 0x20,
        Side::B => 0x40,
    };
    let (mut place, mut byte) = (60, 0);
    let mut is_damaged = false;
    for change in sent.3 {
        if change.0 == 63 {
            is_damaged = true;
        } else {
            (place, byte) = *change;
        }
    }
    let mut frame = sealed(&HELLO, &[(NUMBER, sent.2), (11, network), (place, byte)]);
    if is_damaged {
        frame[63] = !frame[63];
    }
    frame
}

/// Tells what waits no longer before this time.
fn tell_before(judge: &mut Judge, time: u64, end: Option<u64>) -> Result<(), AllocError> {
    for _ in 0..1_000_u32 {
        match judge.source.due() {
            Some(moment) if moment < time => {}
            _ => return Ok(()),
        }
        let Some(told) = judge.source.tell(end) else {
            return Ok(());
        };
        if let Some(finding) = told.finding() {
            judge.found.push((told.moment, told.side, finding))?;
        }
    }
    Ok(())
}

/// What is found of one more frame. Where memory was refused once, it comes again.
fn heard(
    judge: &mut Judge,
    line: u64,
    sent: &Sent,
    frame: &[u8; 64],
) -> Result<HeardFrame, AllocError> {
    let (time, side) = (sent.0.into(), sent.1);
    let spare = &mut judge.spare;
    match judge
        .source
        .came(spare, side, line, time, Checked::new(frame))
    {
        Err(_) => judge
            .source
            .came(spare, side, line, time, Checked::new(frame)),
        heard => heard,
    }
}

/// One more frame comes.
fn come(judge: &mut Judge, alloc: Global, line: u64, sent: &Sent) -> Result<(), AllocError> {
    let (time, side) = (sent.0.into(), sent.1);
    tell_before(judge, time, None)?;
    let frame = frame_of(sent);
    let heard = heard(judge, line, sent, &frame)?;
    let found = heard.findings(alloc, line)?;
    for finding in found.as_slice() {
        judge.found.push((time, side, *finding))?;
    }
    Ok(())
}

/// A source of link 1: frames of 64 bytes, a BAG of 1 ms, a jitter of 500 us, over a way of 17 us,
/// by 100 Mbit/s, to a system with a skew of a millisecond.
fn new_judge(alloc: Global, row: &Row) -> Result<Option<Judge>, AllocError> {
    let (slack, drift, start) = row.by;
    let Some(by) = Leeway::new(slack, drift, 0, 0, start) else {
        return Ok(None);
    };
    let Some(rule) = LinkRule::new(VlId(1), 1, 1, 64, 64, 500, Policing::Frame) else {
        return Ok(None);
    };
    let Some(way) = SystemWay::new(1_000_000, 17_000, 80) else {
        return Ok(None);
    };
    let mut ways = Vec::new(alloc);
    ways.push(way)?;
    let apart = match row.given {
        Some(ns) => Apart::given(alloc, ns),
        None => Some(Apart::left_by(ways)),
    };
    let Some(apart) = apart else {
        return Ok(None);
    };
    Ok(Some(Judge {
        source: JudgedSource::new(alloc, &rule, 1, &by, apart, true),
        spare: Spare::new(alloc),
        found: Vec::new(alloc),
    }))
}

/// Whether these lines were told, of so many frames, and none is left.
fn is_all(judge: &Judge, found: &[Line], counts: SourceCounts) -> bool {
    let is_counted = judge.source.counts() == counts && judge.source.held() == 0;
    is_counted && judge.found.as_slice() == found
}

/// Whether what this source tells and counts of the row is what it says.
fn is_told(alloc: Global, judge: &mut Judge, row: &Row) -> Result<bool, AllocError> {
    let mut line = 0_u64;
    for sent in row.sent {
        line = line.saturating_add(1);
        come(judge, alloc, line, sent)?;
    }
    tell_before(judge, u64::MAX, Some(row.until))?;
    let (sent, cut) = row.counts;
    Ok(is_all(judge, row.found, SourceCounts { sent, cut }))
}

/// Whether what is told and counted of the row is what it says.
fn is_right(alloc: Global, row: &Row) -> Result<bool, AllocError> {
    let Some(mut judge) = new_judge(alloc, row)? else {
        return Ok(false);
    };
    is_told(alloc, &mut judge, row)
}

/// The first row of which something else is told.
fn first_wrong(alloc: Global) -> Result<Option<&'static str>, AllocError> {
    let rows = &ROWS;
    for row in rows {
        if !is_right(alloc, row)? {
            return Ok(Some(row.name));
        }
    }
    Ok(None)
}

/// Copies that come late.
const LATE: Row = Row {
    name: "late copies",
    by: EXACT,
    given: Some(100_000_000),
    until: 2_500_000,
    sent: &[
        (0, Side::A, 0, &[]),
        (1_000_000, Side::A, 1, &[]),
        (1_500_000, Side::B, 0, &[]),
        (2_500_000, Side::B, 1, &[]),
    ],
    found: &[],
    counts: (4, 0),
};

#[test]
fn refused_frames_come_again(rt: HostRuntime) -> Result<(), Fail> {
    let judge = match new_judge(rt.alloc(), &LATE) {
        Err(_) => new_judge(rt.alloc(), &LATE)?,
        Ok(judge) => judge,
    };
    let Some(mut judge) = judge else {
        return equal(true, false);
    };
    equal(is_told(rt.alloc(), &mut judge, &LATE)?, true)
}

#[test]
fn rows_are_judged(rt: HostRuntime) -> Result<(), Fail> {
    all_right(first_wrong(rt.alloc())?)
}

#[test]
fn one_hold_is_kept(rt: HostRuntime) -> Result<(), Fail> {
    let Some(mut judge) = new_judge(rt.alloc(), &ROWS[0])? else {
        return equal(true, false);
    };
    let mut most = 0_usize;
    for place in 0..200_u32 {
        let sent: Sent = (place * 1_000_000, Side::A, 0, &[]);
        come(&mut judge, rt.alloc(), place.into(), &sent)?;
        most = most.max(judge.source.held());
    }
    equal(most, 101)
}
