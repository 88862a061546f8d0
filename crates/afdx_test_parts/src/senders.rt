//! The systems of a switch judged as senders, as a run does it: what is told of short lists, in its
//! order, and what is counted.

mod alone_rows;
mod copy_rows;
mod pace_rows;
mod row;
mod shape_rows;

use afdx_config::Tables;
use afdx_conform::Leeway;
use afdx_frame::{BySide, Checked, Side, fcs, vl_of};
use afdx_lawful::{Apart, SourceCounts, SystemWay};
use afdx_senders::{RecordedPorts, SenderLine, Senders, SiteFrame, ToldOf};
use afdx_test_samples::{HELLO, NUMBER, all_right, base_tables, equal, sealed, world};
use alone_rows::ALONE;
use copy_rows::COPIES;
use pace_rows::PACES;
use row::{Came, Kind, Line, Row, Said, Seen};
use shape_rows::SHAPES;
use std::alloc::{AllocError, Global};
use std::test::Fail;

/// The systems of a switch, and what was told of them so far.
#[derive(Drop)]
struct Run<'a> {
    senders: Senders<'a>,
    told: Vec<Line>,
}

/// The byte of a side's network in a source address.
fn network(side: Side) -> u8 {
    match side {
        Side::A => 0x20,
        Side::B => 0x40,
    }
}

/// The frame of link 1 with this number on a side, with one byte changed behind its address.
fn first(side: Side, number: u8, change: (usize, u8)) -> [u8; 64] {
    sealed(&HELLO, &[(NUMBER, number), (11, network(side)), change])
}

/// The same by a header that says that more fragments come.
fn fragment(side: Side) -> [u8; 64] {
    let changes = [(11, network(side)), (20, 0x20), (24, 0xad), (25, 0xea)];
    sealed(&HELLO, &changes)
}

/// A frame of link 1 with one more byte.
fn longer(alloc: Global, side: Side) -> Result<Vec<u8>, AllocError> {
    let frame = first(side, 0, (60, 0));
    let mut bytes = Vec::new(alloc);
    for place in 0..60_usize {
        bytes.push(frame[place])?;
    }
    bytes.push(0)?;
    let check = fcs(bytes.as_slice()).to_le_bytes();
    bytes.extend_from_slice(check.as_slice())?;
    Ok(bytes)
}

/// The bytes of a frame.
fn bytes_of(alloc: Global, came: &Came) -> Result<Vec<u8>, AllocError> {
    let side = came.1;
    let mut bytes = match came.3 {
        Kind::First(number) => first(side, number, (60, 0)),
        Kind::Changed(place, byte) => first(side, 0, (place, byte)),
        Kind::Crossed => sealed(&HELLO, &[]),
        Kind::Fragment => fragment(side),
        Kind::Damaged => first(side, 0, (60, 0)),
        Kind::Second => world(0),
        Kind::Unknown | Kind::DamagedUnknown => sealed(&HELLO, &[(5, 9)]),
        Kind::Strange => sealed(&[0xff; 60], &[]),
        Kind::Longer => return longer(alloc, side),
        Kind::Short => return Ok(Vec::from_array(alloc, [3, 0, 0, 0, 0, 1])?),
    };
    if came.3 == Kind::Damaged || came.3 == Kind::DamagedUnknown {
        bytes[63] = !bytes[63];
    }
    Ok(Vec::from_array(alloc, bytes)?)
}

/// What is told in a line is put behind what was told.
fn put_told(told: &mut Vec<Line>, alloc: Global, line: &SenderLine) -> Result<(), AllocError> {
    let (moment, side, port) = (line.moment, line.side, line.port);
    match line.told {
        ToldOf::Heard(heard) => {
            let found = heard.findings(alloc, line.line)?;
            for finding in found.as_slice() {
                told.push((moment, side, port, Said::Found(*finding)))?;
            }
        }
        ToldOf::Single => told.push((moment, side, port, Said::Single(line.line)))?,
        ToldOf::Strayed(why) => told.push((moment, side, port, Said::Strayed(line.line, why)))?,
    }
    Ok(())
}

/// Tells all lines of moments before a time, or all; the recordings end then, if that is known.
fn tell(
    run: &mut Run<'_>,
    alloc: Global,
    before: Option<u64>,
    end: Option<u64>,
) -> Result<(), AllocError> {
    for _ in 0..1_000_u32 {
        let Some(line) = run.senders.next(before, end)? else {
            return Ok(());
        };
        put_told(&mut run.told, alloc, &line)?;
    }
    Ok(())
}

/// One more frame comes: what is told before its time, then the frame.
fn come(run: &mut Run<'_>, alloc: Global, line: u64, came: &Came) -> Result<(), AllocError> {
    let time: u64 = came.0.into();
    tell(run, alloc, Some(time), None)?;
    let bytes = bytes_of(alloc, came)?;
    let frame = Checked::new(bytes.as_slice());
    let vl = vl_of(bytes.as_slice());
    run.senders.came(&SiteFrame {
        line,
        time,
        side: came.1,
        port: came.2,
        vl,
        frame,
    })
}

/// The input ports that were recorded: all of both sides, or port 1 of A, or of both.
fn recorded(seen: Seen) -> RecordedPorts {
    let mut first = [false; 256];
    first[1] = true;
    let (a, b) = match seen {
        Seen::All => ([true; 256], [true; 256]),
        Seen::First => (first, first),
        Seen::FirstOfA => (first, [false; 256]),
    };
    RecordedPorts {
        ports: BySide { a, b },
    }
}

/// How far apart the copies of a link may be sent whose way takes so long.
fn apart(alloc: Global, row: &Row, latency: u64) -> Result<Option<Apart>, AllocError> {
    if let Some(ns) = row.given {
        return Ok(Apart::given(alloc, ns));
    }
    let Some(way) = SystemWay::new(1_000_000, latency, 80) else {
        return Ok(None);
    };
    let mut ways = Vec::new(alloc);
    ways.push(way)?;
    Ok(Some(Apart::left_by(ways)))
}

/// The senders of the two links of the tables, of which nothing came yet.
fn new_run<'a>(
    alloc: Global,
    tables: &'a Tables,
    row: &Row,
) -> Result<Option<Run<'a>>, AllocError> {
    let (slack, drift, start) = row.by;
    let Some(by) = Leeway::new(slack, drift, 0, 0, start) else {
        return Ok(None);
    };
    let (Some(first), Some(second)) = (apart(alloc, row, 17_000)?, apart(alloc, row, 21_000)?)
    else {
        return Ok(None);
    };
    if tables.link_count() != 2 {
        return Ok(None);
    }
    let mut senders = match Senders::new(alloc, tables, None, recorded(row.seen)) {
        Ok(senders) => senders,
        Err(refused) => return Err(refused),
    };
    senders.judge(alloc, 0, &by, first);
    senders.judge(alloc, 1, &by, second);
    Ok(Some(Run {
        senders,
        told: Vec::new(alloc),
    }))
}

/// Whether these lines were told, of so many frames, and so many links were recorded on one side
/// alone.
fn is_all(run: &Run<'_>, row: &Row) -> bool {
    let (sent, cut, alone) = row.counts;
    let is_counted = run.senders.counts() == SourceCounts { sent, cut };
    is_counted && run.senders.alone() == alone && run.told.as_slice() == row.told
}

/// Whether what is told and counted of the row is what it says.
fn is_right(alloc: Global, tables: &Tables, row: &Row) -> Result<bool, AllocError> {
    let Some(mut run) = new_run(alloc, tables, row)? else {
        return Ok(false);
    };
    let mut line = 0_u64;
    for came in row.came {
        line = line.saturating_add(1);
        come(&mut run, alloc, line, came)?;
    }
    tell(&mut run, alloc, None, Some(row.until))?;
    Ok(is_all(&run, row))
}

/// The first of the rows of which something else is told.
fn first_wrong(
    alloc: Global,
    tables: &Tables,
    rows: &[Row],
) -> Result<Option<&'static str>, AllocError> {
    for row in rows {
        if !is_right(alloc, tables, row)? {
            return Ok(Some(row.name));
        }
    }
    Ok(None)
}

/// Fails where something else is told of one of these rows.
fn are_told(alloc: Global, rows: &[Row]) -> Result<(), Fail> {
    let tables = base_tables(alloc)?;
    all_right(first_wrong(alloc, &tables, rows)?)
}

#[test]
fn copies_are_compared(rt: HostRuntime) -> Result<(), Fail> {
    are_told(rt.alloc(), COPIES.as_slice())
}

#[test]
fn numbers_and_spacing(rt: HostRuntime) -> Result<(), Fail> {
    are_told(rt.alloc(), PACES.as_slice())
}

#[test]
fn unlawful_frames(rt: HostRuntime) -> Result<(), Fail> {
    are_told(rt.alloc(), SHAPES.as_slice())
}

#[test]
fn ports_that_were_not_recorded(rt: HostRuntime) -> Result<(), Fail> {
    are_told(rt.alloc(), ALONE.as_slice())
}

#[test]
fn nothing_comes(rt: HostRuntime) -> Result<(), Fail> {
    let tables = base_tables(rt.alloc())?;
    let Some(mut run) = new_run(rt.alloc(), &tables, &COPIES[0])? else {
        return equal(true, false);
    };
    tell(&mut run, rt.alloc(), None, Some(0))?;
    equal(run.told.len(), 0)
}
