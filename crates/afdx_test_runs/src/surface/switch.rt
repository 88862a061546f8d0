//! The items of `afdx_switch`.

use afdx_config::Tables;
use afdx_frame::Side;
use afdx_police::Reason;
use afdx_switch::{Departure, PortSet, Switch, Verdict};
use afdx_test_samples::{base_tables, equal, hello};
use std::alloc::{AllocError, Global};
use std::test::Fail;

/// Whether a frame was accepted, and lost nowhere.
fn is_kept(verdict: Verdict) -> bool {
    match verdict {
        Verdict::Dropped(reason) => {
            let _reason: Reason = reason;
            false
        }
        Verdict::Accepted { lost } => is_nowhere(lost),
    }
}

/// Whether there is no port in the set.
fn is_nowhere(lost: PortSet) -> bool {
    let is_there: bool = lost.holds(3);
    let is_empty: bool = lost.is_empty();
    is_empty && !is_there
}

/// What a departure tells of itself.
fn parts(departure: &Departure) -> (u64, u8, u64, u16, bool, usize) {
    let time: u64 = departure.time();
    let port: u8 = departure.port();
    let tag: u64 = departure.tag();
    let row: u16 = departure.row();
    let too_old: bool = departure.too_old();
    let held = departure.bytes();
    let bytes: &[u8] = held.as_slice();
    (time, port, tag, row, too_old, bytes.len())
}

/// What becomes of a frame at time 0, and what leaves by 6,720 ns.
fn passed(
    alloc: Global,
    tables: &Tables,
    frame: &[u8],
) -> Result<(Verdict, Option<Departure>), AllocError> {
    let made: Result<Switch, AllocError> = Switch::new(alloc, tables);
    let mut switch = made?;
    let (time, port, tag): (u64, u8, u64) = (0, 1, 7);
    let verdict: Result<Verdict, AllocError> = switch.arrive(time, port, tag, frame);
    let verdict = verdict?;
    let until: u64 = 6720;
    let left: Option<Departure> = switch.take(until);
    Ok((verdict, left))
}

#[test]
fn frames(rt: HostRuntime) -> Result<(), Fail> {
    let tables = base_tables(rt.alloc())?;
    let (verdict, left) = passed(rt.alloc(), &tables, &hello(0))?;
    let left = left.ok_or("a departure")?;
    equal(is_kept(verdict), true)?;
    equal(parts(&left), (6720, 3, 7, 0, false, 64))
}

#[test]
fn sides(rt: HostRuntime) -> Result<(), Fail> {
    let tables = base_tables(rt.alloc())?;
    let (_, left) = passed(rt.alloc(), &tables, &hello(0))?;
    let left = left.ok_or("a departure")?;
    let alone: Side = left.side();
    let of_b: Departure = left.on(Side::B);
    equal(alone, Side::A)?;
    equal(of_b.side(), Side::B)?;
    equal(parts(&of_b), (6720, 3, 7, 0, false, 64))
}

#[test]
fn memory_given_back(rt: HostRuntime) -> Result<(), Fail> {
    let tables = base_tables(rt.alloc())?;
    let mut switch = Switch::new(rt.alloc(), &tables)?;
    let _first = switch.arrive(0, 1, 7, &hello(0))?;
    let left = switch.take(6720).ok_or("a departure")?;
    switch.give_back(left);
    if switch.take(500_000).is_some() {
        return Err("one more leaves".into());
    }
    let verdict = switch.arrive(500_000, 1, 8, &hello(1))?;
    let next = switch.take(506_720).ok_or("the next departure")?;
    equal(is_kept(verdict), true)?;
    equal(parts(&next), (506_720, 3, 8, 0, false, 64))?;
    equal(next.bytes().as_slice(), hello(1).as_slice())
}
