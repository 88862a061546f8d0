//! The items of `afdx_config`.

use afdx_config::{
    ComRow, ConfigFault, Kind, Link, Part, Place, System, SystemId, Tables, read_tables,
};
use afdx_frame::{Policing, Priority, VlId};
use afdx_test_samples::{base, equal};
use std::alloc::Global;
use std::test::Fail;

/// The place of a fault in the order of the checks, and where it is.
fn told(fault: ConfigFault) -> (u8, Option<Place>) {
    match fault {
        ConfigFault::NotToml => (1, None),
        ConfigFault::BadProfile => (2, None),
        ConfigFault::Missing(place) => (3, Some(place)),
        ConfigFault::WrongKind(place) => (4, Some(place)),
        ConfigFault::UnknownKey(place) => (5, Some(place)),
        ConfigFault::OutOfRange(place) => (6, Some(place)),
        ConfigFault::Twice(place) => (7, Some(place)),
        ConfigFault::NoSuchSystem(place) => (8, Some(place)),
        ConfigFault::Memory => (9, None),
    }
}

/// Where a check looks, in numbers.
fn spot(place: Place) -> (u8, usize, u8) {
    let part: Part = place.part;
    let index: usize = place.index;
    let key: u8 = place.key;
    let number = match part {
        Part::Top => 0,
        Part::System => 1,
        Part::Link => 2,
        Part::Port => 3,
        Part::Neighbour => 4,
    };
    (number, index, key)
}

/// The numbers of a system.
fn system_numbers(system: &System) -> (u8, u16, u8, u64) {
    let port: u8 = system.port;
    let id: u16 = system.id;
    let partition: u8 = system.partition;
    let rate: u64 = system.rate;
    (port, id, partition, rate)
}

/// The traffic of a link.
fn traffic(link: &Link) -> (u64, u64, u64, u64, u64) {
    let bag_ms: u64 = link.bag_ms;
    let lmin: u64 = link.lmin;
    let lmax: u64 = link.lmax;
    let jitter_us: u64 = link.jitter_us;
    let subs: u64 = link.subs;
    (bag_ms, lmin, lmax, jitter_us, subs)
}

/// How a link is treated.
fn treatment(link: &Link) -> (Priority, Policing, u64, u64) {
    let priority: Priority = link.priority;
    let policing: Policing = link.policing;
    let latency_us: u64 = link.latency_us;
    let skew_us: u64 = link.skew_us;
    (priority, policing, latency_us, skew_us)
}

/// From where a link goes, and to how many systems.
fn ends(link: &Link) -> (VlId, SystemId, usize) {
    let vl: VlId = link.vl;
    let from: SystemId = link.from;
    let to: &Vec<SystemId> = &link.to;
    (vl, from, to.len())
}

/// A communication port.
fn com_parts(com: &ComRow) -> (SystemId, VlId, u16, bool, u64) {
    let system: SystemId = com.system;
    let link: VlId = com.link;
    let udp: u16 = com.udp;
    let depth: u64 = com.depth;
    let is_sampling = match com.kind {
        Kind::Sampling => true,
        Kind::Queuing => false,
    };
    (system, link, udp, is_sampling, depth)
}

/// The base tables.
fn tables_of(alloc: Global, text: &[u8]) -> Result<Tables, ConfigFault> {
    let tables: Result<Tables, ConfigFault> = read_tables(alloc, text);
    tables
}

/// The profile, the buffer, and how many rows there are.
fn counts(tables: &Tables) -> (u64, u64, usize, usize, usize) {
    let profile: u64 = tables.profile();
    let buffer: u64 = tables.buffer();
    let systems: usize = tables.system_count();
    let links: usize = tables.link_count();
    let coms: usize = tables.com_count();
    (profile, buffer, systems, links, coms)
}

/// How many systems there are, whether one stands at a place, and which one hears at a port.
fn own(tables: &Tables) -> (usize, bool, Option<SystemId>) {
    let count: usize = tables.own_count();
    let is_own: bool = tables.is_own(SystemId(3));
    let listener: Option<SystemId> = tables.listener_at(1);
    (count, is_own, listener)
}

/// What is found by a name, a port and an identifier.
fn found(tables: &Tables) -> (Option<SystemId>, Option<SystemId>, Option<usize>) {
    let named: Option<SystemId> = tables.system_named("s2");
    let at: Option<SystemId> = tables.system_at(3);
    let of: Option<usize> = tables.link_of(VlId(2));
    (named, at, of)
}

#[test]
fn tables(rt: HostRuntime) -> Result<(), Fail> {
    let tables = tables_of(rt.alloc(), base().as_bytes())?;
    equal(counts(&tables), (1, 252, 3, 2, 2))?;
    let (second, third) = (Some(SystemId(1)), Some(SystemId(2)));
    equal(own(&tables), (3, false, Some(SystemId(0))))?;
    equal(found(&tables), (second, third, Some(1)))
}

/// Whether the first rows are those of the base tables.
fn are_rows(tables: &Tables) -> bool {
    if tables.system_count() < 3 || tables.link_count() < 1 || tables.com_count() < 1 {
        return false;
    }
    let system: &System = tables.system(SystemId(2));
    let link: &Link = tables.link(0);
    let com: &ComRow = tables.com(0);
    let goes: bool = tables.goes_to(0, SystemId(2));
    let name: &String = &system.name;
    goes && name.as_str() == "s3"
        && system_numbers(system) == (3, 3, 1, 100)
        && is_first_link(link)
        && com_parts(com) == (SystemId(2), VlId(1), 1000, true, 1)
}

/// Whether a link is the first of the base tables.
fn is_first_link(link: &Link) -> bool {
    ends(link) == (VlId(1), SystemId(0), 1)
        && traffic(link) == (1, 64, 64, 500, 2)
        && treatment(link) == (Priority::High, Policing::Frame, 17, 1000)
}

#[test]
fn rows(rt: HostRuntime) -> Result<(), Fail> {
    let tables = tables_of(rt.alloc(), base().as_bytes())?;
    equal(are_rows(&tables), true)
}

#[test]
fn faults(rt: HostRuntime) -> Result<(), Fail> {
    let fault = tables_of(rt.alloc(), b"profile = 1\n").err().map(told);
    let (number, place) = fault.ok_or("a fault")?;
    equal((number, place.map(spot)), (3, Some((0, 0, 2))))
}
