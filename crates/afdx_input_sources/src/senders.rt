//! What a frame's bytes say of where it came in, by its source address.

ghost use Rattle.std.specs.Prelude.{◌≡◌, ℕ, Option, IfOk, vec_len, ◌∷◌, [], map, slice_get, None};
ghost use Rattle.afdx_input_sources.specs.Claims as claims;
ghost use Rattle.afdx_input_sources.specs.Tables.{known};
ghost use Rattle.afdx_input_sources.specs.Claims.{Agree, HaveTimes, entry_among, own_systems, ports_of, ports_unsaid};
ghost use Rattle.afdx_input_sources.specs.declared.places.TapPort.{TapPort as At};

use crate::places::TapPort;
use afdx_config::{Described, SwitchId, Switches, SystemId, Tables};
use afdx_frame::Side;
use std::alloc::{AllocError, Global};

/// How many numbers a system may have: 0 to 65535.
const NUMBERS: usize = 65_536;

/// How many numbers a port may have, where no limit of them is known.
const PORTS: usize = 256;

/// Where a frame came in that no option says it of, and how long a byte lasts on a line.
#[derive(Debug, Drop)]
pub enum SystemPorts {
    /// At this port, whatever sent it. Of no line the rate is known.
    One(u8),
    /// At that of the system that sent it.
    BySender {
        /// For each number in a source address where the system stands that has it, if one has.
        entries: Vec<Option<TapPort>>,
        /// For each switch and each of its ports the time of a byte on the line of the system that
        /// has it, in ns.
        byte_ns: Vec<Vec<Option<u32>>>,
    },
}

/// Which port is meant where no option says at which a frame came in.
#[derive(Clone, Copy, Debug)]
pub enum UnsaidPort<'a> {
    /// This one, whatever sent the frame.
    One(u8),
    /// That of the system of these tables that the frame's source address names.
    OfSender(&'a Tables),
    /// That of the system of any of these switches that it names.
    OfSenders(&'a Switches),
}

impl UnsaidPort<'_> {
    /// That of the system of a configuration that the frame's source address names.
    pub fn of_sender_in(described: &Described) -> UnsaidPort<'_>
        ensures { ports_unsaid result ≡ claims.ports_in described.entry.now }
    {
        match described {
            Described::One(tables) => UnsaidPort::OfSender(tables),
            Described::Several(switches) => UnsaidPort::OfSenders(switches),
        }
    }
}

/// The number of a system in these bytes, with which a source address begins (ARINC 664 Part 7):
/// None unless they are 02 00 00 and at least two more.
fn number_in(source: &[u8]) -> Option<u16>
    ensures { result ≡ claims.number_in source.now }
{
    match source {
        [2, 0, 0, high, low, ..] => Some(u16::from_be_bytes([*high, *low])),
        _ => None,
    }
}

/// The number of a system in the source address, which stands behind six bytes.
#[tactic(auto, unfolding(crate::specs::Claims::sender_of))]
fn sender_of(bytes: &[u8]) -> Option<u16>
    ensures { result ≡ claims.sender_of bytes.now }
{
    if bytes.len() < 6 {
        return None;
    }
    number_in(&bytes[6..])
}

/// The network of a source address that ends in this byte (ARINC 664 Part 7).
fn side_named(last: u8) -> Option<Side>
    ensures { result ≡ claims.side_named last }
{
    if last == 0x20 {
        Some(Side::A)
    } else if last == 0x40 {
        Some(Side::B)
    } else {
        None
    }
}

/// The network that the source address names by its last byte.
#[tactic(auto, unfolding(crate::specs::Claims::side_claimed))]
pub(crate) fn side_claimed(bytes: &[u8]) -> Option<Side>
    ensures { result ≡ claims.side_claimed bytes.now }
{
    match bytes.get(11) {
        Some(last) => side_named(*last),
        None => None,
    }
}

/// Where the system stands that has this number.
fn entry_of(entries: &Vec<Option<TapPort>>, number: u16) -> Option<TapPort>
    ensures { result ≡ known (slice_get entries.now.items number) }
{
    match entries.get(usize::from(number)) {
        Some(entry) => *entry,
        None => None,
    }
}

/// Puts for each number of a system of a switch where it stands.
fn put_entries(tables: &Tables, switch: u8, entries: &mut Vec<Option<TapPort>>)
    requires room { vec_len entries.old ≡ 65536 }
    ensures room { vec_len entries.new ≡ 65536 }
    ensures entries { (other : ℕ → Option At) →
        ((number : ℕ) → known (slice_get entries.old.items number) ≡ other number) →
        (number : ℕ) → known (slice_get entries.new.items number)
        ≡ entry_among switch (own_systems tables.now) number (other number) }
{
    let mut place = tables.own_count();
    while place > 0 {
        place -= 1;
        let system = tables.system(SystemId(place as u8));
        let port = system.port;
        entries[usize::from(system.id)] = Some(TapPort { switch, port });
    }
}

/// Puts for each number of a system of several switches where it stands.
fn put_all_entries(switches: &Switches, entries: &mut Vec<Option<TapPort>>)
    requires room { vec_len entries.old ≡ 65536 }
    requires none { (number : ℕ) → known (slice_get entries.old.items number) ≡ None }
    ensures { (number : ℕ) → known (slice_get entries.new.items number)
        ≡ claims.entry_from 0 (map (λ s. s.rows) switches.now) number }
{
    let mut place = switches.id_count();
    while place > 0 {
        place -= 1;
        put_entries(switches.tables(SwitchId(place)), place, entries);
    }
}

/// For each port of a switch the time of a byte on the line of the system that has it.
fn byte_times(alloc: Global, tables: &Tables) -> Result<Vec<Option<u32>>, AllocError>
    ensures { IfOk result (λ times. (port : ℕ) → known (slice_get times.items port)
        ≡ claims.byte_ns_at (own_systems tables.now) port) }
{
    let mut times = vec![in alloc; None; PORTS]?;
    put_byte_times(tables, &mut times);
    Ok(times)
}

/// Puts for each port the time of a byte on the line of the system that has it.
fn put_byte_times(tables: &Tables, byte_ns: &mut Vec<Option<u32>>)
    requires room { vec_len byte_ns.old ≡ 256 }
    requires none { (port : ℕ) → known (slice_get byte_ns.old.items port) ≡ None }
    ensures { (port : ℕ) → known (slice_get byte_ns.new.items port)
        ≡ claims.byte_ns_at (own_systems tables.now) port }
{
    let mut place = tables.own_count();
    while place > 0 {
        place -= 1;
        let id = SystemId(place as u8);
        let port = tables.system(id).port;
        byte_ns[usize::from(port)] = Some(tables.byte_ns(id) as u32);
    }
}

/// The same as that of the one switch.
fn times_of_one(alloc: Global, tables: &Tables) -> Result<Vec<Vec<Option<u32>>>, AllocError>
    ensures { IfOk result (λ times. HaveTimes times.items (tables.now ∷ [])) }
{
    let mut times = Vec::new(alloc);
    let of_one = byte_times(alloc, tables)?;
    times.push(of_one)?;
    Ok(times)
}

/// The same of each of several switches.
fn times_of_all(alloc: Global, switches: &Switches) -> Result<Vec<Vec<Option<u32>>>, AllocError>
    ensures { IfOk result (λ times. HaveTimes times.items (map (λ s. s.rows) switches.now)) }
{
    let mut times = Vec::new(alloc);
    for place in 0..switches.id_count() {
        let tables = switches.tables(SwitchId(place));
        let of_switch = byte_times(alloc, tables)?;
        times.push(of_switch)?;
    }
    Ok(times)
}

/// For each number of a system of a switch where it stands.
fn entries_of_one(alloc: Global, tables: &Tables) -> Result<Vec<Option<TapPort>>, AllocError>
    ensures { IfOk result (λ entries. (number : ℕ) → known (slice_get entries.items number)
        ≡ claims.entry_from 0 (tables.now ∷ []) number) }
{
    let mut entries = no_entries(alloc)?;
    put_entries(tables, 0, &mut entries);
    Ok(entries)
}

/// For each number of a system of several switches where it stands.
fn entries_of_all(alloc: Global, switches: &Switches) -> Result<Vec<Option<TapPort>>, AllocError>
    ensures { IfOk result (λ entries. (number : ℕ) → known (slice_get entries.items number)
        ≡ claims.entry_from 0 (map (λ s. s.rows) switches.now) number) }
{
    let mut entries = no_entries(alloc)?;
    put_all_entries(switches, &mut entries);
    Ok(entries)
}

/// A table of nothing for each number that a system may have.
fn no_entries(alloc: Global) -> Result<Vec<Option<TapPort>>, AllocError>
    ensures room { IfOk result (λ entries. vec_len entries ≡ 65536) }
    ensures none { IfOk result (λ entries. (number : ℕ) →
        known (slice_get entries.items number) ≡ None) }
{
    let entries = vec![in alloc; None; NUMBERS]?;
    Ok(entries)
}

impl SystemPorts {
    /// The ports of the systems of these tables, by what a frame says of its sender.
    fn of_one(alloc: Global, tables: &Tables) -> Result<SystemPorts, AllocError>
        ensures { IfOk result (λ ports. Agree (ports_of ports) (claims.ports_of_one tables.now)) }
    {
        let entries = entries_of_one(alloc, tables)?;
        let byte_ns = times_of_one(alloc, tables)?;
        Ok(SystemPorts::BySender { entries, byte_ns })
    }

    /// Those of the systems of several switches.
    fn of_several(alloc: Global, switches: &Switches) -> Result<SystemPorts, AllocError>
        ensures { IfOk result (λ ports.
            Agree (ports_of ports) (claims.ports_of_several switches.now)) }
    {
        let entries = entries_of_all(alloc, switches)?;
        let byte_ns = times_of_all(alloc, switches)?;
        Ok(SystemPorts::BySender { entries, byte_ns })
    }

    /// The ports that are meant where no option says it.
    pub fn unsaid(alloc: Global, port: UnsaidPort<'_>) -> Result<SystemPorts, AllocError>
        ensures { IfOk result (λ ports. Agree (ports_of ports) (ports_unsaid port.entry)) }
    {
        match port {
            UnsaidPort::One(port) => Ok(SystemPorts::One(port)),
            UnsaidPort::OfSender(tables) => SystemPorts::of_one(alloc, tables),
            UnsaidPort::OfSenders(switches) => SystemPorts::of_several(alloc, switches),
        }
    }

    /// Whether the port of a frame is taken from its bytes.
    pub fn are_claimed(&self) -> bool
        ensures { result ≡ (ports_of self.now).are_claimed }
    {
        match self {
            SystemPorts::One(_) => false,
            SystemPorts::BySender { .. } => true,
        }
    }

    /// Where a frame came in of which no option says it, if it is known.
    pub fn entry(&self, bytes: &[u8]) -> Option<TapPort>
        ensures { result ≡ (ports_of self.now).entry bytes.now }
    {
        match self {
            SystemPorts::One(port) => Some(TapPort {
                switch: 0,
                port: *port,
            }),
            SystemPorts::BySender { entries, .. } => match sender_of(bytes) {
                Some(number) => entry_of(entries, number),
                None => None,
            },
        }
    }

    /// The time of a byte on the line there, in ns, if a system has the port.
    pub fn byte_ns(&self, entry: TapPort) -> Option<u32>
        ensures { result ≡ (ports_of self.now).byte_ns entry.switch entry.port }
    {
        match self {
            SystemPorts::One(_) => None,
            SystemPorts::BySender { byte_ns, .. } => {
                let times = byte_ns.get(usize::from(entry.switch))?;
                let time = times.get(usize::from(entry.port))?;
                *time
            }
        }
    }
}
