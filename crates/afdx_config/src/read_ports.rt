//! The reading of communication ports.

ghost use Rattle.std.specs.Prelude.{◌≡◌, ◌≤◌, ◌<◌, ◌∷◌, [], length, IfOk, codes, nat_eq, ◌&&◌};
ghost use Rattle.std.specs.Prelude.{false, true, take};
ghost use Rattle.std.specs.List.{list_any};
ghost use Rattle.toml.specs.View.{table_view};
ghost use Rattle.afdx_config.specs.Lawful.{IsPort, ArePorts, AreOfSystems, IsWithin};
ghost use Rattle.afdx_config.specs.Rows.{port_row, port_rows};
ghost use Rattle.afdx_config.specs.Fault.{Gives};
ghost use Rattle.afdx_config.specs.Trees.{trees};
ghost use Rattle.afdx_config.specs.Keys as keys;
ghost use Rattle.afdx_config.specs.Reading.{goes_to};
ghost use Rattle.afdx_config.specs.Reading as spec;

use crate::fault::ConfigFault;
use crate::keys::{At, port_at, text, whole};
use crate::known_keys::only_port_keys;
use crate::links::LinkTable;
use crate::read_systems::own_named;
use crate::rows::{ComRow, Kind, SystemId};
use crate::systems::SystemTable;
use afdx_frame::VlId;
use std::alloc::Global;
use toml::Table;

fn has_port(before: &[ComRow], system: SystemId, link: VlId, udp: u16) -> bool
    ensures { result
        ≡ list_any
        (λ p.
        (nat_eq p.system.0 system.0 && nat_eq p.link.0 link.0) && nat_eq p.udp udp) before.now }
{
    before.iter().any(|com| com.system == system && com.link == link && com.udp == udp)
}

#[tactic(auto, unfolding(crate::specs::Reading::has_port))]
fn is_taken(before: &[ComRow], system: SystemId, link: VlId, udp: u16) -> bool
    ensures { result ≡ spec.has_port (port_rows before.now) system.0 link.0 udp }
{
    has_port(before, system, link, udp)
}

/// The identifier of the link.
#[tactic(auto, unfolding(crate::specs::Keys::port_keys))]
fn link_of(table: &Table, index: usize) -> Result<VlId, ConfigFault>
    ensures value { Gives (λ vl. vl.0) result
        (keys.whole (keys.port_at index 2) (table_view table.now)) }
{
    let link = whole(table, port_at(index, 2))?;
    Ok(VlId(link as u16))
}

/// The UDP port.
#[tactic(auto, unfolding(crate::specs::Keys::port_keys))]
fn udp_of(table: &Table, index: usize) -> Result<u16, ConfigFault>
    ensures value { Gives (λ n. n) result
        (keys.whole (keys.port_at index 3) (table_view table.now)) }
    ensures within { IfOk result (IsWithin 1 65535) }
{
    let udp = whole(table, port_at(index, 3))?;
    Ok(udp as u16)
}

/// Which messages a port entry takes: those of the link, at the system, to the UDP port.
#[derive(Clone, Copy)]
struct Socket {
    system: SystemId,
    link: VlId,
    udp: u16,
}

/// What the entry of this number takes, where the link goes to the system, and no entry before
/// takes the same. Of the ends the first `own` are systems.
#[tactic(auto, unfolding(crate::specs::Reading::socket_at))]
fn socket_of(
    table: &Table,
    index: usize,
    own: usize,
    ends: &SystemTable,
    links: &LinkTable,
    before: &[ComRow],
) -> Result<Socket, ConfigFault>
    ensures own { IfOk result (λ s. s.system.0 < own) }
    ensures system { IfOk result (λ s. s.system.0 < length ends.now) }
    ensures link { IfOk result (λ s. goes_to links.now s.link.0 s.system.0 ≡ true) }
    ensures udp { IfOk result (λ s. IsWithin 1 65535 s.udp) }
    ensures fresh { IfOk result
        (λ s. spec.has_port (port_rows before.now) s.system.0 s.link.0 s.udp ≡ false) }
    ensures value { Gives (λ s. s) result
        (spec.socket_at (keys.port_at index) (take own ends.now) links.now
        (port_rows before.now) (table_view table.now)) }
{
    let system = own_named(table, port_at(index, 1), own, ends)?;
    let link = link_of(table, index)?;
    if !links.goes_to(link, system) {
        return Err(ConfigFault::OutOfRange(port_at(index, 2).place));
    }
    let udp = udp_of(table, index)?;
    if is_taken(before, system, link, udp) {
        return Err(ConfigFault::Twice(port_at(index, 3).place));
    }
    Ok(Socket { system, link, udp })
}

/// The port entry that a table states, after those before it.
#[tactic(auto, unfolding(crate::specs::Reading::port_at, crate::specs::Keys::port_keys))]
fn com_of(
    table: &Table,
    own: usize,
    ends: &SystemTable,
    links: &LinkTable,
    before: &[ComRow],
) -> Result<ComRow, ConfigFault>
    requires { length before.now < spec.most_ports }
    ensures fresh { IfOk result
        (λ p. spec.has_port (port_rows before.now) p.system.0 p.link.0 p.udp ≡ false) }
    ensures own { IfOk result (λ p. p.system.0 < own) }
    ensures lawful { IfOk result (λ p. IsPort (length ends.now) links.now (port_row p)) }
    ensures value { Gives port_row result
        (spec.port_at (take own ends.now) links.now (port_rows before.now)
        (table_view table.now)) }
{
    let index = before.len() + 1;
    let Socket { system, link, udp } = socket_of(table, index, own, ends, links, before)?;
    let kind = kind_at(table, port_at(index, 4))?;
    let depth = whole(table, port_at(index, 5).at_most(deepest(kind)))?;
    only_port_keys(table, index)?;
    Ok(ComRow {
        system,
        link,
        udp,
        kind,
        depth,
    })
}

fn deepest(kind: Kind) -> u64
    ensures { result ≡ spec.deepest kind }
{
    match kind {
        Kind::Sampling => 1,
        Kind::Queuing => 64,
    }
}

#[tactic(auto, unfolding(crate::specs::Keys::word, crate::specs::Keys::spot_of))]
fn kind_at(table: &Table, at: At) -> Result<Kind, ConfigFault>
    ensures { Gives (λ k. k) result
        (keys.word (keys.spot_of at)
        ((codes "sampling", Kind.Sampling) ∷ (codes "queuing", Kind.Queuing) ∷ [])
        (table_view table.now)) }
{
    match text(table, at)? {
        "sampling" => Ok(Kind::Sampling),
        "queuing" => Ok(Kind::Queuing),
        _ => Err(ConfigFault::OutOfRange(at.place)),
    }
}

/// The communication ports that the tables state, in their order. Of the ends the first `own` are
/// systems.
pub(crate) fn coms_of(
    alloc: Global,
    tables: &[&Table],
    own: usize,
    ends: &SystemTable,
    links: &LinkTable,
) -> Result<Vec<ComRow>, ConfigFault>
    requires { length tables.now ≤ spec.most_ports }
    ensures lawful { IfOk result
        (λ v. ArePorts (length ends.now) links.now (port_rows v.items)) }
    ensures own { IfOk result (λ v. AreOfSystems own (port_rows v.items)) }
    ensures value { Gives (λ v. port_rows v.items) result
        (spec.each (spec.port_at (take own ends.now) links.now) [] (trees tables.now)) }
{
    let mut coms = Vec::new(alloc);
    for table in tables {
        let com = com_of(table, own, ends, links, &coms)?;
        coms.push(com)?;
    }
    Ok(coms)
}
