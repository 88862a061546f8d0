//! The reading of a switch's neighbours, which are other switches.

ghost use Rattle.std.specs.Prelude.{◌≡◌, ◌≤◌, length, take, None, IfOk, string_bytes};
ghost use Rattle.toml.specs.View.{table_view};
ghost use Rattle.afdx_frame.specs.Ports.{last_port};
ghost use Rattle.afdx_config.specs.Lawful.{IsSystem, AreSystems, AreEnds, HasNoNumber, IsWithin};
ghost use Rattle.afdx_config.specs.Rows.{system_row};
ghost use Rattle.afdx_config.specs.Fault.{Gives};
ghost use Rattle.afdx_config.specs.Trees.{trees};
ghost use Rattle.afdx_config.specs.Keys as keys;
ghost use Rattle.afdx_config.specs.Reading.{each, system_named, system_at_port, most_neighbours};
ghost use Rattle.afdx_config.specs.Switches as spec;

use crate::fault::ConfigFault;
use crate::keys::{neighbour_at, one_of, whole};
use crate::known_keys::only_neighbour_keys;
use crate::read_systems::{new_name, rates};
use crate::rows::System;
use crate::systems::SystemTable;
use std::alloc::Global;
use toml::Table;

/// The port of the switch at which the cable ends.
#[tactic(auto, unfolding(crate::specs::Keys::neighbour_keys))]
fn port_of(table: &Table, index: usize) -> Result<u8, ConfigFault>
    ensures value { Gives (λ n. n) result
        (keys.whole (keys.neighbour_at index 2) (table_view table.now)) }
    ensures within { IfOk result (IsWithin 1 last_port) }
{
    let port = whole(table, neighbour_at(index, 2))?;
    Ok(port as u8)
}

/// The neighbour that a table states, after the ends before it, of which the first `own` are
/// systems. It has neither number nor partition.
#[tactic(auto, unfolding(crate::specs::Switches::neighbour_at))]
fn neighbour_of(
    alloc: Global,
    table: &Table,
    profile: u64,
    own: usize,
    before: &SystemTable,
) -> Result<System, ConfigFault>
    requires { own ≤ length before.now }
    ensures value { Gives system_row result
        (spec.neighbour_at profile own before.now (table_view table.now)) }
    ensures name { IfOk result (λ e. system_named before.now (string_bytes e.name) ≡ None) }
    ensures port { IfOk result (λ e. system_at_port before.now e.port ≡ None) }
    ensures lawful { IfOk result (λ e. IsSystem profile (system_row e)) }
    ensures number { IfOk result (λ e. HasNoNumber (system_row e)) }
{
    let index = before.len() - own + 1;
    let name = new_name(table, neighbour_at(index, 1), before)?;
    let port = port_of(table, index)?;
    if before.at_port(port).is_some() {
        return Err(ConfigFault::Twice(neighbour_at(index, 2).place));
    }
    let rate = one_of(table, neighbour_at(index, 3), rates(profile))?;
    only_neighbour_keys(table, index)?;
    Ok(System {
        name: String::from_str(alloc, name)?,
        port,
        id: 0,
        partition: 0,
        rate,
    })
}

/// What stands at the ports of a switch: its systems, and behind them the neighbours that the
/// tables state, in their order.
pub(crate) fn neighbours_of(
    alloc: Global,
    tables: &[&Table],
    profile: u64,
    systems: SystemTable,
) -> Result<SystemTable, ConfigFault>
    requires systems { AreSystems profile systems }
    requires few { length tables.now ≤ most_neighbours }
    ensures lawful { IfOk result (AreEnds profile (length systems)) }
    ensures systems { IfOk result (λ ends. take (length systems) ends ≡ systems) }
    ensures value { Gives (λ ends. ends) result
        (each (spec.neighbour_at profile (length systems)) systems (trees tables.now)) }
{
    let own = systems.len();
    let mut ends = systems;
    for table in tables {
        let neighbour = neighbour_of(alloc, table, profile, own, &ends)?;
        ends.push(neighbour)?;
    }
    Ok(ends)
}
