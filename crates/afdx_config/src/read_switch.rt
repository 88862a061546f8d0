//! The reading of a switch, in a file that describes several.

ghost use Rattle.std.specs.Prelude.{◌≡◌, ◌≤◌, [], length, IfOk, true};
ghost use Rattle.std.specs.List.{AllByRecursion};
ghost use Rattle.toml.specs.View.{table_view};
ghost use Rattle.afdx_config.specs.Lawful.{IsLawfulSwitch};
ghost use Rattle.afdx_config.specs.Fault.{Gives, GivesIn};
ghost use Rattle.afdx_config.specs.Reading.{is_name};
ghost use Rattle.afdx_config.specs.Trees.{trees};
ghost use Rattle.afdx_config.specs.Switches as spec;

use crate::choices::choice;
use crate::fault::ConfigFault;
use crate::file_fault::{FileFault, in_switch};
use crate::keys::{switch_at, tables};
use crate::known_keys::only_switch_keys;
use crate::named_tables::NamedTables;
use crate::read::profile_of;
use crate::read_links::links_of;
use crate::read_neighbours::neighbours_of;
use crate::read_ports::coms_of;
use crate::read_systems::{name_of, systems_of};
use crate::rows::KeptKeys;
use crate::tables::Tables;
use std::alloc::Global;
use toml::Table;

/// The switch that a table states, or the first check that fails. Of the four keys that may be
/// solved for, those that aren't kept may be absent or out of range.
#[tactic(auto, unfolding(crate::specs::Switches::switch_at, crate::specs::Keys::switch_keys))]
fn switch_of(alloc: Global, table: &Table, kept: KeptKeys) -> Result<NamedTables, ConfigFault>
    ensures name { IfOk result (λ s. is_name s.name ≡ true) }
    ensures lawful { IfOk result (λ s. IsLawfulSwitch s.rows) }
    ensures value { Gives (λ s. s) result (spec.switch_at kept (table_view table.now)) }
{
    let profile = profile_of(table, switch_at(1))?;
    let buffer = choice(table, switch_at(2), kept.buffer)?;
    let systems = tables(alloc, table, switch_at(3))?;
    let links = tables(alloc, table, switch_at(4))?;
    let ports = tables(alloc, table, switch_at(5))?;
    let name = name_of(table, switch_at(6))?;
    let neighbours = tables(alloc, table, switch_at(7))?;
    only_switch_keys(table)?;
    let systems = systems_of(alloc, &systems, profile)?;
    let own = systems.len();
    let ends = neighbours_of(alloc, &neighbours, profile, systems)?;
    let links = links_of(alloc, &links, own, &ends, kept)?;
    let coms = coms_of(alloc, &ports, own, &ends, &links)?;
    let name = String::from_str(alloc, name)?;
    let tables = Tables::new(profile, buffer, own, ends, links, coms);
    Ok(NamedTables::new(name, tables))
}

/// The switch of this number, from 1, that a table states.
fn numbered_switch(
    alloc: Global,
    table: &Table,
    kept: KeptKeys,
    number: u8,
) -> Result<NamedTables, FileFault>
    ensures name { IfOk result (λ s. is_name s.name ≡ true) }
    ensures lawful { IfOk result (λ s. IsLawfulSwitch s.rows) }
    ensures value { GivesIn (λ s. s) result
        (spec.in_switch number (spec.switch_at kept (table_view table.now))) }
{
    in_switch(number, switch_of(alloc, table, kept))
}

/// The switches that the tables state, in their order, each by its own table alone.
pub(crate) fn switches_of(
    alloc: Global,
    tables: &[&Table],
    kept: KeptKeys,
) -> Result<Vec<NamedTables>, FileFault>
    requires { length tables.now ≤ spec.most_switches }
    ensures count { IfOk result (λ v. length v.items ≡ length tables.now) }
    ensures names { IfOk result (λ v. AllByRecursion (λ s. is_name s.name ≡ true) v.items) }
    ensures lawful { IfOk result (λ v. AllByRecursion (λ s. IsLawfulSwitch s.rows) v.items) }
    ensures value { GivesIn (λ v. v.items) result
        (spec.each_switch kept [] (trees tables.now)) }
{
    let mut switches = Vec::new(alloc);
    for table in tables {
        let number = switches.len() as u8 + 1;
        let switch = numbered_switch(alloc, table, kept, number)?;
        switches.push(switch)?;
    }
    Ok(switches)
}
