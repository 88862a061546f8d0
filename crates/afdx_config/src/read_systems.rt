//! The reading of systems.

ghost use Rattle.std.specs.Prelude.{◌≡◌, ◌≤◌, ◌<◌, [], length, None, IfOk, true, string_bytes};
ghost use Rattle.std.specs.Prelude.{take};
ghost use Rattle.std.specs.List.{list_all};
ghost use Rattle.std.specs.Char.{is_ascii_alphanumeric};
ghost use Rattle.toml.specs.View.{table_view};
ghost use Rattle.afdx_frame.specs.Ports.{last_port};
ghost use Rattle.afdx_config.specs.Lawful.{IsSystem, AreSystems, IsWithin};
ghost use Rattle.afdx_config.specs.New.{IsNewSystem};
ghost use Rattle.afdx_config.specs.Rows.{system_row};
ghost use Rattle.afdx_config.specs.Fault.{Gives};
ghost use Rattle.afdx_config.specs.Trees.{trees};
ghost use Rattle.afdx_config.specs.Keys.{spot_of, system_at, whole};
ghost use Rattle.afdx_config.specs.Reading as spec;
ghost use Rattle.afdx_config.specs.Switches.{name_at};

use crate::fault::ConfigFault;
use crate::keys::{At, one_of, system_at, text, whole};
use crate::known_keys::only_system_keys;
use crate::rows::{System, SystemId};
use crate::systems::SystemTable;
use std::alloc::Global;
use toml::Table;

/// The system that a text names.
#[tactic(auto, unfolding(crate::specs::Reading::named, crate::specs::Keys::spot_of))]
pub(crate) fn named(table: &Table, at: At, systems: &SystemTable) -> Result<SystemId, ConfigFault>
    ensures known { IfOk result (λ i. i.0 < length systems.now) }
    ensures value { Gives (λ i. i.0) result
        (spec.named (spot_of at) systems.now (table_view table.now)) }
{
    let name = text(table, at)?;
    match systems.named(name) {
        Some(id) => Ok(id),
        None => Err(ConfigFault::NoSuchSystem(at.place)),
    }
}

/// The system that a text names, of ends of which the first `own` are systems.
#[tactic(auto, unfolding(crate::specs::Reading::named, crate::specs::Keys::spot_of))]
pub(crate) fn own_named(
    table: &Table,
    at: At,
    own: usize,
    ends: &SystemTable,
) -> Result<SystemId, ConfigFault>
    ensures own { IfOk result (λ i. i.0 < own) }
    ensures known { IfOk result (λ i. i.0 < length ends.now) }
    ensures value { Gives (λ i. i.0) result
        (spec.named (spot_of at) (take own ends.now) (table_view table.now)) }
{
    let name = text(table, at)?;
    match ends.named_before(name, own) {
        Some(id) => Ok(id),
        None => Err(ConfigFault::NoSuchSystem(at.place)),
    }
}

/// Whether a text is 1 to 16 ASCII letters and digits.
#[tactic(auto, unfolding(crate::specs::Reading::is_name))]
fn is_name(text: &str) -> bool
    ensures { result ≡ spec.is_name text.now }
{
    1 <= text.len() && text.len() <= 16 && is_alphanumeric(text)
}

fn is_alphanumeric(text: &str) -> bool
    ensures { result ≡ list_all is_ascii_alphanumeric text.now }
{
    text.as_bytes().iter().all(|b| b.is_ascii_alphanumeric())
}

/// A name of 1 to 16 ASCII letters and digits.
#[tactic(auto, unfolding(crate::specs::Switches::name_at, crate::specs::Keys::spot_of))]
pub(crate) fn name_of<'a>(table: &'a Table, at: At) -> Result<&'a str, ConfigFault>
    ensures value { Gives (λ s. s.now) result (name_at (spot_of at) (table_view table.now)) }
    ensures lawful { IfOk result (λ s. spec.is_name s.now ≡ true) }
{
    let name = text(table, at)?;
    if is_name(name) {
        Ok(name)
    } else {
        Err(ConfigFault::OutOfRange(at.place))
    }
}

/// A name that none before has.
#[tactic(auto, unfolding(crate::specs::Reading::new_name, crate::specs::Switches::name_at, crate::specs::Keys::spot_of))]
pub(crate) fn new_name<'a>(
    table: &'a Table,
    at: At,
    before: &SystemTable,
) -> Result<&'a str, ConfigFault>
    ensures value { Gives (λ s. s.now) result
        (spec.new_name (spot_of at) before.now (table_view table.now)) }
    ensures fresh { IfOk result (λ s. spec.system_named before.now s.now ≡ None) }
    ensures lawful { IfOk result (λ s. spec.is_name s.now ≡ true) }
{
    let name = name_of(table, at)?;
    if before.named(name).is_some() {
        return Err(ConfigFault::Twice(at.place));
    }
    Ok(name)
}

/// The rates that a line may have in a profile, in Mbit/s.
pub(crate) fn rates(profile: u64) -> &'static [u64]
    ensures { result.now ≡ spec.rates profile }
{
    if profile == 2 {
        &[10, 100, 1000]
    } else {
        &[10, 100]
    }
}

/// The port at both switches.
#[tactic(auto, unfolding(crate::specs::Keys::system_keys))]
fn port_of(table: &Table, index: usize) -> Result<u8, ConfigFault>
    ensures value { Gives (λ n. n) result (whole (system_at index 2) (table_view table.now)) }
    ensures within { IfOk result (IsWithin 1 last_port) }
{
    let port = whole(table, system_at(index, 2))?;
    Ok(port as u8)
}

/// The number in addresses.
#[tactic(auto, unfolding(crate::specs::Keys::system_keys))]
fn id_of(table: &Table, index: usize) -> Result<u16, ConfigFault>
    ensures value { Gives (λ n. n) result (whole (system_at index 3) (table_view table.now)) }
    ensures within { IfOk result (IsWithin 0 65535) }
{
    let id = whole(table, system_at(index, 3))?;
    Ok(id as u16)
}

/// The last byte of the IPv4 address.
#[tactic(auto, unfolding(crate::specs::Keys::system_keys))]
fn partition_of(table: &Table, index: usize) -> Result<u8, ConfigFault>
    ensures value { Gives (λ n. n) result (whole (system_at index 4) (table_view table.now)) }
    ensures within { IfOk result (IsWithin 0 255) }
{
    let partition = whole(table, system_at(index, 4))?;
    Ok(partition as u8)
}

/// The system that a table states, after those before it.
#[tactic(auto, unfolding(crate::specs::Reading::system_at))]
fn system_of(
    alloc: Global,
    table: &Table,
    profile: u64,
    before: &SystemTable,
) -> Result<System, ConfigFault>
    ensures value { Gives system_row result
        (spec.system_at profile before.now (table_view table.now)) }
    ensures fresh { IfOk result (λ s. IsNewSystem before.now (system_row s)) }
    ensures lawful { IfOk result (λ s. IsSystem profile (system_row s)) }
{
    let index = before.len() + 1;
    let name = new_name(table, system_at(index, 1), before)?;
    let port = port_of(table, index)?;
    if before.at_port(port).is_some() {
        return Err(ConfigFault::Twice(system_at(index, 2).place));
    }
    let id = id_of(table, index)?;
    if before.has_id(id) {
        return Err(ConfigFault::Twice(system_at(index, 3).place));
    }
    let partition = partition_of(table, index)?;
    let rate = one_of(table, system_at(index, 5), rates(profile))?;
    only_system_keys(table, index)?;
    Ok(System {
        name: String::from_str(alloc, name)?,
        port,
        id,
        partition,
        rate,
    })
}

/// The systems that the tables state, in their order.
pub(crate) fn systems_of(
    alloc: Global,
    tables: &[&Table],
    profile: u64,
) -> Result<SystemTable, ConfigFault>
    requires { length tables.now ≤ last_port }
    ensures lawful { IfOk result (AreSystems profile) }
    ensures value { Gives (λ s. s) result
        (spec.each (spec.system_at profile) [] (trees tables.now)) }
{
    let mut systems = SystemTable::new(alloc);
    for table in tables {
        let system = system_of(alloc, table, profile, &systems)?;
        systems.push(system)?;
    }
    Ok(systems)
}
