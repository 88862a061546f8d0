//! What links ask for, as it stands in a text.

ghost use Rattle.std.specs.Prelude.{◌≡◌, IfOk, IfErr};
ghost use Rattle.toml.specs.View.{view, table_view};
ghost use Rattle.afdx_config.specs.Trees.{trees};
ghost use Rattle.afdx_config.specs.Keys.{spot_of, switch_at};
ghost use Rattle.afdx_config.specs.Asked as spec;

use crate::fault::ConfigFault;
use crate::keys::{At, link_at, member, switch_at, switches_at, tables, top_at};
use std::alloc::Global;
use toml::{Table, Value};

/// A whole number from 0 on.
fn number_of(value: &Value) -> Option<u64>
    ensures { result ≡ spec.number_of (view value.now) }
{
    let Some(number) = value.as_integer() else {
        return None;
    };
    if number < 0 {
        return None;
    }
    Some(number as u64)
}

/// The latency that a link's table asks for, in us; none where the key isn't there.
#[tactic(auto, unfolding(crate::specs::Keys::link_keys, crate::specs::Asked::latency_of))]
fn latency_of(table: &Table) -> Option<u64>
    ensures { result ≡ spec.latency_of (table_view table.now) }
{
    let at = link_at(1, 10);
    match member(table, at.name) {
        Some(value) => number_of(value),
        None => None,
    }
}

/// The tables that stand at a key; none where it has no list of them.
#[tactic(auto, unfolding(crate::specs::Asked::listed))]
fn listed(alloc: Global, table: &Table, at: At) -> Result<Vec<&Table>, ConfigFault>
    ensures tables { IfOk result
        (λ v. trees v.items ≡ spec.listed (spot_of at) (table_view table.now)) }
    ensures fault { IfErr result (λ e. e ≡ ConfigFault.Memory) }
{
    match tables(alloc, table, at) {
        Ok(tables) => Ok(tables),
        Err(fault) => match fault {
            ConfigFault::Memory => Err(fault),
            _ => Ok(Vec::new(alloc)),
        },
    }
}

/// The latencies that the links of a table ask for, which stand at this key, in their order, in us.
#[tactic(auto, unfolding(crate::specs::Asked::latencies_at))]
fn latencies_at(alloc: Global, table: &Table, at: At) -> Result<Vec<Option<u64>>, ConfigFault>
    ensures latencies { IfOk result
        (λ v. v.items ≡ spec.latencies_at (spot_of at) (table_view table.now)) }
    ensures fault { IfErr result (λ e. e ≡ ConfigFault.Memory) }
{
    let links = listed(alloc, table, at)?;
    let mut asked = Vec::new(alloc);
    for link in &links {
        let latency = latency_of(link);
        asked.push(latency)?;
    }
    Ok(asked)
}

/// The latencies that the links of a file of one switch ask for, in us.
pub(crate) fn latencies_in(alloc: Global, tree: &Table) -> Result<Vec<Option<u64>>, ConfigFault>
    ensures latencies { IfOk result (λ v. v.items ≡ spec.latencies_in (table_view tree.now)) }
    ensures fault { IfErr result (λ e. e ≡ ConfigFault.Memory) }
{
    latencies_at(alloc, tree, top_at(4))
}

/// Those that the links of a switch ask for, in a file of several.
fn latencies_of_switch(alloc: Global, table: &Table) -> Result<Vec<Option<u64>>, ConfigFault>
    ensures latencies { IfOk result
        (λ v. v.items ≡ spec.latencies_at (switch_at 4) (table_view table.now)) }
    ensures fault { IfErr result (λ e. e ≡ ConfigFault.Memory) }
{
    latencies_at(alloc, table, switch_at(4))
}

/// The latencies that the links of a file of several switches ask for: a list for each switch.
pub(crate) fn latencies_by_switch(
    alloc: Global,
    tree: &Table,
) -> Result<Vec<Vec<Option<u64>>>, ConfigFault>
    ensures latencies { IfOk result (λ v. spec.lists v.items
        ≡ spec.latencies_by_switch (table_view tree.now)) }
    ensures fault { IfErr result (λ e. e ≡ ConfigFault.Memory) }
{
    let switches = listed(alloc, tree, switches_at())?;
    let mut asked = Vec::new(alloc);
    for switch in &switches {
        let latencies = latencies_of_switch(alloc, switch)?;
        asked.push(latencies)?;
    }
    Ok(asked)
}
