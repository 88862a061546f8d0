//! The reading of a configuration.

ghost use Rattle.std.specs.Prelude.{◌≡◌, ◌≢◌, IfOk, IfErr, codes};
ghost use Rattle.toml.specs.View.{table_view};
ghost use Rattle.afdx_config.specs.Lawful.{IsLawful, IsWithin};
ghost use Rattle.afdx_config.specs.Fault.{Gives};
ghost use Rattle.afdx_config.specs.Keys as keys;
ghost use Rattle.afdx_config.specs.Reading as spec;

use crate::choices::{ALL_KEPT, choice};
use crate::fault::ConfigFault;
use crate::keys::{At, tables, top_at, whole};
use crate::known_keys::only_top_keys;
use crate::read_links::links_of;
use crate::read_ports::coms_of;
use crate::read_systems::systems_of;
use crate::rows::KeptKeys;
use crate::tables::Tables;
use std::alloc::Global;
use toml::Table;

/// The profile. Whatever is wrong with it, it is `BadProfile`.
pub(crate) fn profile_of(tree: &Table, at: At) -> Result<u64, ConfigFault>
    ensures known { IfOk result (IsWithin (keys.spot_of at).least (keys.spot_of at).greatest) }
    ensures value { Gives (λ n. n) result
        (spec.or_bad_profile (keys.whole (keys.spot_of at) (table_view tree.now))) }
{
    match whole(tree, at) {
        Ok(profile) => Ok(profile),
        Err(_) => Err(ConfigFault::BadProfile),
    }
}

/// The tables that a tree states, or the first check that fails. Of the four keys that may be
/// solved for, those that aren't kept may be absent or out of range.
#[tactic(auto, unfolding(crate::specs::Reading::tables_at, crate::specs::Keys::top_keys))]
pub(crate) fn tables_of(alloc: Global, tree: &Table, kept: KeptKeys) -> Result<Tables, ConfigFault>
    ensures lawful { IfOk result IsLawful }
    ensures value { Gives (λ t. t) result (spec.tables_at kept (table_view tree.now)) }
{
    let profile = profile_of(tree, top_at(1))?;
    let buffer = choice(tree, top_at(2), kept.buffer)?;
    let systems = tables(alloc, tree, top_at(3))?;
    let links = tables(alloc, tree, top_at(4))?;
    let ports = tables(alloc, tree, top_at(5))?;
    only_top_keys(tree)?;
    let systems = systems_of(alloc, &systems, profile)?;
    let own = systems.len();
    let links = links_of(alloc, &links, own, &systems, kept)?;
    let coms = coms_of(alloc, &ports, own, &systems, &links)?;
    Ok(Tables::new(profile, buffer, own, systems, links, coms))
}

/// The tree that the text spells. It is `NotToml` where it spells none.
pub(crate) fn tree_of(alloc: Global, text: &[u8]) -> Result<Table, ConfigFault>
    ensures tree { IfOk result (λ tree. spec.IsTreeOf text.now (table_view tree)) }
    ensures fault { IfErr result (λ e. e ≢ ConfigFault.Memory →
        (e ≡ ConfigFault.NotToml) × spec.HasNoTree text.now) }
{
    match toml::table_from_slice(alloc, text) {
        Ok(tree) => Ok(tree),
        Err(e) if e.is_memory() => Err(ConfigFault::Memory),
        Err(_) => Err(ConfigFault::NotToml),
    }
}

/// The tables that the text spells, or the first check that fails. The bytes may be any.
///
/// Memory is answered where a growth was refused, which may be at any point of the order of the
/// checks.
pub fn read_tables(alloc: Global, text: &[u8]) -> Result<Tables, ConfigFault>
    ensures ok { IfOk result (spec.Spells text.now) }
    ensures lawful { IfOk result IsLawful }
    ensures fault { IfErr result (λ e. e ≢ ConfigFault.Memory → spec.IsFaultOf text.now e) }
{
    let tree = tree_of(alloc, text)?;
    tables_of(alloc, &tree, ALL_KEPT)
}

/// The tables that the text spells, which are to be solved, or the first check that fails. Of
/// jitter, buffer, latency and skew those that aren't kept may be absent, which stands for the
/// least value, or any whole number from 0 on, which stands for the nearest in the key's range.
///
/// Memory is answered as by `read_tables`.
pub fn read_to_solve(alloc: Global, text: &[u8], kept: KeptKeys) -> Result<Tables, ConfigFault>
    ensures ok { IfOk result (spec.SpellsKeeping kept text.now) }
    ensures lawful { IfOk result IsLawful }
    ensures fault { IfErr result (λ e. e ≢ ConfigFault.Memory →
        spec.IsFaultKeeping kept text.now e) }
{
    let tree = tree_of(alloc, text)?;
    tables_of(alloc, &tree, kept)
}
