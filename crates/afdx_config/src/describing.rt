//! The reading of a file that describes one switch on a side, or several.

ghost use Rattle.std.specs.Prelude.{◌≡◌, ◌≢◌, IfOk, IfErr, length};
ghost use Rattle.toml.specs.View.{table_view};
ghost use Rattle.afdx_config.specs.Fault.{Gives, GivesIn};
ghost use Rattle.afdx_config.specs.Lawful.{IsWithin};
ghost use Rattle.afdx_config.specs.Trees.{trees};
ghost use Rattle.afdx_config.specs.Files as spec;
ghost use Rattle.afdx_config.specs.Switches.{AreSwitches, switch_tables, switches_at};
ghost use Rattle.afdx_config.specs.Switches.{most_switches};

use crate::choices::ALL_KEPT;
use crate::fault::ConfigFault;
use crate::file_fault::{FileFault, in_switch};
use crate::keys::{member, switches_at, tables, top_at};
use crate::known_keys::only_cascade_keys;
use crate::over_all::first_fault;
use crate::read::{tables_of, tree_of};
use crate::read_switch::switches_of;
use crate::rows::KeptKeys;
use crate::switches::Switches;
use crate::tables::Tables;
use std::alloc::Global;
use toml::Table;

/// What a file describes: one switch on a side, or several, which are a cascade.
#[derive(Debug, Drop)]
pub enum Described {
    One(Tables),
    Several(Switches),
}

/// Whether a tree describes several switches: the key of switches stands at its top, and the
/// profile's doesn't.
#[tactic(auto, unfolding(crate::specs::Files::are_several, crate::specs::Keys::spot_of))]
fn are_several(tree: &Table) -> bool
    ensures { result ≡ spec.are_several (table_view tree.now) }
{
    member(tree, switches_at().name).is_some() && member(tree, top_at(1).name).is_none()
}

/// The tables of the switches: 1 to 24.
#[tactic(auto, unfolding(crate::specs::Switches::switch_tables, crate::specs::Keys::cascade_keys))]
fn switch_tables<'a>(alloc: Global, tree: &'a Table) -> Result<Vec<&'a Table>, ConfigFault>
    ensures value { Gives (λ v. trees v.items) result (switch_tables (table_view tree.now)) }
    ensures few { IfOk result (λ v. IsWithin 1 most_switches (length v.items)) }
{
    let at = switches_at();
    let rows = tables(alloc, tree, at)?;
    if rows.is_empty() {
        return Err(ConfigFault::OutOfRange(at.place));
    }
    Ok(rows)
}

/// The switches that a tree states, of which these keys are kept, or the first check that fails.
#[tactic(auto, unfolding(crate::specs::Switches::switches_at))]
fn switches_in(alloc: Global, tree: &Table, kept: KeptKeys) -> Result<Switches, FileFault>
    ensures lawful { IfOk result AreSwitches }
    ensures value { GivesIn (λ s. s) result (switches_at kept (table_view tree.now)) }
{
    let rows = in_switch(0, switch_tables(alloc, tree))?;
    in_switch(0, only_cascade_keys(tree))?;
    let switches = switches_of(alloc, &rows, kept)?;
    match first_fault(&switches) {
        Some(fault) => Err(fault),
        None => Ok(Switches::new(switches)),
    }
}

/// What a tree describes, of which these keys are kept, or the first check that fails.
#[tactic(auto, unfolding(crate::specs::Files::file_at))]
pub(crate) fn described_by(
    alloc: Global,
    tree: &Table,
    kept: KeptKeys,
) -> Result<Described, FileFault>
    ensures lawful { IfOk result spec.IsLawfulFile }
    ensures one { IfOk result (spec.IsOneStated kept (table_view tree.now)) }
    ensures value { GivesIn (λ d. d) result (spec.file_at kept (table_view tree.now)) }
{
    if are_several(tree) {
        let switches = switches_in(alloc, tree, kept)?;
        Ok(Described::Several(switches))
    } else {
        let tables = in_switch(0, tables_of(alloc, tree, kept))?;
        Ok(Described::One(tables))
    }
}

/// What a text describes: the tables of one switch, which are those that `read_tables` gives, or
/// several switches, each by its own table and then all together; or the first check that fails.
/// The bytes may be any.
///
/// Memory is answered where a growth was refused, which may be at any point of the order of the
/// checks.
pub fn read_file(alloc: Global, text: &[u8]) -> Result<Described, FileFault>
    ensures ok { IfOk result (spec.Describes text.now) }
    ensures one { IfOk result (spec.IsOneSpelled text.now) }
    ensures lawful { IfOk result spec.IsLawfulFile }
    ensures fault { IfErr result (λ e. e.fault ≢ ConfigFault.Memory →
        spec.IsFileFault text.now e) }
{
    let tree = in_switch(0, tree_of(alloc, text))?;
    described_by(alloc, &tree, ALL_KEPT)
}
