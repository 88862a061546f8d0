//! Keys that a table may have, by its part: any other is refused.

ghost use Rattle.std.specs.Prelude.{◌≡◌, string_bytes};
ghost use Rattle.std.specs.BTreeMap.{keys};
ghost use Rattle.toml.specs.View.{table_view};
ghost use Rattle.std.specs.List.{list_any, list_all};
ghost use Rattle.std.specs.Str.{bytes_eq};
ghost use Rattle.afdx_config.specs.Fault.{Gives};
ghost use Rattle.afdx_config.specs.Keys as spec;

use crate::cascade_keys::{CASCADE_KEYS, NEIGHBOUR_KEYS, SWITCH_KEYS};
use crate::fault::{ConfigFault, Part, Place};
use crate::key_tables::{Key, LINK_KEYS, PORT_KEYS, SYSTEM_KEYS, TOP_KEYS};
use crate::keys::place;
use toml::Table;

/// Refuses a key that isn't known.
#[tactic(auto, unfolding(crate::specs::Keys::only))]
fn only(table: &Table, at: Place, known: &[Key]) -> Result<(), ConfigFault>
    ensures { Gives (λ _. tt) result
        (spec.only at (spec.key_rows known.now) (table_view table.now)) }
{
    if are_among(known, table) {
        Ok(())
    } else {
        Err(ConfigFault::UnknownKey(at))
    }
}

fn are_among(known: &[Key], table: &Table) -> bool
    ensures { result
        ≡ list_all (λ k. list_any (λ s. bytes_eq s.0.now (string_bytes k)) known.now)
        (keys table.now) }
{
    table.keys().all(|key| is_among(known, key.as_str()))
}

fn is_among(known: &[Key], name: &str) -> bool
    ensures { result ≡ list_any (λ s. bytes_eq s.0.now name.now) known.now }
{
    known.iter().any(|key| key.0 == name)
}

#[tactic(auto, unfolding(crate::specs::Keys::top_keys, crate::specs::Keys::only_top_keys))]
pub(crate) fn only_top_keys(table: &Table) -> Result<(), ConfigFault>
    ensures { Gives (λ _. tt) result (spec.only_top_keys (table_view table.now)) }
{
    only(table, place(Part::Top, 0, 0), &TOP_KEYS)
}

#[tactic(auto, unfolding(crate::specs::Keys::system_keys, crate::specs::Keys::only_system_keys))]
pub(crate) fn only_system_keys(table: &Table, index: usize) -> Result<(), ConfigFault>
    ensures { Gives (λ _. tt) result (spec.only_system_keys index (table_view table.now)) }
{
    only(table, place(Part::System, index, 0), &SYSTEM_KEYS)
}

#[tactic(auto, unfolding(crate::specs::Keys::link_keys, crate::specs::Keys::only_link_keys))]
pub(crate) fn only_link_keys(table: &Table, index: usize) -> Result<(), ConfigFault>
    ensures { Gives (λ _. tt) result (spec.only_link_keys index (table_view table.now)) }
{
    only(table, place(Part::Link, index, 0), &LINK_KEYS)
}

#[tactic(auto, unfolding(crate::specs::Keys::port_keys, crate::specs::Keys::only_port_keys))]
pub(crate) fn only_port_keys(table: &Table, index: usize) -> Result<(), ConfigFault>
    ensures { Gives (λ _. tt) result (spec.only_port_keys index (table_view table.now)) }
{
    only(table, place(Part::Port, index, 0), &PORT_KEYS)
}

#[tactic(auto, unfolding(crate::specs::Keys::cascade_keys, crate::specs::Keys::only_cascade_keys))]
pub(crate) fn only_cascade_keys(table: &Table) -> Result<(), ConfigFault>
    ensures { Gives (λ _. tt) result (spec.only_cascade_keys (table_view table.now)) }
{
    only(table, place(Part::Top, 0, 0), &CASCADE_KEYS)
}

#[tactic(auto, unfolding(crate::specs::Keys::switch_keys, crate::specs::Keys::only_switch_keys))]
pub(crate) fn only_switch_keys(table: &Table) -> Result<(), ConfigFault>
    ensures { Gives (λ _. tt) result (spec.only_switch_keys (table_view table.now)) }
{
    only(table, place(Part::Top, 0, 0), &SWITCH_KEYS)
}

#[tactic(auto, unfolding(crate::specs::Keys::neighbour_keys, crate::specs::Keys::only_neighbour_keys))]
pub(crate) fn only_neighbour_keys(table: &Table, index: usize) -> Result<(), ConfigFault>
    ensures { Gives (λ _. tt) result (spec.only_neighbour_keys index (table_view table.now)) }
{
    only(table, place(Part::Neighbour, index, 0), &NEIGHBOUR_KEYS)
}
