//! The systems of a network, by name.

ghost use Rattle.std.specs.Prelude.{◌≡◌, ◌<◌, ◌≤◌, ◌++◌, [], ◌∷◌, length, slice_get, string_bytes};
ghost use Rattle.std.specs.Prelude.{option_map, None, Some, OnOk, IfSome, position, ◌==◌, take};
ghost use Rattle.std.specs.List.{list_any};
ghost use Rattle.indexmap.specs.IndexMap.{values};
ghost use Rattle.afdx_frame.specs.Ports.{last_port};
ghost use Rattle.afdx_config.specs.Rows.{system_row};
ghost use Rattle.afdx_config.specs.Reading.{system_named, system_at_port, has_id};

use crate::rows::{System, SystemId};
use indexmap::IndexMap;
use std::alloc::{AllocError, Global};
use std::marker::Model;

/// The systems by name, in file order.
#[derive(Debug)]
pub(crate) struct SystemTable {
    by_name: IndexMap<String, System>,
}

impl Drop for SystemTable {
    // (written out, it is one call wherever a value is let go)
    fn drop(self) {
        let Self { by_name } = self;
    }
}

impl Model for SystemTable {
    ghost use Rattle.std.specs.Prelude.{◌≤◌, List, map, length};
    ghost use Rattle.std.specs.List.{AllByRecursion};
    ghost use Rattle.afdx_frame.specs.Ports.{last_port};
    ghost use Rattle.afdx_config.specs.Rows.{SystemRow};
    ghost use Rattle.afdx_config.specs.Kept.{system_rows, IsUnderItsName};

    ghost Value = { List SystemRow };

    ghost view = { λ s. system_rows s.by_name.entries };

    ghost invariant = { λ s. (length s.by_name.entries ≤ last_port)
        × AllByRecursion IsUnderItsName s.by_name.entries };
}

impl SystemTable {
    pub(crate) fn new(alloc: Global) -> SystemTable
        ensures { result ≡ [] }
    {
        SystemTable {
            by_name: IndexMap::new(alloc),
        }
    }

    pub(crate) fn len(&self) -> usize
        ensures len { result ≡ length self.now }
        ensures small { result ≤ last_port }
    {
        self.by_name.len()
    }

    pub(crate) fn named(&self, name: &str) -> Option<SystemId>
        ensures place { option_map (λ i. i.0) result ≡ system_named self.now name.now }
        ensures known { IfSome result (λ i. i.0 < length self.now) }
    {
        let index = self.by_name.get_index_of(name)?;
        Some(SystemId(index as u8))
    }

    /// The same among the first `count` of them.
    #[tactic(auto, using(crate::proofs::TakenLemmas::named_take))]
    pub(crate) fn named_before(&self, name: &str, count: usize) -> Option<SystemId>
        ensures place { option_map (λ i. i.0) result
            ≡ system_named (take count self.now) name.now }
        ensures before { IfSome result (λ i. i.0 < count) }
        ensures known { IfSome result (λ i. i.0 < length self.now) }
    {
        let id = self.named(name)?;
        if (id.0 as usize) < count {
            Some(id)
        } else {
            None
        }
    }

    pub(crate) fn at(&self, id: SystemId) -> &System
        requires { id.0 < length self.now }
        ensures { slice_get self.now id.0 ≡ Some (system_row result.now) }
    {
        &self.by_name[id.0 as usize]
    }

    pub(crate) fn at_port(&self, port: u8) -> Option<SystemId>
        ensures place { option_map (λ i. i.0) result ≡ system_at_port self.now port }
        ensures known { IfSome result (λ i. i.0 < length self.now) }
    {
        let index = place_of_port(&self.by_name, port)?;
        Some(SystemId(index as u8))
    }

    pub(crate) fn has_id(&self, id: u16) -> bool
        ensures { result ≡ has_id self.now id }
    {
        any_has_id(&self.by_name, id)
    }

    pub(crate) fn push(&mut self, system: System) -> Result<(), AllocError>
        requires room { length self.old < last_port }
        requires fresh { system_named self.old (string_bytes system.name) ≡ None }
        ensures { OnOk result (self.new ≡ self.old ++ system_row system ∷ []) }
    {
        let name = system.name.clone()?;
        self.by_name.insert(name, system)?;
        Ok(())
    }
}

fn place_of_port(systems: &IndexMap<String, System>, port: u8) -> Option<usize>
    ensures { result ≡ position (λ s. s.port == port) (values systems.now) }
{
    systems.values().position(|system| system.port == port)
}

fn any_has_id(systems: &IndexMap<String, System>, id: u16) -> bool
    ensures { result ≡ list_any (λ s. s.id == id) (values systems.now) }
{
    systems.values().any(|system| system.id == id)
}
