//! What stands at the ports of a switch: its systems, and its neighbours.

use crate::rows::{System, SystemId};
use crate::tables::Tables;
use afdx_frame::VlId;

impl Tables {
    ghost use Rattle.std.specs.Prelude.{◌≡◌, ◌≤◌, ◌<◌, length, option_map, IfSome};
    ghost use Rattle.afdx_config.specs.Switches.{own_named, neighbour_named, own_has_id, starts};
    ghost use Rattle.afdx_config.specs.Switches.{neighbour_row, neighbour_at_port, if_system};
    ghost use Rattle.afdx_config.specs.Rows.{system_row};
    ghost use Rattle.afdx_config.specs.Lawful.{IsLawfulSwitch};

    /// The system of this name, if there is one. A look-up.
    #[tactic(auto, unfolding(crate::specs::Switches::own_named))]
    pub fn own_named(&self, name: &str) -> Option<SystemId>
        ensures place { option_map (λ i. i.0) result ≡ own_named self.now name.now }
        ensures known { IfSome result (λ i. i.0 < self.now.own) }
    {
        let id = self.system_named(name)?;
        if self.is_own(id) { Some(id) } else { None }
    }

    /// The neighbour of this name, if there is one. A look-up.
    #[tactic(auto, unfolding(crate::specs::Switches::neighbour_named))]
    pub fn neighbour_named(&self, name: &str) -> Option<SystemId>
        ensures place { option_map (λ i. i.0) result ≡ neighbour_named self.now name.now }
        ensures known { IfSome result (λ i. i.0 < length self.now.systems) }
    {
        let id = self.system_named(name)?;
        if self.is_own(id) { None } else { Some(id) }
    }

    /// The row of the neighbour of this name, if there is one. A look-up.
    pub(crate) fn neighbour_row(&self, name: &str) -> Option<&System>
        ensures { option_map (λ s. system_row s.now) result ≡ neighbour_row self.now name.now }
    {
        let id = self.neighbour_named(name)?;
        Some(self.system(id))
    }

    /// The row of the neighbour at this port of the switch, if there is one. It tries each of what
    /// stands at the ports.
    pub(crate) fn neighbour_at(&self, port: u8) -> Option<&System>
        ensures { option_map (λ s. system_row s.now) result ≡ neighbour_at_port self.now port }
    {
        let id = self.system_at(port)?;
        if self.is_own(id) {
            None
        } else {
            Some(self.system(id))
        }
    }

    /// Whether one of the switch's systems has this number. It tries each of them.
    pub(crate) fn own_has_id(&self, id: u16) -> bool
        ensures { result ≡ own_has_id self.now id }
    {
        let count = self.own_count();
        for i in 0..count {
            if self.system(SystemId(i as u8)).id == id {
                return true;
            }
        }
        false
    }

    /// Whether one of the switch's systems sends this link. A look-up.
    #[tactic(auto, unfolding(crate::specs::Switches::starts))]
    pub(crate) fn starts(&self, vl: VlId) -> bool
        ensures { result ≡ starts self.now vl.0 }
    {
        match self.link_of(vl) {
            Some(index) => self.is_own(self.link(index).from),
            None => false,
        }
    }
}
