//! Several switches on a side, joined by cables.

ghost use Rattle.std.specs.Prelude.{◌≡◌, ◌≤◌, length};
ghost use Rattle.afdx_config.specs.Rows.{system_row};
ghost use Rattle.afdx_config.specs.Switches as spec;

use crate::named_tables::NamedTables;
use crate::over_all::{at, first_of, home_of, listed_at, switch_named};
use crate::rows::{System, SystemId, Times};
use crate::tables::Tables;
use afdx_frame::VlId;
use std::marker::Model;

/// The place of a switch in the configuration, from 0.
#[derive(Clone, Copy, Debug, PartialEq, Eq, Hash)]
pub struct SwitchId(pub u8);

impl SwitchId {
    ghost use Rattle.std.specs.Prelude.{◌≡◌, ◌<◌};
    ghost use Rattle.afdx_config.specs.Switches.{most_switches};

    /// The switch at a place of the configuration, which has at most 24.
    #[inline(always)]
    pub fn nth(place: usize) -> SwitchId
        requires { place < most_switches }
        ensures place { result.0 ≡ place }
    {
        SwitchId(place as u8)
    }

    /// Its place in the configuration, from 0.
    #[inline(always)]
    pub fn index(self) -> usize
        ensures place { result ≡ self.0 }
    {
        usize::from(self.0)
    }
}

/// Where a cable ends: a port of a switch.
#[derive(Clone, Copy, Debug, PartialEq, Eq)]
pub struct FarEnd {
    pub switch: SwitchId,
    pub port: u8,
}

/// The switches of a cascade in the order of the file, each with its name and its own tables: 1 to
/// 24 on a side. What each lists as a neighbour is another of them, which lists it, too.
#[derive(Debug)]
pub struct Switches {
    switches: Vec<NamedTables>,
}

impl Drop for Switches {
    // (written out, it is one call wherever a value is let go)
    fn drop(self) {
        let Self { switches } = self;
    }
}

impl Model for Switches {
    ghost use Rattle.std.specs.Prelude.{List};
    ghost use Rattle.afdx_config.specs.Switches.{NamedRows, AreSwitches};

    ghost Value = { List NamedRows };

    ghost view = { λ s. s.switches.items };

    ghost invariant = { λ s. AreSwitches s.switches.items };
}

impl Switches {
    ghost use Rattle.std.specs.Prelude.{◌≡◌, ◌<◌, length, option_map, slice_get, Some, IfSome};
    ghost use Rattle.std.specs.Prelude.{IsSome};
    ghost use Rattle.afdx_config.specs.Lawful.{IsLawfulSwitch};
    ghost use Rattle.afdx_config.specs.Switches.{NamedRows, AreSwitches, switch_named};
    ghost use Rattle.afdx_config.specs.Switches.{system_of, far_end, first_of};
    ghost use Rattle.afdx_config.specs.Rows.{LinkRow, Rows};
    ghost use Rattle.afdx_config.specs.Changed.{with_times};
    ghost use Rattle.afdx_config.specs.Lawful.{IsLinkAmong, IsWithin};
    ghost use Rattle.afdx_config.specs.AtSwitch.{tables_at, link_at};
    ghost use Rattle.afdx_config.specs.ChangedSwitches.{with_buffer_at, with_times_at};
    ghost use Rattle.afdx_frame.specs.Lengths.{least_frame, greatest_buffer};

    pub(crate) fn new(switches: Vec<NamedTables>) -> Switches
        requires { AreSwitches switches.items }
        ensures { result ≡ switches.items }
    {
        Switches { switches }
    }

    /// How many switches there are on a side, 1 to 24.
    pub fn count(&self) -> usize
        ensures count { result ≡ length self.now }
        ensures switches { AreSwitches self.now }
    {
        self.switches.len()
    }

    /// The same as a number of identities: `SwitchId(k)` is a switch for each k below it.
    pub fn id_count(&self) -> u8
        ensures count { result ≡ length self.now }
        ensures switches { AreSwitches self.now }
    {
        self.count() as u8
    }

    /// The name of the switch at this place.
    pub fn name(&self, switch: SwitchId) -> &str
        requires { switch.0 < length self.now }
        ensures name { option_map (λ s. s.name) (slice_get self.now switch.0) ≡ Some result.now }
    {
        at(self.switches.as_slice(), switch.index()).name()
    }

    /// The tables of the switch at this place.
    pub fn tables(&self, switch: SwitchId) -> &Tables
        requires { switch.0 < length self.now }
        ensures tables { option_map (λ s. s.rows) (slice_get self.now switch.0)
            ≡ Some result.now }
        ensures lawful { IsLawfulSwitch result.now }
    {
        at(self.switches.as_slice(), switch.index()).tables()
    }

    /// The tables of the switch at this place, and of no other.
    pub fn into_tables(self, switch: SwitchId) -> Tables
        requires { switch.0 < length self }
        ensures tables { option_map (λ s. s.rows) (slice_get self switch.0) ≡ Some result }
        ensures lawful { IsLawfulSwitch result }
    {
        let Self { mut switches } = self;
        switches.swap_remove(switch.index()).into_tables()
    }

    /// Changes the buffer of each output port of a switch, to so many bytes.
    pub fn set_buffer(&mut self, switch: SwitchId, buffer: u64)
        requires switch { switch.0 < length self.old }
        requires buffer { IsWithin least_frame greatest_buffer buffer }
        ensures changed { self.new ≡ with_buffer_at switch.0 buffer self.old }
        ensures switches { AreSwitches self.new }
    {
        self.switches[switch.index()].set_buffer(buffer);
    }

    /// Changes the times of the link at a place of a switch, to ones that the link may have.
    pub fn set_times(&mut self, switch: SwitchId, index: usize, times: Times)
        requires within { IsSome (link_at self.old switch.0 index) }
        requires lawful { (t : Rows) (l : LinkRow) →
            tables_at self.old switch.0 ≡ Some t → slice_get t.links index ≡ Some l →
            IsLinkAmong t.own (length t.systems) (with_times times l) }
        ensures changed { self.new ≡ with_times_at switch.0 index times self.old }
        ensures switches { AreSwitches self.new }
    {
        self.switches[switch.index()].set_times(index, times);
    }

    /// The switch of this name, if there is one. It tries each of them.
    pub fn named(&self, name: &str) -> Option<SwitchId>
        ensures place { option_map (λ k. k.0) result ≡ switch_named self.now name.now }
        ensures known { IfSome result (λ k. k.0 < length self.now) }
    {
        let place = switch_named(self.switches.as_slice(), name)?;
        Some(SwitchId::nth(place))
    }

    /// The system of this name, if there is one, and its switch. It looks it up at each of them.
    #[tactic(auto, unfolding(crate::specs::Switches::system_of))]
    pub fn system_named(&self, name: &str) -> Option<(SwitchId, SystemId)>
        ensures place { option_map (λ found. (found.0.0, found.1.0)) result
            ≡ system_of self.now name.now }
    {
        let place = home_of(self.switches.as_slice(), name)?;
        let system = at(self.switches.as_slice(), place)
            .tables()
            .own_named(name)?;
        Some((SwitchId::nth(place), system))
    }

    /// The first switch that has a row of this link, if there is one. It looks it up at each of
    /// them.
    pub fn first_of(&self, vl: VlId) -> Option<SwitchId>
        ensures place { option_map (λ k. k.0) result ≡ first_of self.now vl.0 }
        ensures known { IfSome result (λ k. k.0 < length self.now) }
    {
        let place = first_of(self.switches.as_slice(), vl)?;
        Some(SwitchId::nth(place))
    }

    /// The other end of the cable at a port of a switch, if there is one. It tries each of what
    /// stands at the ports, and each switch.
    #[tactic(auto, unfolding(crate::specs::Switches::far_end))]
    pub fn far_end(&self, switch: SwitchId, port: u8) -> Option<FarEnd>
        requires { switch.0 < length self.now }
        ensures { result ≡ far_end self.now switch.0 port }
    {
        let here = at(self.switches.as_slice(), switch.index());
        let neighbour = here.tables().neighbour_at(port)?;
        end_at(self.switches.as_slice(), here.name(), neighbour)
    }
}

/// The other end of a neighbour's cable, at the switch that is called `name`.
fn end_at(switches: &[NamedTables], name: &str, neighbour: &System) -> Option<FarEnd>
    requires { length switches.now ≤ spec.most_switches }
    ensures { result ≡ spec.end_at switches.now name.now (system_row neighbour.now) }
{
    let far = switch_named(switches, neighbour.name.as_str())?;
    let back = listed_at(switches, name, far)?;
    Some(FarEnd {
        switch: SwitchId::nth(far),
        port: back.port,
    })
}
