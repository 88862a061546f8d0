//! Admission of a cascade.

ghost use Rattle.std.specs.Prelude.{◌≡◌, ◌↔◌, IsOk, IfOk, OnOk, IfErr, Some, None};
ghost use Rattle.afdx_frame.specs.Lines.{first_false};
ghost use Rattle.afdx_admit.specs.Cascade.{IsCascadeAdmitted, cascade_lines};
ghost use Rattle.afdx_admit.specs.AtSwitch.{IsKnownAt};

use crate::admitted::Admitted;
use crate::cascade_fault::CascadeFault;
use crate::cascade_lines::first_fault;
use afdx_config::{SwitchId, Switches};
use std::marker::Model;

/// Switches at each of which every frame keeps its link's latency, and whose rows of a link allow
/// for those before them.
#[derive(Debug, Drop)]
pub struct AdmittedSwitches {
    switches: Switches,
}

impl Model for AdmittedSwitches {
    ghost use Rattle.std.specs.Prelude.{List};
    ghost use Rattle.afdx_config.specs.Switches.{NamedRows, AreSwitches};
    ghost use Rattle.afdx_admit.specs.Cascade.{IsCascadeAdmitted};

    ghost Value = { List NamedRows };

    ghost view = { λ a. a.switches };

    ghost invariant = { λ a. AreSwitches a.switches × IsCascadeAdmitted a.switches };
}

impl AdmittedSwitches {
    ghost use Rattle.std.specs.Prelude.{◌≡◌, ◌<◌, length, option_map, slice_get, Some};
    ghost use Rattle.afdx_config.specs.Switches.{AreSwitches};
    ghost use Rattle.afdx_admit.specs.Cascade.{IsCascadeAdmitted};

    /// The switches that were admitted.
    pub fn switches(&self) -> &Switches
        ensures switches { result.now ≡ self.now }
        ensures lawful { AreSwitches self.now }
        ensures admitted { IsCascadeAdmitted self.now }
    {
        &self.switches
    }

    /// The tables of the switch at this place alone, which are admitted too.
    pub fn into_admitted(self, switch: SwitchId) -> Admitted
        requires { switch.0 < length self }
        ensures { option_map (λ s. s.rows) (slice_get self switch.0) ≡ Some result }
    {
        Admitted::of_all(self.switches.into_tables(switch))
    }
}

/// Admits switches of which all lines hold. Otherwise they are handed back with the first line that
/// is false: of each switch by its own tables, then of the rows that come from neighbours, then of
/// those that go to neighbours, each in the order of the file.
pub fn admit_all(switches: Switches) -> Result<AdmittedSwitches, (Switches, CascadeFault)>
    ensures exact { IsOk result ↔ IsCascadeAdmitted switches }
    ensures same { IfOk result (λ admitted. admitted ≡ switches) }
    ensures handed_back { IfErr result (λ e. e.0 ≡ switches) }
    ensures none { OnOk result (first_false (cascade_lines switches) ≡ None) }
    ensures first { IfErr result (λ e. first_false (cascade_lines switches) ≡ Some e.1) }
    ensures known { IfErr result (λ e. IsKnownAt switches e.1) }
{
    match first_fault(&switches) {
        None => Ok(AdmittedSwitches { switches }),
        Some(fault) => Err((switches, fault)),
    }
}
