//! Admission.

ghost use Rattle.std.specs.Prelude.{◌≡◌, ◌↔◌, IsOk, IfOk, OnOk, IfErr, Some, None};
ghost use Rattle.afdx_config.specs.Admission.{IsAdmitted};
ghost use Rattle.afdx_admit.specs.Lines.{first_false, lines};
ghost use Rattle.afdx_admit.specs.Known.{IsKnown};

use crate::fault::AdmitFault;
use crate::lines::first_fault;
use afdx_config::Tables;
use std::marker::Model;

/// Tables in which every frame keeps its link's latency.
#[derive(Debug, Drop)]
pub struct Admitted {
    tables: Tables,
}

impl Model for Admitted {
    ghost use Rattle.afdx_config.specs.Rows.{Rows};
    ghost use Rattle.afdx_config.specs.Admission.{IsAdmitted};
    ghost use Rattle.afdx_config.specs.Lawful.{IsLawfulSwitch};

    ghost Value = { Rows };

    ghost view = { λ a. a.tables };

    ghost invariant = { λ a. IsLawfulSwitch a.tables × IsAdmitted a.tables };
}

impl Admitted {
    ghost use Rattle.std.specs.Prelude.{◌≡◌};
    ghost use Rattle.afdx_config.specs.Admission.{IsAdmitted};
    ghost use Rattle.afdx_config.specs.Lawful.{IsLawfulSwitch};

    /// The tables that were admitted.
    pub fn tables(&self) -> &Tables
        ensures tables { result.now ≡ self.now }
        ensures lawful { IsLawfulSwitch self.now }
        ensures admitted { IsAdmitted self.now }
    {
        &self.tables
    }

    /// Tables that were admitted with others.
    pub(crate) fn of_all(tables: Tables) -> Admitted
        requires lawful { IsLawfulSwitch tables }
        requires admitted { IsAdmitted tables }
        ensures { result ≡ tables }
    {
        Admitted { tables }
    }
}

/// Admits tables of which all lines hold. Otherwise they are handed back with the first line that
/// is false: ports ascending, then systems, then links in the order of the file.
pub fn admit(tables: Tables) -> Result<Admitted, (Tables, AdmitFault)>
    ensures exact { IsOk result ↔ IsAdmitted tables }
    ensures same { IfOk result (λ admitted. admitted ≡ tables) }
    ensures handed_back { IfErr result (λ e. e.0 ≡ tables) }
    ensures none { OnOk result (first_false (lines tables) ≡ None) }
    ensures first { IfErr result (λ e. first_false (lines tables) ≡ Some e.1) }
    ensures known { IfErr result (λ e. IsKnown tables e.1) }
{
    match first_fault(&tables) {
        None => Ok(Admitted { tables }),
        Some(fault) => Err((tables, fault)),
    }
}
