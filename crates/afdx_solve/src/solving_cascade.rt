//! The solution of a cascade.

ghost use Rattle.std.specs.Prelude.{◌≡◌, ◌<◌, ℕ, List, length, IfOk, IfErr, IsErr, Some};
ghost use Rattle.afdx_frame.specs.Lines.{first_false};
ghost use Rattle.afdx_admit.specs.Cascade.{IsCascadeAdmitted, cascade_lines};
ghost use Rattle.afdx_admit.specs.AtSwitch.{IsKnownAt};
ghost use Rattle.afdx_config.specs.Switches.{NamedRows, AreSwitches};
ghost use Rattle.afdx_solve.specs.Raising.{IsRising, IsSettledAt};
ghost use Rattle.afdx_solve.specs.SolvedCascade.{IsLeastSolution, NoneIsAdmitted};

use crate::beginning::begin;
use crate::options::SolveOptions;
use crate::raising::raise_all;
use afdx_admit::{AdmittedSwitches, CascadeFault, admit_all};
use afdx_config::Switches;

/// Raises the keys of all switches until each has what it needs.
fn settle(switches: &mut Switches, options: SolveOptions)
    ensures rising { (file : List NamedRows) → IsRising options file switches.old →
        IsRising options file switches.new }
    ensures settled { (k : ℕ) → k < length switches.new → IsSettledAt options switches.new k }
    ensures switches { AreSwitches switches.new }
{
    while raise_all(switches, options) {}
}

/// Gives the keys of all switches their least values.
fn set_least(switches: &mut Switches, options: SolveOptions)
    ensures least { IsLeastSolution options switches.old switches.new }
    ensures switches { AreSwitches switches.new }
{
    begin(switches, options);
    settle(switches, options);
}

/// The switches with the least jitters, latencies, skews and buffers that are enough for each
/// other, if they are admitted then. A key that no value in its range is enough for has the
/// greatest one. Where the switches aren't admitted, they are handed back with the first line of
/// admission that is false; then no others are that differ in keys which may be changed alone, and
/// whose skews allow for copies that are sent so far apart.
pub fn solve_cascade(
    switches: Switches,
    options: SolveOptions,
) -> Result<AdmittedSwitches, (Switches, CascadeFault)>
    ensures solved { IfOk result (IsLeastSolution options switches) }
    ensures admitted { IfOk result IsCascadeAdmitted }
    ensures handed_back { IfErr result (λ e. IsLeastSolution options switches e.0) }
    ensures first { IfErr result (λ e. first_false (cascade_lines e.0) ≡ Some e.1) }
    ensures known { IfErr result (λ e. IsKnownAt e.0 e.1) }
    ensures none { IsErr result → NoneIsAdmitted options switches }
{
    let mut switches = switches;
    set_least(&mut switches, options);
    admit_all(switches)
}
