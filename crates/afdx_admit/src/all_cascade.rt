//! All lines of admission of a cascade that are false.

ghost use Rattle.std.specs.Prelude.{◌≡◌, ◌↔◌, [], All, IfOk};
ghost use Rattle.afdx_frame.specs.Lines.{false_lines};
ghost use Rattle.afdx_admit.specs.Cascade as spec;
ghost use Rattle.afdx_admit.specs.AtSwitch.{IsKnownAt};

use crate::cascade_fault::CascadeFault;
use crate::cascade_lines::add_cascade_lines;
use afdx_config::Switches;
use std::alloc::{AllocError, Global};

/// The faults of all lines of a cascade that are false, each once, in the order of the lines. The
/// first is the one that `admit_all` answers.
pub fn all_cascade_faults(
    alloc: Global,
    switches: &Switches,
) -> Result<Vec<CascadeFault>, AllocError>
    ensures faults { IfOk result (λ v.
        v.items ≡ false_lines (spec.cascade_lines switches.now)) }
    ensures none { IfOk result (λ v. (v.items ≡ []) ↔ spec.IsCascadeAdmitted switches.now) }
    ensures known { IfOk result (λ v. All (IsKnownAt switches.now) v.items) }
{
    let mut found = Vec::new(alloc);
    add_cascade_lines(&mut found, switches)?;
    Ok(found)
}
