//! All lines of admission that are false.

ghost use Rattle.std.specs.Prelude.{◌≡◌, ◌↔◌, [], All, IfOk};
ghost use Rattle.afdx_config.specs.Admission.{IsAdmitted};
ghost use Rattle.afdx_admit.specs.Known.{IsKnown};
ghost use Rattle.afdx_admit.specs.Lines as spec;

use crate::fault::AdmitFault;
use crate::lines::add_lines;
use afdx_config::Tables;
use std::alloc::{AllocError, Global};

/// The faults of all lines that are false, each once, in the order of the lines: ports ascending,
/// then systems, then links in the order of the file. The first is the one that `admit` answers.
pub fn all_faults(alloc: Global, tables: &Tables) -> Result<Vec<AdmitFault>, AllocError>
    ensures faults { IfOk result (λ v. v.items ≡ spec.false_lines (spec.lines tables.now)) }
    ensures none { IfOk result (λ v. (v.items ≡ []) ↔ IsAdmitted tables.now) }
    ensures known { IfOk result (λ v. All (IsKnown tables.now) v.items) }
{
    let mut found = Vec::new(alloc);
    add_lines(&mut found, tables)?;
    Ok(found)
}
