//! By how much a frame came too late after its copy.

ghost use Rattle.std.specs.Prelude.{◌≡◌, ◌≤◌, option_map, option_to_list};
ghost use Rattle.afdx_frame.specs.Times.{latest_listed};
ghost use Rattle.afdx_lawful.specs.Judged.{too_late as too_late_by};
ghost use Rattle.afdx_lawful.specs.Limits.{AreLimits};
ghost use Rattle.afdx_lawful.specs.Sources.{Came, Source as Terms, apart as apart_of};
ghost use Rattle.afdx_lawful.specs.declared.finding.SenderFinding.TheVariants.{Apart};

use crate::limits::SenderLimits;

/// By how many ns a frame of this time came too late after its copy of that time, where it may come
/// so many later, all in ns.
pub(crate) fn too_late(limits: &SenderLimits, apart: u64, time: u64, before: u64) -> Option<u64>
    requires listed { before ≤ latest_listed }
    requires near { apart ≤ 200000000 }
    ensures { (s : Terms) (x y : Came) → AreLimits s limits.now → x.time ≡ time →
        y.time ≡ before → apart_of s x ≡ apart →
        option_to_list (option_map (Apart x.line) result) ≡ too_late_by s x y }
{
    if time <= before + apart + limits.slip {
        None
    } else {
        Some(time - before - apart)
    }
}
