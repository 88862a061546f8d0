//! Whether a source keeps its gap on one side.

ghost use Rattle.std.specs.Prelude.{◌≡◌, ◌≤◌, List, ◌∷◌, option_map, option_to_list};

use crate::limits::SenderLimits;

/// The level of a source's side, which each frame that has room raises, in millionths of a ns: what
/// it was once the last one was charged, and when that came, in ns.
#[derive(Clone, Copy, Debug)]
pub(crate) struct Pace {
    level: u64,
    time: u64,
}

impl Pace {
    ghost use Rattle.std.specs.Prelude.{[]};
    ghost use Rattle.afdx_lawful.specs.Alone.{times_with_room, too_soon};
    ghost use Rattle.afdx_lawful.specs.Limits.{AreLimits};
    ghost use Rattle.afdx_lawful.specs.Paces.{IsPace};
    ghost use Rattle.afdx_lawful.specs.Sources.{Came, Source as Terms};
    ghost use Rattle.afdx_lawful.specs.declared.finding.SenderFinding.TheVariants.{Soon};

    /// Nothing came yet.
    pub fn new() -> Pace
        ensures { (s : Terms) → IsPace s [] result }
    {
        Pace { level: 0, time: 0 }
    }

    /// A frame comes at this time, in ns: by how many ns it comes too soon, if it does. Then it
    /// isn't charged.
    pub fn come(&mut self, limits: &SenderLimits, time: u64) -> Option<u64>
        ensures stands { (s : Terms) (past : List Came) (x : Came) → AreLimits s limits.now →
            x.time ≡ time → IsPace s past self.old → IsPace s (x ∷ past) self.new }
        ensures found { (s : Terms) (past : List Came) (x : Came) → AreLimits s limits.now →
            x.time ≡ time → IsPace s past self.old →
            option_to_list (option_map (Soon x.line) result)
            ≡ too_soon s x (times_with_room s past) }
    {
        let ns = time.saturating_sub(self.time);
        let fallen = limits.fast.saturating_mul(ns);
        let level = self.level.saturating_sub(fallen);
        if level > limits.room {
            return Some((level - limits.room).div_ceil(limits.fast));
        }
        *self = Pace {
            level: level + limits.cost,
            time,
        };
        None
    }
}
