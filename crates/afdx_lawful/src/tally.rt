//! What is counted of a source.

ghost use Rattle.std.specs.Prelude.{◌≡◌, ◌<◌, ◌^◌, if◌then◌else◌, length};
ghost use Rattle.afdx_lawful.specs.Alone.{is_empty};
ghost use Rattle.afdx_lawful.specs.Courses.{AllTold, Course, IsCourse, came_too, told_too};
ghost use Rattle.afdx_lawful.specs.Judged.{found_of, is_cut_of};
ghost use Rattle.afdx_lawful.specs.Partners.{Waiting};
ghost use Rattle.afdx_lawful.specs.Sources.{Came, Source as Terms};

/// How many frames of a source have no finding; and the copies of how many may have been sent
/// behind the end of the recordings, or before their start.
#[derive(Clone, Copy, Debug, PartialEq, Eq)]
pub struct SourceCounts {
    pub sent: u64,
    pub cut: u64,
}

/// Of how many frames nothing was found when they came; how many of these waited in vain, and their
/// copies aren't cut off; the copies of how many are. None goes beyond the greatest number.
#[derive(Clone, Copy, Debug)]
pub(crate) struct SourceTally {
    quiet: u64,
    lost: u64,
    cut: u64,
}

/// 1, if it is so.
fn one_if(is_so: bool) -> u64
    ensures { result ≡ (if is_so then 1 else 0) }
{
    if is_so { 1 } else { 0 }
}

impl SourceTally {
    ghost use Rattle.afdx_lawful.specs.Courses.{at_first};
    ghost use Rattle.afdx_lawful.specs.Tallies.{IsTally, TellsAll};

    /// Nothing came yet.
    pub fn new() -> SourceTally
        ensures { (s : Terms) → IsTally s at_first result }
    {
        SourceTally {
            quiet: 0,
            lost: 0,
            cut: 0,
        }
    }

    /// One more frame came: whether nothing was found of it.
    pub fn come(&mut self, is_quiet: bool)
        ensures { (s : Terms) (c : Course) (x : Came) → is_quiet ≡ is_empty (found_of s c.came x) →
            IsTally s c self.old → IsTally s (came_too c x) self.new }
    {
        self.quiet = self.quiet.saturating_add(one_if(is_quiet));
    }

    /// One more waited in vain: whether its copy is cut off, and whether nothing was found of it
    /// when it came.
    pub fn tell(&mut self, is_cut: bool, is_quiet: bool)
        ensures { (s : Terms) (c : Course) (y : Waiting) → is_cut ≡ is_cut_of s c.came y →
            is_quiet ≡ y.is_quiet → IsTally s c self.old → IsTally s (told_too s c y) self.new }
    {
        if is_cut {
            self.cut = self.cut.saturating_add(1);
        } else {
            self.lost = self.lost.saturating_add(one_if(is_quiet));
        }
    }

    /// What is counted once all was told.
    pub fn counts(&self) -> SourceCounts
        ensures { (s : Terms) (c : Course) → IsTally s c self.now → IsCourse s c → AllTold s c →
            length c.came < 2 ^ 64 → TellsAll s c result }
    {
        SourceCounts {
            sent: self.quiet.saturating_sub(self.lost),
            cut: self.cut,
        }
    }
}
