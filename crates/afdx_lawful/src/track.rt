//! What is found of a frame by those before it on its own side.

ghost use Rattle.std.specs.Prelude.{◌≡◌, if◌then◌else◌, List, ◌∷◌, Some, None, option_map};
ghost use Rattle.std.specs.Prelude.{option_to_list};
ghost use Rattle.afdx_config.specs.Numbers.{next_number as number_behind};
ghost use Rattle.afdx_lawful.specs.Alone.{number_in, other_number};
ghost use Rattle.afdx_lawful.specs.Sources.{Came, Source as Terms};
ghost use Rattle.afdx_lawful.specs.declared.finding.SenderFinding.TheVariants.{Number, Soon, Unlawful};

use crate::finding::{Flaw, SenderFinding};
use crate::limits::SenderLimits;
use crate::pace::Pace;

/// The frames of one side of a source: the number that stands next, if it is known, and the level.
#[derive(Clone, Copy, Debug)]
pub(crate) struct Track {
    next: Option<u8>,
    pace: Pace,
}

/// What is found of a frame by its own side alone: what is wrong with it by itself, the number that
/// stands in the place of its own, by how many ns it came too soon.
#[derive(Clone, Copy, Debug)]
pub(crate) struct Alone {
    pub flaw: Option<Flaw>,
    pub number: Option<u8>,
    pub soon: Option<u64>,
}

impl Alone {
    ghost use Rattle.std.specs.Prelude.{ℕ};
    ghost use Rattle.afdx_lawful.specs.Alone.{is_empty};
    ghost use Rattle.afdx_lawful.specs.Tracks.{told_alone};

    /// What is wrong with the frame of this line by itself.
    pub fn unlawful(&self, line: u64) -> Option<SenderFinding>
        ensures { result ≡ option_map (Unlawful line) self.now.flaw }
    {
        match self.flaw {
            Some(flaw) => Some(SenderFinding::Unlawful(line, flaw)),
            None => None,
        }
    }

    /// That another number stands in the place of its own.
    pub fn other_number(&self, line: u64) -> Option<SenderFinding>
        ensures { result ≡ option_map (Number line) self.now.number }
    {
        match self.number {
            Some(number) => Some(SenderFinding::Number(line, number)),
            None => None,
        }
    }

    /// That it came too soon.
    pub fn too_soon(&self, line: u64) -> Option<SenderFinding>
        ensures { result ≡ option_map (Soon line) self.now.soon }
    {
        match self.soon {
            Some(by) => Some(SenderFinding::Soon(line, by)),
            None => None,
        }
    }

    /// Nothing is found.
    pub fn is_quiet(&self) -> bool
        ensures { (line : ℕ) → result ≡ is_empty (told_alone line self.now) }
    {
        self.flaw.is_none() && self.number.is_none() && self.soon.is_none()
    }
}

/// The sequence number one step behind (ARINC 664 Part 7).
fn next_number(number: u8) -> u8
    ensures { result ≡ number_behind number }
{
    if number == 255 { 1 } else { number + 1 }
}

/// The number that stands next, if it is known and isn't this one.
fn other_than(next: Option<u8>, number: u8) -> Option<u8>
    ensures { (s : Terms) (x : Came) → number_in x ≡ number →
        option_to_list (option_map (Number x.line) result) ≡ other_number s x next }
{
    match next {
        Some(next) if next != number => Some(next),
        _ => None,
    }
}

impl Track {
    ghost use Rattle.std.specs.Prelude.{[]};
    ghost use Rattle.afdx_lawful.specs.Alone.{first_number, found_alone};
    ghost use Rattle.afdx_lawful.specs.Flaws.{flaw_of};
    ghost use Rattle.afdx_lawful.specs.Limits.{AreLimits};
    ghost use Rattle.afdx_lawful.specs.Tracks.{IsTrack, told_alone};

    /// Nothing came yet; the first number is 0, unless frames came before the recordings.
    pub fn new(is_begun: bool) -> Track
        ensures { (s : Terms) → first_number s s.by.start ≡ (if is_begun then None else Some 0) →
            IsTrack s [] result }
    {
        let next = if is_begun { None } else { Some(0) };
        Track {
            next,
            pace: Pace::new(),
        }
    }

    /// One more frame came at this time, in ns, with this number: what is found of it.
    pub fn come(
        &mut self,
        limits: &SenderLimits,
        time: u64,
        flaw: Option<Flaw>,
        number: u8,
    ) -> Alone
        ensures stands { (s : Terms) (past : List Came) (x : Came) → AreLimits s limits.now →
            x.time ≡ time → number_in x ≡ number → IsTrack s past self.old →
            IsTrack s (x ∷ past) self.new }
        ensures found { (s : Terms) (past : List Came) (x : Came) → AreLimits s limits.now →
            x.time ≡ time → number_in x ≡ number → flaw ≡ flaw_of s x → IsTrack s past self.old →
            told_alone x.line result ≡ found_alone s past x }
    {
        let other = other_than(self.next, number);
        let soon = self.pace.come(limits, time);
        self.next = Some(next_number(number));
        Alone {
            flaw,
            number: other,
            soon,
        }
    }
}
