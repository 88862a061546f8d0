//! When frames of each number came last.

ghost use Rattle.std.specs.Prelude.{◌≡◌, ℕ, ◌<◌, ◌≤◌, ◌&&◌, nat_le, true, false, length};
ghost use Rattle.std.specs.Prelude.{List, [], ◌∷◌, get_or};
ghost use Rattle.std.specs.List.{list_any};
ghost use Rattle.afdx_frame.specs.Times.{latest_listed};
ghost use Rattle.afdx_receive.specs.Steps.{is_within_steps};
ghost use Rattle.afdx_lawful.specs.Accepted.{ComeUpTo};
ghost use Rattle.afdx_lawful.specs.Alone.{number_in};
ghost use Rattle.afdx_lawful.specs.LastCame.{AreLast, stands_so};
ghost use Rattle.afdx_lawful.specs.Partners.{most_steps};
ghost use Rattle.afdx_lawful.specs.Sources.{Came};

/// How many sequence numbers there are.
const NUMBERS: usize = 256;

/// By so many steps at most a number stands behind another.
const MOST_STEPS: u8 = 45;

/// Of each sequence number the moment behind the last frame of a side that had it, in ns; 0: none
/// had it.
#[derive(Debug, Drop)]
pub(crate) struct LastCame {
    behind: [u64; NUMBERS],
}

/// Whether the second number stands 1 to 45 steps behind the first (ARINC 664 Part 7).
fn is_behind(number: u8, other: u8) -> bool
    ensures { result ≡ is_within_steps most_steps number other }
{
    if other == 0 {
        false
    } else if other > number {
        other - number <= MOST_STEPS
    } else {
        255 - (number - other) <= MOST_STEPS
    }
}

/// Whether the second number stands so behind the first, or before it.
fn stands(is_later: bool, number: u8, other: u8) -> bool
    ensures { result ≡ stands_so is_later number other }
{
    if is_later {
        is_behind(number, other)
    } else {
        is_behind(other, number)
    }
}

/// Whether a number that stands so has a moment behind this one.
fn any_stands(behind: &[u64], moment: u64, is_later: bool, number: u8) -> bool
    requires { length behind.now ≡ 256 }
    ensures some { result ≡ true → (k : ℕ) × (moment < get_or behind.now k 0)
        × (stands_so is_later number k ≡ true) }
    ensures none { result ≡ false → (k : ℕ) → moment < get_or behind.now k 0 →
        stands_so is_later number k ≡ false }
{
    for other in 0..NUMBERS {
        if behind[other] > moment && stands(is_later, number, other as u8) {
            return true;
        }
    }
    false
}

impl LastCame {
    /// None came yet.
    pub fn new() -> LastCame
        ensures { AreLast [] result }
    {
        LastCame {
            behind: [0; NUMBERS],
        }
    }

    /// One more frame came at this time, in ns, with this number.
    pub fn come(&mut self, time: u64, number: u8)
        requires { time ≤ latest_listed }
        ensures { (past : List Came) (x : Came) → x.time ≡ time → number_in x ≡ number →
            AreLast past self.old → AreLast (x ∷ past) self.new }
    {
        self.behind[number as usize] = time + 1;
    }

    /// Whether a frame that came at this moment, in ns, or later has a number that stands 1 to 45
    /// steps behind this one, or before it.
    pub fn any_since(&self, moment: u64, is_later: bool, number: u8) -> bool
        ensures { (xs : List Came) (end : ℕ) → AreLast xs self.now → ComeUpTo end xs →
            result ≡ list_any
            (λ x. nat_le moment x.time && stands_so is_later number (number_in x)) xs }
    {
        any_stands(&self.behind, moment, is_later, number)
    }
}
