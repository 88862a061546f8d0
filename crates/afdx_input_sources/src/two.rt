//! Two of something, one for each of two sources that are read at once.

ghost use Rattle.std.specs.Prelude.{◌≡◌};
ghost use Rattle.std.specs.Borrow.{Lends, sem};
ghost use Rattle.afdx_frame.specs.declared.by_side.BySide.{BySide as Pair};
ghost use Rattle.afdx_input_sources.specs.MergedSource.{inputs_of};

use afdx_frame::BySide;
use afdx_input_lines::ByRole;

/// Two of something: of network A and of network B, or of what came in and of what left.
pub trait Two {
    /// What there are two of.
    type Part;

    /// The first, and the second.
    ghost both: { Self → Pair Self.Part };

    /// It is made of these.
    ghost of_both: { Pair Self.Part → Self };

    /// The first, to be changed.
    fn first(&mut self) -> &mut Self::Part
        ensures value { result.now ≡ (both self.old).a }
        ensures* writes_back { sem 𝓛 (Lends Self.row Self.Part.row self.entry result
            (λ x. of_both (inputs_of x (both self.old).b))) };

    /// The second, to be changed.
    fn second(&mut self) -> &mut Self::Part
        ensures value { result.now ≡ (both self.old).b }
        ensures* writes_back { sem 𝓛 (Lends Self.row Self.Part.row self.entry result
            (λ x. of_both (inputs_of (both self.old).a x))) };

    /// What is made of two has these two.
    fn holds_both()
        ensures { (two : Pair Self.Part) → both (of_both two) ≡ two };
}

impl<T> Two for BySide<T> {
    type Part = T;

    ghost both = { λ two. two };

    ghost of_both = { λ two. two };

    #[inline(always)]
    fn first(&mut self) -> &mut T {
        &mut self.a
    }

    #[inline(always)]
    fn second(&mut self) -> &mut T {
        &mut self.b
    }

    fn holds_both() {}
}

impl<T> Two for ByRole<T> {
    ghost use Rattle.afdx_input_sources.specs.MergedSource.{inputs_by_role, roles_of};

    type Part = T;

    ghost both = { inputs_by_role };

    ghost of_both = { roles_of };

    #[inline(always)]
    fn first(&mut self) -> &mut T {
        &mut self.came
    }

    #[inline(always)]
    fn second(&mut self) -> &mut T {
        &mut self.left
    }

    fn holds_both() {}
}
