//! One of something for each of the two networks.

ghost use Rattle.std.specs.Prelude.{◌≡◌};
ghost use Rattle.std.specs.Borrow.{Lends, sem};

use crate::link::Side;

/// One of something for side A, and one for side B.
#[derive(Clone, Copy, Debug, Drop)]
pub struct BySide<T> {
    pub a: T,
    pub b: T,
}

impl<T> BySide<T> {
    ghost use Rattle.afdx_frame.specs.BySide.{on, with_on};
    ghost use Rattle.afdx_frame.specs.contracts.by_side.BySide.{the_row};

    /// That of a side.
    #[inline]
    pub fn get(&self, side: Side) -> &T
        ensures { result.now ≡ on side self.now }
    {
        match side {
            Side::A => &self.a,
            Side::B => &self.b,
        }
    }

    /// That of a side, to be changed.
    #[inline]
    pub fn get_mut(&mut self, side: Side) -> &mut T
        ensures value { result.now ≡ on side self.old }
        ensures* writes_back { sem 𝓛 (Lends (the_row T.row) T.row self.entry result
            (with_on side self.old)) }
    {
        match side {
            Side::A => &mut self.a,
            Side::B => &mut self.b,
        }
    }
}
