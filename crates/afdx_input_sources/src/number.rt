//! What a number of a recording is.

ghost use Rattle.afdx_input_sources.specs.NumberLines.{NumberFollows, ReadFollows, number_order};

use crate::ahead::InOrder;
use crate::becoming::FoundFrame;
use crate::engine::Head;
use crate::skipped::Skipped;

/// What a number of a recording is.
#[derive(Clone, Copy, Debug, PartialEq, Eq)]
pub enum Number {
    /// An arrival, or a frame that left.
    Arrival(FoundFrame),
    /// It is skipped.
    Skipped(Skipped),
}

impl Head for Number {
    ghost can_follow = { NumberFollows };
}

impl InOrder for Number {
    ghost order = { number_order };

    fn comes(&self) -> Option<u64> {
        match self {
            Number::Arrival(found) => Some(found.moment),
            Number::Skipped(_) => None,
        }
    }

    fn keeps() {}
}

/// A number of a recording as it is read, before arrivals are put in order.
#[derive(Clone, Copy, Debug, PartialEq, Eq)]
pub struct AsRead {
    /// What it is.
    pub becomes: Number,
}

impl Head for AsRead {
    ghost can_follow = { ReadFollows };
}
