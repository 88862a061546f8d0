//! What is told of a frame, and where its lines stand among others.

ghost use Rattle.std.specs.Prelude.{◌≡◌};
ghost use Rattle.std.specs.Cmp.Rules.{comparing};
ghost use Rattle.std.specs.Cmp.{partial_order_from_own_ties};
ghost use Rattle.std.specs.Ordering.{as_partial_cmp, nat_cmp};
ghost use Rattle.std.proofs.Common.{rules};
ghost use Rattle.afdx_senders.specs.Order as spec;

use crate::stray::Stray;
use afdx_frame::Side;
use afdx_lawful::HeardFrame;
use std::cmp::Ordering;

/// What is told of a frame.
#[derive(Clone, Copy, Debug)]
pub enum ToldOf {
    /// It came to its source.
    Heard(HeardFrame),
    /// It waited for its copy in vain.
    Single,
    /// It is no source's.
    Strayed(Stray),
}

/// What is told of a frame, at its moment in ns: side and port at which it came, and its line.
#[derive(Clone, Copy, Debug)]
pub struct SenderLine {
    pub moment: u64,
    pub side: Side,
    pub port: u8,
    pub line: u64,
    pub told: ToldOf,
}

/// The numbers of a line are those that its types hold.
pub(crate) fn are_in_type(x: SenderLine)
    ensures { spec.AreInType x }
{
    let SenderLine {
        moment: _,
        side: _,
        port: _,
        line: _,
        told: _,
    } = x;
}

/// The number of a side, in its order.
fn side_rank(side: Side) -> u64
    ensures { result ≡ spec.side_rank side }
{
    match side {
        Side::A => 0,
        Side::B => 1,
    }
}

impl SenderLine {
    /// By what it comes among those of one moment: by side, then by port.
    fn spot(self) -> u64
        ensures { result ≡ spec.spot_of self }
    {
        side_rank(self.side) * 256 + u64::from(self.port)
    }

    /// How it comes to another of the same moment: by side and port, then by line.
    fn order_there(&self, other: &SenderLine) -> Ordering
        ensures { result ≡ nat_cmp (spec.rank_there self.now) (spec.rank_there other.now) }
    {
        are_in_type(*self);
        are_in_type(*other);
        let here = self.spot();
        let there = other.spot();
        if here < there {
            return Ordering::Less;
        }
        if here > there {
            return Ordering::Greater;
        }
        self.line.cmp(&other.line)
    }

    /// How it comes to another: by moment, side, port and line.
    fn order(&self, other: &SenderLine) -> Ordering
        ensures { result ≡ nat_cmp (spec.rank_of self.now) (spec.rank_of other.now) }
    {
        are_in_type(*self);
        are_in_type(*other);
        if self.moment < other.moment {
            return Ordering::Less;
        }
        if self.moment > other.moment {
            return Ordering::Greater;
        }
        self.order_there(other)
    }
}

impl PartialEq for SenderLine {
    ghost eq = { spec.is_same_rank };

    ghost laws = { Prim.search (comparing, rules) };

    fn eq(&self, other: &SenderLine) -> bool {
        self.order(other).is_eq()
    }
}

impl Eq for SenderLine {
    ghost laws = { Prim.search (comparing, rules) };
}

impl PartialOrd for SenderLine {
    ghost partial_cmp = { as_partial_cmp spec.by_rank };

    ghost laws = { partial_order_from_own_ties (Prim.search (comparing, rules))
        (Prim.search (comparing, rules)) };

    fn partial_cmp(&self, other: &SenderLine) -> Option<Ordering> {
        Some(self.cmp(other))
    }
}

// The one that comes first is the greatest, as a heap has it.
impl Ord for SenderLine {
    ghost cmp = { spec.by_rank };

    ghost total = { Prim.search (comparing, rules) };

    ghost matches_partial_cmp = { Prim.search (comparing, rules) };

    ghost matches_eq = { Prim.search (comparing, rules) };

    fn cmp(&self, other: &SenderLine) -> Ordering {
        other.order(self)
    }
}
