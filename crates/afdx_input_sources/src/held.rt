//! Arrivals that are held until nothing that stands behind them can come before them.

ghost use Rattle.std.specs.Prelude.{◌≡◌, ◌+◌, ◌*◌, ◌∷◌, ◌++◌, [], length};
ghost use Rattle.std.specs.Prelude.{IfNone, IfOk, IfSome, IsTrue, MatchBool, OnOk};
ghost use Rattle.std.proofs.Common.{rules};
ghost use Rattle.std.specs.BinaryHeap.{IsHeap, heap_items};
ghost use Rattle.std.specs.Cmp.{partial_order_from_own_ties};
ghost use Rattle.std.specs.Cmp.Rules.{comparing};
ghost use Rattle.std.specs.List.Sorted.{IsPermutation};
ghost use Rattle.std.specs.Ordering.{as_partial_cmp};
ghost use Rattle.afdx_input_sources.specs.Holding as holding;
ghost use Rattle.afdx_input_sources.specs.Holding.{AreRising, ComesFirst, Leads, arrival_item};

use crate::becoming::FoundFrame;
use crate::number::Number;
use std::alloc::{AllocError, Global};
use std::cmp::Ordering;
use std::collections::{BinaryHeap, VecDeque};
use std::marker::Model;

/// What is held of an arrival.
#[derive(Drop)]
struct KeptArrival {
    number: u64,
    found: FoundFrame,
    bytes: Vec<u8>,
}

/// An arrival that is held, with its bytes, at a place that stays while it is moved about.
#[derive(Drop)]
pub struct HeldArrival {
    kept: Box<KeptArrival>,
}

impl Model for HeldArrival {
    ghost use Rattle.afdx_input_sources.specs.Engine.{Item};
    ghost use Rattle.afdx_input_sources.specs.Holding.{arrival_item};
    ghost use Rattle.afdx_input_sources.specs.declared.number.Number.{Number as Shown};

    ghost Value = { Item Shown };

    ghost view = { λ x.
        arrival_item x.kept.value.number x.kept.value.found x.kept.value.bytes.items };
}

/// A moment with a number behind it.
fn joined(moment: u64, number: u64) -> u128
    ensures { result ≡ moment * 0x10000000000000000 + number }
{
    u128::from(moment) * 0x1_0000_0000_0000_0000 + u128::from(number)
}

impl HeldArrival {
    /// What it comes by: its moment, and its number among those of one moment.
    fn rank(&self) -> u128
        ensures { result ≡ holding.rank self.now }
    {
        joined(self.kept.found.moment, self.kept.number)
    }

    /// Its number.
    pub fn number(&self) -> u64
        ensures { result ≡ self.now.number }
    {
        self.kept.number
    }

    /// What it is.
    pub fn head(&self) -> Number
        ensures { result ≡ self.now.head }
    {
        Number::Arrival(self.kept.found)
    }

    /// Its bytes.
    pub fn bytes(&self) -> &[u8]
        ensures { result.now ≡ self.now.bytes }
    {
        self.kept.bytes.as_slice()
    }

    /// One with a copy of these bytes.
    fn new(
        alloc: Global,
        number: u64,
        found: FoundFrame,
        bytes: &[u8],
    ) -> Result<HeldArrival, AllocError>
        ensures { IfOk result (λ x. x ≡ arrival_item number found bytes.now) }
    {
        let bytes = Vec::from_slice(alloc, bytes)?;
        let kept = KeptArrival {
            number,
            found,
            bytes,
        };
        Ok(HeldArrival {
            kept: Box::new(alloc, kept)?,
        })
    }

    /// Puts another in its place, and in its memory where that is enough.
    fn replace(&mut self, number: u64, found: FoundFrame, bytes: &[u8]) -> Result<(), AllocError>
        ensures { OnOk result (self.new ≡ arrival_item number found bytes.now) }
    {
        let kept = &mut *self.kept;
        kept.number = number;
        kept.found = found;
        kept.bytes.clear();
        kept.bytes.extend_from_slice(bytes)
    }
}

impl PartialEq for HeldArrival {
    ghost eq = { holding.is_same_rank };

    ghost laws = { Prim.search (comparing, rules) };

    fn eq(&self, other: &HeldArrival) -> bool {
        self.rank() == other.rank()
    }
}

impl Eq for HeldArrival {
    ghost laws = { Prim.search (comparing, rules) };
}

impl PartialOrd for HeldArrival {
    ghost partial_cmp = { as_partial_cmp holding.by_rank };

    ghost laws = { partial_order_from_own_ties (Prim.search (comparing, rules))
        (Prim.search (comparing, rules)) };

    fn partial_cmp(&self, other: &HeldArrival) -> Option<Ordering> {
        Some(self.cmp(other))
    }
}

// The one that comes first is the greatest, as a heap has it.
impl Ord for HeldArrival {
    ghost cmp = { holding.by_rank };

    ghost total = { Prim.search (comparing, rules) };

    ghost matches_partial_cmp = { Prim.search (comparing, rules) };

    ghost matches_eq = { Prim.search (comparing, rules) };

    fn cmp(&self, other: &HeldArrival) -> Ordering {
        other.rank().cmp(&self.rank())
    }
}

/// An arrival with a copy of these bytes, in the memory of another that isn't needed any more.
#[inline(always)]
fn held_arrival(
    alloc: Global,
    room: Option<HeldArrival>,
    number: u64,
    found: FoundFrame,
    bytes: &[u8],
) -> Result<HeldArrival, AllocError>
    ensures { IfOk result (λ x. x ≡ arrival_item number found bytes.now) }
{
    let Some(mut arrival) = room else {
        return HeldArrival::new(alloc, number, found, bytes);
    };
    arrival.replace(number, found, bytes)?;
    Ok(arrival)
}

/// Whether the first of all is one of those that came late.
#[inline(always)]
fn is_late_first(queue: &VecDeque<HeldArrival>, late: &BinaryHeap<HeldArrival>) -> bool
    requires rising { AreRising queue.now.items }
    requires heap { IsHeap holding.by_rank (heap_items late.now) }
    ensures { MatchBool result (Leads (heap_items late.now) queue.now.items)
        (Leads queue.now.items (heap_items late.now)) }
{
    let Some(top) = late.peek() else {
        return false;
    };
    let Some(first) = queue.front() else {
        return true;
    };
    top.rank() < first.rank()
}

/// Arrivals that are held. What is known of them is a list, in any order.
#[derive(Drop)]
pub struct HeldArrivals {
    /// Those that came in order.
    queue: VecDeque<HeldArrival>,
    /// The rank of the last that came so.
    newest: u128,
    /// Those that came behind one that comes after them.
    late: BinaryHeap<HeldArrival>,
}

impl Model for HeldArrivals {
    ghost use Rattle.std.specs.Prelude.{List, ◌++◌};
    ghost use Rattle.std.specs.BinaryHeap.{IsHeap, heap_items};
    ghost use Rattle.afdx_input_sources.specs.Engine.{Item};
    ghost use Rattle.afdx_input_sources.specs.Holding.{AreBehind, AreRising, by_rank};
    ghost use Rattle.afdx_input_sources.specs.declared.number.Number.{Number as Shown};

    ghost Value = { List (Item Shown) };

    ghost view = { λ held. held.queue.items ++ heap_items held.late };

    ghost invariant = { λ held.
        AreRising held.queue.items × IsHeap by_rank (heap_items held.late)
        × AreBehind held.queue.items held.newest };
}

impl HeldArrivals {
    /// None is held.
    pub fn new(alloc: Global) -> HeldArrivals
        ensures { result ≡ [] }
    {
        HeldArrivals {
            queue: VecDeque::new(alloc),
            newest: 0,
            late: BinaryHeap::new(alloc),
        }
    }

    /// How many are held.
    pub fn len(&self) -> usize
        ensures { result ≡ length self.now }
    {
        self.queue.len() + self.late.len()
    }

    /// Holds one more, in the memory of another that isn't needed any more, if there is one.
    #[inline(always)]
    pub fn hold(
        &mut self,
        alloc: Global,
        room: Option<HeldArrival>,
        number: u64,
        found: FoundFrame,
        bytes: &[u8],
    ) -> Result<(), AllocError>
        ensures { OnOk result
            (IsPermutation (arrival_item number found bytes.now ∷ self.old) self.new) }
    {
        let arrival = held_arrival(alloc, room, number, found, bytes)?;
        let rank = arrival.rank();
        if self.newest <= rank {
            self.newest = rank;
            self.queue.push_back(arrival)?;
        } else {
            self.late.push(arrival)?;
        }
        Ok(())
    }

    /// Takes out the one that comes first. None: none is held.
    #[inline(always)]
    pub fn take_first(&mut self) -> Option<HeldArrival>
        ensures first { IfSome result (λ x. ComesFirst x self.new) }
        ensures rest { IfSome result (λ x. IsPermutation self.old (x ∷ self.new)) }
        ensures none { IfNone result (self.old ≡ []) }
        ensures same { IfNone result (self.new ≡ self.old) }
    {
        if is_late_first(&self.queue, &self.late) {
            self.late.pop()
        } else {
            self.queue.pop_front()
        }
    }
}
