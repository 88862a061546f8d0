//! When frames of a source wait no longer.

ghost use Rattle.std.specs.Prelude.{◌≡◌, ◌<◌, ◌∷◌, [], All, IfNone, IfSome, OnOk, length};
ghost use Rattle.std.specs.Prelude.{IsTrue, Some, ◌↔◌};
ghost use Rattle.std.specs.Cmp.Rules.{comparing};
ghost use Rattle.std.specs.Cmp.{partial_order_from_own_ties};
ghost use Rattle.std.specs.List.Sorted.{IsPermutation};
ghost use Rattle.std.specs.Ordering.{as_partial_cmp};
ghost use Rattle.std.proofs.Common.{rules};
ghost use Rattle.afdx_senders.specs.Awaited as spec;
ghost use Rattle.afdx_senders.specs.Awaited.{AwaitsToo, IsDueBefore, IsNoneBefore};

use crate::found_lines::is_before;
use std::alloc::{AllocError, Global};
use std::cmp::Ordering;
use std::collections::BinaryHeap;
use std::marker::Model;

/// At this moment, in ns, frames of the source at this place wait no longer.
#[derive(Clone, Copy, Debug)]
pub(crate) struct DueSource {
    pub(crate) moment: u64,
    pub(crate) place: usize,
}

impl PartialEq for DueSource {
    ghost eq = { spec.is_same_moment };

    ghost laws = { Prim.search (comparing, rules) };

    fn eq(&self, other: &DueSource) -> bool {
        self.moment == other.moment
    }
}

impl Eq for DueSource {
    ghost laws = { Prim.search (comparing, rules) };
}

impl PartialOrd for DueSource {
    ghost partial_cmp = { as_partial_cmp spec.by_moment };

    ghost laws = { partial_order_from_own_ties (Prim.search (comparing, rules))
        (Prim.search (comparing, rules)) };

    fn partial_cmp(&self, other: &DueSource) -> Option<Ordering> {
        Some(self.cmp(other))
    }
}

// The one that comes first is the greatest, as a heap has it.
impl Ord for DueSource {
    ghost cmp = { spec.by_moment };

    ghost total = { Prim.search (comparing, rules) };

    ghost matches_partial_cmp = { Prim.search (comparing, rules) };

    ghost matches_eq = { Prim.search (comparing, rules) };

    fn cmp(&self, other: &DueSource) -> Ordering {
        other.moment.cmp(&self.moment)
    }
}

/// When frames of sources wait no longer. What is known of it is a list, in any order.
#[derive(Drop)]
pub(crate) struct SourceAgenda {
    heap: BinaryHeap<DueSource>,
}

impl Model for SourceAgenda {
    ghost use Rattle.std.specs.Prelude.{List};
    ghost use Rattle.std.specs.BinaryHeap.{IsHeap, heap_items};
    ghost use Rattle.afdx_senders.specs.Awaited.{by_moment};
    ghost use Rattle.afdx_senders.specs.declared.agenda.DueSource.{DueSource as Due};

    ghost Value = { List Due };

    ghost view = { λ agenda. heap_items agenda.heap };

    ghost invariant = { λ agenda. IsHeap by_moment (heap_items agenda.heap) };
}

impl SourceAgenda {
    /// Nothing is awaited.
    pub(crate) fn new(alloc: Global) -> SourceAgenda
        ensures { result ≡ [] }
    {
        SourceAgenda {
            heap: BinaryHeap::new(alloc),
        }
    }

    /// What is due of the source at this place now is awaited, unless it was due before.
    pub(crate) fn put_due(
        &mut self,
        place: usize,
        before: Option<u64>,
        after: Option<u64>,
    ) -> Result<(), AllocError>
        ensures { OnOk result (AwaitsToo place before after self.old self.new) }
    {
        if before == after {
            return Ok(());
        }
        let Some(moment) = after else {
            return Ok(());
        };
        self.heap.push(DueSource { moment, place })?;
        Ok(())
    }

    /// Takes out one of the first moments, if it lies before that time; without a time whenever it
    /// is.
    pub(crate) fn take_before(&mut self, before: Option<u64>) -> Option<DueSource>
        ensures in_time { IfSome result (IsDueBefore before) }
        ensures rest { IfSome result (λ x. IsPermutation self.old (x ∷ self.new)) }
        ensures fewer { IfSome result (λ x. length self.new < length self.old) }
        ensures none { IfNone result (IsNoneBefore before self.old) }
        ensures same { IfNone result (self.new ≡ self.old) }
    {
        let Some(first) = self.heap.peek() else {
            return None;
        };
        if is_before(first.moment, before) {
            self.heap.pop()
        } else {
            None
        }
    }
}

/// Whether that is due at this moment.
pub(crate) fn is_moment(due: Option<u64>, moment: u64) -> bool
    ensures { IsTrue result ↔ (due ≡ Some moment) }
{
    due == Some(moment)
}
