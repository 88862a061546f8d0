//! What is still to be told, by its moment.

ghost use Rattle.std.specs.Prelude.{◌≡◌, ◌≤◌, ◌<◌, ◌∷◌, [], List, All, IfNone, IfSome, OnOk, length};
ghost use Rattle.std.proofs.Common.{rules};
ghost use Rattle.std.specs.BinaryHeap.{IsHeap, heap_items};
ghost use Rattle.std.specs.Cmp.{partial_order_from_own_ties};
ghost use Rattle.std.specs.Cmp.Rules.{comparing};
ghost use Rattle.std.specs.List.Sorted.{IsPermutation};
ghost use Rattle.std.specs.Ordering.{as_partial_cmp, nat_cmp};
ghost use Rattle.afdx_command_conform.specs.Awaited as spec;
ghost use Rattle.afdx_command_conform.specs.Awaited.{AreKeys, AreNotBefore, IsBefore, awaited};

use crate::key::{Key, are_small};
use std::alloc::{AllocError, Global};
use std::cmp::Ordering;
use std::collections::BinaryHeap;
use std::marker::Model;

/// At this moment, in ns, something is to be told of a key.
#[derive(Clone, Copy, Debug)]
pub(crate) struct AgendaEntry {
    pub(crate) moment: u64,
    pub(crate) key: Key,
}

impl AgendaEntry {
    /// How it comes to another: by moment, and at one moment by key.
    fn order(&self, other: &AgendaEntry) -> Ordering
        ensures { result ≡ nat_cmp (spec.rank_of self.now) (spec.rank_of other.now) }
    {
        are_small(self.key);
        are_small(other.key);
        if self.moment < other.moment {
            return Ordering::Less;
        }
        if self.moment > other.moment {
            return Ordering::Greater;
        }
        self.key.rank().cmp(&other.key.rank())
    }
}

impl PartialEq for AgendaEntry {
    ghost eq = { spec.is_same_rank };

    ghost laws = { Prim.search (comparing, rules) };

    fn eq(&self, other: &AgendaEntry) -> bool {
        self.order(other).is_eq()
    }
}

impl Eq for AgendaEntry {
    ghost laws = { Prim.search (comparing, rules) };
}

impl PartialOrd for AgendaEntry {
    ghost partial_cmp = { as_partial_cmp spec.by_rank };

    ghost laws = { partial_order_from_own_ties (Prim.search (comparing, rules))
        (Prim.search (comparing, rules)) };

    fn partial_cmp(&self, other: &AgendaEntry) -> Option<Ordering> {
        Some(self.cmp(other))
    }
}

// The one that comes first is the greatest, as a heap has it.
impl Ord for AgendaEntry {
    ghost cmp = { spec.by_rank };

    ghost total = { Prim.search (comparing, rules) };

    ghost matches_partial_cmp = { Prim.search (comparing, rules) };

    ghost matches_eq = { Prim.search (comparing, rules) };

    fn cmp(&self, other: &AgendaEntry) -> Ordering {
        other.order(self)
    }
}

/// Whether an entry's moment lies before a time; without one, always.
fn is_before(entry: &AgendaEntry, before: Option<u64>) -> bool
    ensures { result ≡ spec.is_before before entry.now }
{
    match before {
        None => true,
        Some(time) => entry.moment < time,
    }
}

/// What is to be told. What is known of it is a list, in any order.
#[derive(Drop)]
pub(crate) struct Agenda {
    heap: BinaryHeap<AgendaEntry>,
}

impl Model for Agenda {
    ghost use Rattle.std.specs.Prelude.{List};
    ghost use Rattle.std.specs.BinaryHeap.{IsHeap, heap_items};
    ghost use Rattle.afdx_command_conform.specs.Awaited.{AreKeys, by_rank};
    ghost use Rattle.afdx_command_conform.specs.declared.agenda.AgendaEntry.{AgendaEntry as Awaited};

    ghost Value = { List Awaited };

    ghost view = { λ agenda. heap_items agenda.heap };

    ghost invariant = { λ agenda.
        IsHeap by_rank (heap_items agenda.heap) × AreKeys (heap_items agenda.heap) };
}

impl Agenda {
    /// Nothing is.
    pub(crate) fn new(alloc: Global) -> Agenda
        ensures { result ≡ [] }
    {
        Agenda {
            heap: BinaryHeap::new(alloc),
        }
    }

    /// At this moment something is to be told of this key, too.
    pub(crate) fn push(&mut self, moment: u64, key: Key) -> Result<(), AllocError>
        ensures { OnOk result (IsPermutation (awaited moment key ∷ self.old) self.new) }
    {
        are_small(key);
        self.heap.push(AgendaEntry { moment, key })?;
        Ok(())
    }

    /// Takes out what is to be told first, if its moment lies before that time; without a time
    /// whenever it is.
    pub(crate) fn take_before(&mut self, before: Option<u64>) -> Option<AgendaEntry>
        ensures first { IfSome result (λ x. All (λ y. spec.rank_of x ≤ spec.rank_of y) self.new) }
        ensures in_time { IfSome result (IsBefore before) }
        ensures rest { IfSome result (λ x. IsPermutation self.old (x ∷ self.new)) }
        ensures fewer { IfSome result (λ x. length self.new < length self.old) }
        ensures keys { AreKeys self.old }
        ensures none { IfNone result (AreNotBefore before self.old) }
        ensures same { IfNone result (self.new ≡ self.old) }
    {
        let Some(first) = self.heap.peek() else {
            return None;
        };
        if is_before(first, before) {
            self.heap.pop()
        } else {
            None
        }
    }
}
