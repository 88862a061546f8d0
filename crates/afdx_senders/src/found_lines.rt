//! What was found and isn't told yet.

ghost use Rattle.std.specs.Prelude.{◌≡◌, ◌≤◌, ◌<◌, ◌∷◌, [], All, IfNone, IfSome, OnErr, OnOk, length};
ghost use Rattle.std.specs.List.Sorted.{IsPermutation};
ghost use Rattle.afdx_senders.specs.Order as spec;
ghost use Rattle.afdx_senders.specs.Order.{AreNotBefore, IsBefore};

use crate::sender_line::{SenderLine, are_in_type};
use std::alloc::{AllocError, Global};
use std::collections::BinaryHeap;
use std::marker::Model;

/// Whether a moment lies before a time; without one, always.
pub(crate) fn is_before(moment: u64, before: Option<u64>) -> bool
    ensures { result ≡ spec.is_moment_before before moment }
{
    match before {
        None => true,
        Some(time) => moment < time,
    }
}

/// What was found of frames and isn't told yet. What is known of it is a list, in any order.
#[derive(Drop)]
pub struct FoundLines {
    heap: BinaryHeap<SenderLine>,
}

impl Model for FoundLines {
    ghost use Rattle.std.specs.Prelude.{List};
    ghost use Rattle.std.specs.BinaryHeap.{IsHeap, heap_items};
    ghost use Rattle.afdx_senders.specs.Order.{AreHeldLines, by_rank};
    ghost use Rattle.afdx_senders.specs.declared.sender_line.SenderLine.{SenderLine as Told};

    ghost Value = { List Told };

    ghost view = { λ found. heap_items found.heap };

    ghost invariant = { λ found.
        IsHeap by_rank (heap_items found.heap) × AreHeldLines (heap_items found.heap) };
}

impl FoundLines {
    /// Nothing is.
    pub fn new(alloc: Global) -> FoundLines
        ensures { result ≡ [] }
    {
        FoundLines {
            heap: BinaryHeap::new(alloc),
        }
    }

    /// This is to be told, too. Fails only out of memory; then nothing has changed.
    pub fn push(&mut self, line: SenderLine) -> Result<(), AllocError>
        ensures more { OnOk result (IsPermutation (line ∷ self.old) self.new) }
        ensures refused { OnErr result (self.new ≡ self.old) }
    {
        are_in_type(line);
        self.heap.push(line)?;
        Ok(())
    }

    /// Takes out what is to be told first, if its moment lies before that time; without a time
    /// whenever it is.
    pub fn take_before(&mut self, before: Option<u64>) -> Option<SenderLine>
        ensures first { IfSome result (λ x. All (λ y. spec.rank_of x ≤ spec.rank_of y) self.new) }
        ensures in_time { IfSome result (IsBefore before) }
        ensures numbers { IfSome result spec.AreInType }
        ensures rest { IfSome result (λ x. IsPermutation self.old (x ∷ self.new)) }
        ensures fewer { IfSome result (λ x. length self.new < length self.old) }
        ensures none { IfNone result (AreNotBefore before self.old) }
        ensures same { IfNone result (self.new ≡ self.old) }
    {
        let Some(first) = self.heap.peek() else {
            return None;
        };
        if is_before(first.moment, before) {
            self.heap.pop()
        } else {
            None
        }
    }
}
