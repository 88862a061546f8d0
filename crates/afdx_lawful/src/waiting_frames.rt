//! The frames of a side that wait for their copies.

ghost use Rattle.std.specs.Prelude.{◌≡◌, ◌≤◌, ◌<◌, ◌^◌, List, [], ◌∷◌, ◌++◌, drop, find, length};
ghost use Rattle.std.specs.Prelude.{IfNone, IfSome, MatchOption, OnErr, OnOk, None, option_map, position};
ghost use Rattle.std.specs.List.{position_or_len};
ghost use Rattle.std.specs.Option.{is_some};
ghost use Rattle.afdx_frame.specs.Times.{latest_listed};
ghost use Rattle.afdx_frame.specs.declared.link.Side.{Side};
ghost use Rattle.afdx_lawful.specs.Courses.{oldest};
ghost use Rattle.afdx_lawful.specs.Partners.{without_first};
ghost use Rattle.afdx_lawful.specs.Rings.{all_as, has_number, holds_number};

use crate::waits::Waits;
use std::alloc::{AllocError, Global};
use std::marker::Model;

/// How many sequence numbers there are.
const NUMBERS: usize = 256;

/// So many empty slots are let go of at once, at least.
const LEAST_GONE: usize = 256;

/// The frames of a side that wait for their copies, the oldest first.
///
/// One that waits no longer leaves its slot empty until those before it wait no longer, either. Of
/// each number it is kept before which place none waits. So what passes over a slot is done once
/// for each number at most.
#[derive(Debug, Drop)]
pub(crate) struct WaitingFrames {
    slots: Vec<Option<Waits>>,
    first: usize,
    from: [usize; NUMBERS],
    count: usize,
}

impl Model for WaitingFrames {
    ghost use Rattle.std.specs.Prelude.{List};
    ghost use Rattle.afdx_lawful.specs.Rings.{AreWaiting, held_in};
    ghost use Rattle.afdx_lawful.specs.declared.waits.Waits.{Waits as One};

    ghost Value = { List One };

    ghost view = { λ w. held_in w.slots.items };

    ghost invariant = { λ w. AreWaiting w.slots.items w.first w.from w.count };
}

/// Whether a slot holds a frame of this number.
fn is_of(slot: &Option<Waits>, number: u8) -> bool
    ensures { result ≡ holds_number number slot.now }
{
    match slot {
        Some(waits) => waits.number == number,
        None => false,
    }
}

/// The slots from this place on.
fn slots_from(slots: &[Option<Waits>], from: usize) -> &[Option<Waits>]
    requires { from ≤ length slots.now }
    ensures { result.now ≡ drop from slots.entry.now }
{
    &slots[from..]
}

/// How many slots stand before the first that holds a frame of this number.
fn steps_to(slots: &[Option<Waits>], number: u8) -> Option<usize>
    ensures { result ≡ position (holds_number number) slots.now }
{
    slots.iter().position(|slot| is_of(slot, number))
}

/// How many slots stand before the first that holds a frame.
fn steps_to_held(slots: &[Option<Waits>]) -> Option<usize>
    ensures { result ≡ position is_some slots.now }
{
    slots.iter().position(|slot| slot.is_some())
}

/// The first place at which a frame of this number waits; none does before the given one. Behind
/// all places: none does.
fn place_of(slots: &[Option<Waits>], from: usize, number: u8) -> usize
    requires within { from ≤ length slots.now }
    requires none_before { from ≤ position_or_len (holds_number number) slots.now }
    ensures { result ≡ position_or_len (holds_number number) slots.now }
{
    match steps_to(slots_from(slots, from), number) {
        Some(steps) => from + steps,
        None => slots.len(),
    }
}

/// The first place at which a frame waits; none does before the given one. Behind all places: none
/// does.
fn first_held(slots: &[Option<Waits>], from: usize) -> usize
    requires within { from ≤ length slots.now }
    requires none_before { from ≤ position_or_len is_some slots.now }
    ensures { result ≡ position_or_len is_some slots.now }
{
    match steps_to_held(slots_from(slots, from)) {
        Some(steps) => from + steps,
        None => slots.len(),
    }
}

/// Lets go of so many slots.
fn let_go(slots: &mut Vec<Option<Waits>>, count: usize)
    requires { count ≤ length slots.old.items }
    ensures { slots.new.items ≡ drop count slots.old.items }
{
    let left = slots.len() - count;
    if left > 0 {
        slots.as_mut_slice().rotate_left(count);
    }
    slots.truncate(left);
}

impl WaitingFrames {
    /// None waits.
    pub fn new(alloc: Global) -> WaitingFrames
        ensures { result ≡ [] }
    {
        WaitingFrames {
            slots: Vec::new(alloc),
            first: 0,
            from: [0; NUMBERS],
            count: 0,
        }
    }

    /// How many wait.
    pub fn count(&self) -> usize
        ensures count { result ≡ length self.now }
        ensures few { result < 2 ^ 63 }
    {
        self.count
    }

    /// When, in ns, the oldest came.
    pub fn oldest(&self) -> Option<u64>
        ensures time { (side : Side) → result ≡ option_map (λ y. y.frame.time)
            (oldest (all_as side self.now)) }
        ensures listed { IfSome result (λ time. time ≤ latest_listed) }
    {
        if self.first >= self.slots.len() {
            return None;
        }
        match &self.slots[self.first] {
            Some(waits) => Some(waits.time),
            None => None,
        }
    }

    /// The empty slots before the oldest are let go of, if they are many, and half of all.
    fn shorten(&mut self)
        ensures { self.new ≡ self.old }
    {
        let gone = self.first;
        if gone < LEAST_GONE || gone < self.slots.len() - gone {
            return;
        }
        let_go(&mut self.slots, gone);
        self.first = 0;
        self.from = [0; NUMBERS];
    }

    /// One more waits. Fails only out of memory; then nothing has changed.
    pub fn push(&mut self, waits: Waits) -> Result<(), AllocError>
        ensures more { OnOk result (self.new ≡ self.old ++ waits ∷ []) }
        ensures refused { OnErr result (self.new ≡ self.old) }
    {
        self.shorten();
        self.slots.push(Some(waits))?;
        self.count += 1;
        Ok(())
    }

    /// Takes the oldest, if one waits.
    pub fn take_oldest(&mut self) -> Option<Waits>
        ensures { MatchOption result ((self.old ≡ []) × (self.new ≡ self.old))
            (λ waits. self.old ≡ waits ∷ self.new) }
    {
        let place = self.first;
        if place >= self.slots.len() {
            return None;
        }
        let taken = self.slots[place].take();
        self.first = first_held(self.slots.as_slice(), place);
        self.count -= 1;
        taken
    }

    /// Takes the oldest of this number, if one waits.
    pub fn take_of(&mut self, number: u8) -> Option<Waits>
        ensures taken { result ≡ find (has_number number) self.old }
        ensures rest { self.new ≡ without_first (has_number number) self.old }
        ensures none { IfNone result (self.new ≡ self.old) }
    {
        let known = self.from[number as usize].max(self.first);
        let place = place_of(self.slots.as_slice(), known, number);
        self.from[number as usize] = place;
        if place >= self.slots.len() {
            return None;
        }
        let taken = self.slots[place].take();
        self.first = first_held(self.slots.as_slice(), self.first);
        self.count -= 1;
        taken
    }
}
