//! The states of a stream: the explanations so far.

ghost use Rattle.std.specs.Prelude.{◌≡◌, ◌≤◌, ◌<◌, ◌+◌, ◌-◌, ◌++◌, ℕ, List, [], ◌∷◌};
ghost use Rattle.std.specs.Prelude.{map, drop, take, length, All, IfOk, OnOk, IfSome};
ghost use Rattle.std.specs.List.{AllByRecursion, list_any};
ghost use Rattle.std.specs.Option.{option_to_list};
ghost use Rattle.afdx_police.specs.Arrival.{Arrival};
ghost use Rattle.afdx_conform.specs.Accounts.{AreRates, AreLevels, AreNear};
ghost use Rattle.afdx_frame.specs.Regulation.{Regulation};
ghost use Rattle.afdx_conform.specs.Leeway.{Leeway as By};
ghost use Rattle.afdx_conform.specs.declared.levels.Rates.{Rates};
ghost use Rattle.afdx_conform.specs.Explanations.{link, charge as charge_of, last_time, levels_then};
ghost use Rattle.afdx_conform.specs.Findings.{thinned_onto};
ghost use Rattle.afdx_conform.specs.HeldStates.{IsNext, IsSmall, IsWithin, IsCaseWithin};
ghost use Rattle.afdx_conform.specs.HeldStates.{AreClosed, AreFront, state_of};
ghost use Rattle.afdx_conform.specs.HeldStates.{states_if_accepted, states_if_refused};
ghost use Rattle.afdx_conform.specs.HeldStates.{outdoes, kept_with};
ghost use Rattle.afdx_conform.specs.Ranges.{most_charge, most_held};
ghost use Rattle.afdx_conform.specs.States.{Event, Came, Closing, arrivals_came, accepted_states};
ghost use Rattle.afdx_conform.specs.States.{states_at, led_by, kept, are_behind};
ghost use Rattle.afdx_conform.specs.Streams.{Gone, Terms};
ghost use Rattle.afdx_conform.specs.Thinned.{AreEnough, AreKept};

use crate::forgetting::forget_first;
use crate::levels::{Levels, Rates};
use std::alloc::{AllocError, Global};

/// So many states are held against each other in turn.
const FEW_STATES: usize = 16;

/// What stands next in a state for an arrival that is accepted.
#[derive(Clone, Copy, Debug, PartialEq, Eq)]
pub(crate) enum NextFrame {
    /// A frame that may be what the switch made of it.
    Fits,
    /// Another frame.
    Other,
    /// No frame, and what the switch made of it may have left unseen.
    Open,
    /// No frame, and it would have been seen.
    Over,
}

/// A state: how many frames are explained, the account's levels at the last arrival, how many
/// accepted arrivals wait for a frame.
#[derive(Clone, Copy, Debug, PartialEq, Eq)]
pub(crate) struct StreamState {
    pub passed: usize,
    pub levels: Levels,
    pub waiting: u64,
}

impl StreamState {
    /// Whether it allows all that another state does, with no more arrivals that wait.
    #[tactic(auto, unfolding(crate::specs::HeldStates::outdoes))]
    fn outdoes(&self, other: &StreamState) -> bool
        ensures { result ≡ outdoes self.now other.now }
    {
        self.passed == other.passed
            && self.levels.lo <= other.levels.lo
            && other.levels.hi <= self.levels.hi
            && self.waiting <= other.waiting
    }

    /// The state once an arrival is accepted, which leaves these levels, if it can be.
    fn accepted(self, levels: Levels, next: NextFrame) -> Option<StreamState>
        requires passed { self.passed < most_held }
        requires waiting { self.waiting < most_held }
        ensures defined { (z : Terms) (x : Arrival) (ys : List Gone) →
            IsNext z x (drop self.passed ys) next →
            accepted_states z x levels self.waiting (drop self.passed ys)
            ≡ map (state_of ys) (option_to_list result) }
        ensures levels { IfSome result (λ h. h.levels ≡ levels) }
        ensures waiting { IfSome result (λ h. h.waiting ≤ self.waiting + 1) }
        ensures passed { (frames : ℕ) → self.passed ≤ frames →
            (next ≡ NextFrame.Fits → self.passed < frames) →
            IfSome result (λ h. h.passed ≤ frames) }
    {
        match next {
            NextFrame::Fits => Some(StreamState {
                passed: self.passed + 1,
                levels,
                waiting: self.waiting,
            }),
            NextFrame::Open => Some(StreamState {
                passed: self.passed,
                levels,
                waiting: self.waiting + 1,
            }),
            NextFrame::Other | NextFrame::Over => None,
        }
    }

    /// The state once an arrival of this charge, in bytes, is accepted, if it may have room.
    /// `levels` are those when it comes.
    fn if_accepted(
        self,
        rates: &Rates,
        levels: Levels,
        charge: u64,
        next: NextFrame,
    ) -> Option<StreamState>
        requires passed { self.passed < most_held }
        requires waiting { self.waiting < most_held }
        requires cost { charge ≤ most_charge }
        requires bounded { AreLevels rates.now levels }
        ensures defined { (z : Terms) (x : Arrival) (ys : List Gone) →
            AreRates (link z) z.by rates.now →
            charge ≡ charge_of z x →
            IsNext z x (drop self.passed ys) next →
            states_if_accepted z x levels self.waiting (drop self.passed ys)
            ≡ map (state_of ys) (option_to_list result) }
        ensures within { (frames count : ℕ) →
            self.passed ≤ frames → self.waiting ≤ count → AreNear rates.now levels →
            (next ≡ NextFrame.Fits → self.passed < frames) →
            IfSome result (λ h. IsWithin rates.now frames (count + 1) h) }
    {
        if rates.may_pass(levels, charge) {
            self.accepted(rates.charged(levels, charge), next)
        } else {
            None
        }
    }

    /// The state once an arrival of this charge is refused, if it may have had no room.
    fn if_refused(self, rates: &Rates, levels: Levels, charge: u64) -> Option<StreamState>
        requires cost { charge ≤ most_charge }
        requires some { 0 < charge }
        requires bounded { AreLevels rates.now levels }
        ensures defined { (z : Terms) (x : Arrival) (ys : List Gone) →
            AreRates (link z) z.by rates.now →
            charge ≡ charge_of z x →
            states_if_refused z x levels self.waiting (drop self.passed ys)
            ≡ map (state_of ys) (option_to_list result) }
        ensures within { (frames count : ℕ) →
            self.passed ≤ frames → self.waiting ≤ count → AreNear rates.now levels →
            IfSome result (λ h. IsWithin rates.now frames (count + 1) h) }
    {
        if rates.has_to_pass(levels, charge) {
            None
        } else {
            Some(StreamState {
                passed: self.passed,
                levels: rates.refused(levels, charge),
                waiting: self.waiting,
            })
        }
    }

    /// The states to which an arrival of this charge leads: accepted, and refused.
    pub fn lead(
        self,
        rates: &Rates,
        levels: Levels,
        charge: u64,
        next: NextFrame,
    ) -> (Option<StreamState>, Option<StreamState>)
        requires passed { self.passed < most_held }
        requires waiting { self.waiting < most_held }
        requires cost { charge ≤ most_charge }
        requires some { 0 < charge }
        requires bounded { AreLevels rates.now levels }
        ensures defined { (z : Terms) (x : Arrival) (ys : List Gone) →
            AreRates (link z) z.by rates.now →
            charge ≡ charge_of z x →
            IsNext z x (drop self.passed ys) next →
            states_at z x levels (state_of ys self)
            ≡ map (state_of ys) (option_to_list result.0 ++ option_to_list result.1) }
        ensures within { (frames count : ℕ) →
            self.passed ≤ frames → self.waiting ≤ count → AreNear rates.now levels →
            (next ≡ NextFrame.Fits → self.passed < frames) →
            All (λ h. IsWithin rates.now frames (count + 1) h)
            (option_to_list result.0 ++ option_to_list result.1) }
    {
        (
            self.if_accepted(rates, levels, charge, next),
            self.if_refused(rates, levels, charge),
        )
    }
}

/// A state, and what stands next in it.
#[derive(Clone, Copy, Debug, PartialEq, Eq)]
pub(crate) struct Case {
    pub held: StreamState,
    pub next: NextFrame,
}

/// Puts a state behind others, if there is one.
fn push_some(out: &mut Vec<StreamState>, held: Option<StreamState>) -> Result<(), AllocError>
    ensures { OnOk result (out.new.items ≡ out.old.items ++ option_to_list held) }
{
    if let Some(held) = held {
        out.push(held)?;
    }
    Ok(())
}

/// All states to which an arrival of this charge, in bytes, leads that comes so many ns after the
/// one before. Fails only out of memory.
pub(crate) fn lead_all(
    alloc: Global,
    rates: &Rates,
    cases: &[Case],
    ns: u64,
    charge: u64,
) -> Result<Vec<StreamState>, AllocError>
    requires cost { charge ≤ most_charge }
    requires some { 0 < charge }
    requires small { All (λ c. IsSmall rates.now c.held) cases.now }
    ensures defined { (z : Terms) (x : Arrival) (ys : List Gone) (last : ℕ) →
        AreRates (link z) z.by rates.now →
        charge ≡ charge_of z x →
        ns ≡ x.time - last →
        All (λ c. IsNext z x (drop c.held.passed ys) c.next) cases.now →
        IfOk result (λ out. map (state_of ys) out.items
        ≡ led_by (λ s. states_at z x (levels_then z s.levels last x) s)
        (map (λ c. state_of ys c.held) cases.now)) }
    ensures within { (link : Regulation) (by : By) (frames count : ℕ) →
        AreRates link by rates.now →
        All (λ c. IsCaseWithin rates.now frames count c) cases.now →
        IfOk result (λ out. All (λ h. IsWithin rates.now frames (count + 1) h) out.items) }
{
    let mut out = Vec::new(alloc);
    for case in cases {
        let levels = rates.later(case.held.levels, ns);
        let (accepted, refused) = case.held.lead(rates, levels, charge, case.next);
        push_some(&mut out, accepted)?;
        push_some(&mut out, refused)?;
    }
    Ok(out)
}

/// Closes the first `passed` frames: leaves the states in which so many, or more, are explained.
pub(crate) fn close(held: &mut Vec<StreamState>, passed: usize)
    ensures left { (ys : List Gone) (time : ℕ) → AreClosed time passed ys →
        map (state_of ys) held.new.items
        ≡ kept (λ s. are_behind time s.rest) (map (state_of ys) held.old.items) }
    ensures kept { (z : Terms) (ys : List Gone) (before : List Event) (time : ℕ) →
        AreClosed time passed ys →
        AreKept z ys before (map (state_of ys) held.old.items) →
        AreKept z ys (Closing time ∷ before) (map (state_of ys) held.new.items) }
    ensures within { (rates : Rates) (frames count : ℕ) →
        All (λ h. IsWithin rates frames count h) held.old.items →
        All (λ h. IsWithin rates frames count h) held.new.items }
{
    held.retain(|state| passed <= state.passed);
}

/// Whether one of these outdoes a state.
fn is_outdone(held: &[StreamState], state: StreamState) -> bool
    ensures { result ≡ list_any (λ x. outdoes x state) held.now }
{
    held.iter().any(|one| one.outdoes(&state))
}

/// Keeps one more where none outdoes it, in place of those that it outdoes.
fn keep(held: &mut Vec<StreamState>, state: StreamState) -> Result<(), AllocError>
    ensures { OnOk result (held.new.items ≡ kept_with state held.old.items) }
{
    if is_outdone(held.as_slice(), state) {
        return Ok(());
    }
    held.retain(|one| !state.outdoes(one));
    held.push(state)?;
    Ok(())
}

/// Of these states those that no other outdoes, each held against all that are kept. Fails only out
/// of memory.
fn thinned_plainly(alloc: Global, held: &[StreamState]) -> Result<Vec<StreamState>, AllocError>
    ensures enough { (ys : List Gone) → IfOk result (λ out.
        AreEnough (map (state_of ys) held.now) (map (state_of ys) out.items)) }
    ensures defined { (ys : List Gone) → All (λ h. h.passed ≤ length ys) held.now →
        IfOk result (λ out.
        map (state_of ys) out.items ≡ thinned_onto [] (map (state_of ys) held.now)) }
    ensures front { IfOk result (λ out. AreFront out.items) }
    ensures within { (rates : Rates) (frames count : ℕ) →
        All (λ h. IsWithin rates frames count h) held.now →
        IfOk result (λ out. All (λ h. IsWithin rates frames count h) out.items) }
{
    let mut out = Vec::new(alloc);
    for state in held {
        keep(&mut out, *state)?;
    }
    Ok(out)
}

/// How many of the first of these states have fewer frames explained than `bound`.
fn count_below(held: &[StreamState], bound: usize) -> usize
    ensures within { result ≤ length held.now }
    ensures below { AllByRecursion (λ h. h.passed < bound) (take result held.now) }
{
    let mut count = 0;
    while count < held.len() && held[count].passed < bound {
        count += 1;
    }
    count
}

/// Sets the first of `few` aside, behind `done`, in which fewer frames are explained than `bound`,
/// once they are half of `few`. Fails only out of memory.
fn set_aside(
    done: &mut Vec<StreamState>,
    few: &mut Vec<StreamState>,
    bound: usize,
) -> Result<(), AllocError>
    ensures same { OnOk result
        (done.new.items ++ few.new.items ≡ done.old.items ++ few.old.items) }
    ensures below { AllByRecursion (λ h. h.passed < bound) done.old.items →
        OnOk result (AllByRecursion (λ h. h.passed < bound) done.new.items) }
{
    let count = count_below(few.as_slice(), bound);
    if count == 0 || count < few.len() - count {
        return Ok(());
    }
    done.extend_from_slice(&few[..count])?;
    forget_first(few, count);
    Ok(())
}

/// The least number of frames explained in a state and in those behind it, the first state's last.
fn least_ahead(alloc: Global, held: &[StreamState]) -> Result<Vec<usize>, AllocError> {
    let mut out = Vec::new(alloc);
    let mut least = usize::MAX;
    for place in 0..held.len() {
        least = least.min(held[held.len() - 1 - place].passed);
        out.push(least)?;
    }
    Ok(out)
}

/// Of these states those that no other outdoes, each held against those that are kept and don't
/// have fewer frames explained than all that are to come. Fails only out of memory.
fn thinned_in_order(alloc: Global, held: &[StreamState]) -> Result<Vec<StreamState>, AllocError>
    ensures enough { (ys : List Gone) → IfOk result (λ out.
        AreEnough (map (state_of ys) held.now) (map (state_of ys) out.items)) }
    ensures defined { (ys : List Gone) → All (λ h. h.passed ≤ length ys) held.now →
        IfOk result (λ out.
        map (state_of ys) out.items ≡ thinned_onto [] (map (state_of ys) held.now)) }
    ensures front { IfOk result (λ out. AreFront out.items) }
    ensures within { (rates : Rates) (frames count : ℕ) →
        All (λ h. IsWithin rates frames count h) held.now →
        IfOk result (λ out. All (λ h. IsWithin rates frames count h) out.items) }
{
    let mut ahead = least_ahead(alloc, held)?;
    let mut done = Vec::new(alloc);
    let mut few = Vec::new(alloc);
    let mut top = 0;
    for state in held {
        let least = ahead.pop().unwrap_or(0);
        if least < top || state.passed < least {
            return thinned_plainly(alloc, held);
        }
        top = least;
        set_aside(&mut done, &mut few, least)?;
        keep(&mut few, *state)?;
    }
    done.extend_from_slice(few.as_slice())?;
    Ok(done)
}

/// Of these states those that no other outdoes. Fails only out of memory.
pub(crate) fn thinned(alloc: Global, held: &[StreamState]) -> Result<Vec<StreamState>, AllocError>
    ensures enough { (ys : List Gone) → IfOk result (λ out.
        AreEnough (map (state_of ys) held.now) (map (state_of ys) out.items)) }
    ensures defined { (ys : List Gone) → All (λ h. h.passed ≤ length ys) held.now →
        IfOk result (λ out.
        map (state_of ys) out.items ≡ thinned_onto [] (map (state_of ys) held.now)) }
    ensures front { IfOk result (λ out. AreFront out.items) }
    ensures within { (rates : Rates) (frames count : ℕ) →
        All (λ h. IsWithin rates frames count h) held.now →
        IfOk result (λ out. All (λ h. IsWithin rates frames count h) out.items) }
{
    if held.len() <= FEW_STATES {
        thinned_plainly(alloc, held)
    } else {
        thinned_in_order(alloc, held)
    }
}
