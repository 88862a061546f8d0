//! Which answers an arrival may have, by the levels of the states before it.

ghost use Rattle.std.specs.Prelude.{◌≡◌, ◌-◌, ℕ, List, map, All};
ghost use Rattle.std.specs.List.{list_any};
ghost use Rattle.afdx_conform.specs.Accounts.{AreRates, AreLevels};
ghost use Rattle.afdx_conform.specs.Explanations.{link};
ghost use Rattle.afdx_conform.specs.HeldStates.{state_of};
ghost use Rattle.afdx_conform.specs.Marks.{IsCharged, arrival_of};
ghost use Rattle.afdx_conform.specs.Streams.{Gone, Terms};
ghost use Rattle.afdx_conform.specs.Testing.{may_go, goes_either_way};

use crate::arrived::Arrived;
use crate::levels::Rates;
use crate::states::StreamState;

/// Whether the arrival may have had room in this state, so many ns after the one before.
fn may_go_from(rates: &Rates, state: StreamState, arrived: &Arrived, ns: u64) -> bool
    requires { AreLevels rates.now state.levels }
    ensures { (z : Terms) (ys : List Gone) (last : ℕ) →
        AreRates (link z) z.by rates.now → IsCharged z arrived.now →
        ns ≡ arrived.now.time - last →
        result ≡ may_go z last (arrival_of arrived.now) (state_of ys state) }
{
    let levels = rates.later(state.levels, ns);
    rates.may_pass(levels, arrived.charge)
}

/// Whether it may have had none, too.
fn goes_both_ways(rates: &Rates, state: StreamState, arrived: &Arrived, ns: u64) -> bool
    requires { AreLevels rates.now state.levels }
    ensures { (z : Terms) (ys : List Gone) (last : ℕ) →
        AreRates (link z) z.by rates.now → IsCharged z arrived.now →
        ns ≡ arrived.now.time - last →
        result ≡ goes_either_way z last (arrival_of arrived.now) (state_of ys state) }
{
    let levels = rates.later(state.levels, ns);
    if rates.may_pass(levels, arrived.charge) {
        !rates.has_to_pass(levels, arrived.charge)
    } else {
        false
    }
}

/// Whether the arrival may have had room in one of these states.
pub(crate) fn may_go_once(rates: &Rates, held: &[StreamState], arrived: &Arrived, ns: u64) -> bool
    requires { All (λ h. AreLevels rates.now h.levels) held.now }
    ensures { (z : Terms) (ys : List Gone) (last : ℕ) →
        AreRates (link z) z.by rates.now → IsCharged z arrived.now →
        ns ≡ arrived.now.time - last → result
        ≡ list_any (λ s. may_go z last (arrival_of arrived.now) s) (map (state_of ys) held.now) }
{
    for state in held {
        if may_go_from(rates, *state, arrived, ns) {
            return true;
        }
    }
    false
}

/// Whether in one of these states both answers were right.
pub(crate) fn is_uncertain(rates: &Rates, held: &[StreamState], arrived: &Arrived, ns: u64) -> bool
    requires { All (λ h. AreLevels rates.now h.levels) held.now }
    ensures { (z : Terms) (ys : List Gone) (last : ℕ) →
        AreRates (link z) z.by rates.now → IsCharged z arrived.now →
        ns ≡ arrived.now.time - last → result
        ≡ list_any (λ s. goes_either_way z last (arrival_of arrived.now) s)
        (map (state_of ys) held.now) }
{
    for state in held {
        if goes_both_ways(rates, *state, arrived, ns) {
            return true;
        }
    }
    false
}
