//! Which of several switches has the first turn: each has a key, of which the least is that of the
//! turn that goes first.

ghost use Rattle.std.specs.Prelude.{◌≡◌, ℕ, ◌<◌, ◌≤◌, List, Some, length, slice_get};
ghost use Rattle.afdx_network.specs.Order.{side_number};
ghost use Rattle.afdx_network.specs.declared.network.Network.{Network as At};
ghost use Rattle.afdx_cascade.specs.Keys.{AreKeys, AreOthersSame, IsKey, IsLeast};
ghost use Rattle.afdx_cascade.specs.Scan.{IsFirstFrom, switches_most};

use afdx_config::SwitchId;
use afdx_frame::Side;
use afdx_network::Network;

/// How many numbers a key has room for, more than a side has switches.
const KEY_SWITCHES: u64 = 32;

/// How many numbers are compared at a time.
const GROUP: usize = 4;

/// The first turn of several switches of both sides: where it stands in the order of turns, and its
/// switch and side.
#[derive(Clone, Copy, Debug)]
pub(crate) struct FirstTurn {
    pub order: u64,
    pub switch: SwitchId,
    pub side: Side,
}

/// The number of a side in the order of turns.
fn number_of(side: Side) -> u64
    ensures { result ≡ side_number side }
{
    match side {
        Side::A => 0,
        Side::B => 1,
    }
}

/// The side of this number.
fn side_of(number: u64) -> Side
    requires { number < 2 }
    ensures { side_number result ≡ number }
{
    if number == 0 { Side::A } else { Side::B }
}

/// The key of a switch: where its first turn stands in the order of turns, below that the turn's
/// side, and below that the switch's place. So the least key of several switches is that of
/// the turn that goes first: at one place by side, then by switch.
pub(crate) fn key_of(networks: &[Network], switch: SwitchId) -> u64
    requires { switch.0 < length networks.now }
    ensures { (n : At) → slice_get networks.now switch.0 ≡ Some n → IsKey switch.0 n result }
{
    let place = switch.index();
    let (order, side) = networks[place].order();
    2 * KEY_SWITCHES * order.number() + KEY_SWITCHES * number_of(side) + u64::from(switch.0)
}

/// The least of some numbers, of which four are compared at a time: that takes fewer instructions
/// than a loop over each.
pub(crate) fn least_of(numbers: &[u64]) -> u64
    requires { 1 ≤ length numbers.now }
    ensures { IsLeast numbers.now result }
{
    let mut least = numbers[0];
    let groups = numbers.len() / GROUP;
    for group in 0..groups {
        let at = GROUP * group;
        let low = numbers[at].min(numbers[at + 1]);
        let high = numbers[at + 2].min(numbers[at + 3]);
        let both = low.min(high);
        least = least.min(both);
    }
    for place in GROUP * groups..numbers.len() {
        least = least.min(numbers[place]);
    }
    least
}

/// Finds the key of a switch anew, which had an event; the others had none.
/// `least` was the least of all keys, and the result is the least of them now. All are compared
/// only if that was this switch's key, and it has grown.
pub(crate) fn renew(keys: &mut Vec<u64>, least: u64, networks: &[Network], switch: SwitchId) -> u64
    requires { switch.0 < length networks.now }
    ensures keys { (old : List At) → AreKeys old keys.old.items →
        AreOthersSame switch.0 old networks.now → length networks.now ≡ length old →
        AreKeys networks.now keys.new.items }
    ensures least { IsLeast keys.old.items least → IsLeast keys.new.items result }
{
    let place = switch.index();
    if place >= keys.len() {
        return least;
    }
    let before = keys[place];
    let key = key_of(networks, switch);
    keys[place] = key;
    if key <= least {
        return key;
    }
    if before == least {
        return least_of(keys);
    }
    least
}

/// The first turn of the switches of whose keys this is the least. If no switch has a turn to come,
/// its order is 2^52.
pub(crate) fn first_of(least: u64) -> FirstTurn
    ensures first { (networks : List At) (keys : List ℕ) → length networks ≤ switches_most →
        AreKeys networks keys → IsLeast keys least → IsFirstFrom 0 networks (Some result) }
    ensures within { (networks : List At) (keys : List ℕ) → length networks ≤ switches_most →
        AreKeys networks keys → IsLeast keys least → result.switch.0 < length networks }
{
    let side = side_of(least / KEY_SWITCHES % 2);
    FirstTurn {
        order: least / (2 * KEY_SWITCHES),
        switch: SwitchId((least % KEY_SWITCHES) as u8),
        side,
    }
}
