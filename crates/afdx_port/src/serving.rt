//! Which of a switch's ports is served first.

ghost use Rattle.std.specs.Prelude.{◌≡◌, ℕ, ◌<◌, ◌≤◌, List, length, slice_set};
ghost use Rattle.afdx_frame.specs.Ports.{last_port};
ghost use Rattle.afdx_port.specs.Keys.{key_of, AreRanked, IsLeastIn};

use crate::has_length::HasLength;
use crate::order::TurnOrder;
use crate::port::Port;
use afdx_frame::PORT_COUNT;

/// How many places a key has room for, more than there are ports.
const KEY_PLACES: u64 = 32;

/// The ports of a group.
const GROUP: usize = 4;

/// The groups.
const GROUPS: usize = PORT_COUNT / GROUP;

/// The places of all ports of a switch in the order in which they are served together, kept so that
/// the first of all is at hand.
///
/// A port's key is its order, and below it its place among the ports. So the least key is that of
/// the port whose turn goes first.
#[derive(Drop)]
pub struct Serving {
    keys: [u64; PORT_COUNT],
    /// The least key of each group.
    least: [u64; GROUPS],
    ghost ranked: { ∥ AreRanked keys least ∥₁ },
}

/// The least of the numbers from one place to before another.
#[inline(always)]
fn least_in(numbers: &[u64], from: usize, to: usize) -> u64
    requires some { from < to }
    requires within { to ≤ length numbers.now }
    ensures { IsLeastIn numbers.now from to result }
{
    let mut least = numbers[from];
    for place in from + 1..to {
        least = least.min(numbers[place]);
    }
    least
}

impl Serving {
    ghost use Rattle.afdx_port.specs.declared.port_state.PortState.{PortState};
    ghost use Rattle.afdx_port.specs.Ports.{AreServed, order_without_turn};
    ghost use Rattle.afdx_port.specs.Serving.{IsServing};

    /// The order in which a switch's ports are served as they are.
    pub fn of<T: HasLength>(ports: &[Port<T>]) -> Serving
        requires { length ports.now ≡ last_port }
        ensures { IsServing T.facts ports.now result }
    {
        let mut serving = Serving {
            keys: [0; PORT_COUNT],
            least: [0; GROUPS],
        };
        for place in 0..PORT_COUNT {
            serving.set(place, ports[place].order());
        }
        serving
    }

    /// From now on the port at this place has this order.
    #[inline(always)]
    fn set(&mut self, place: usize, order: TurnOrder)
        requires place { place < last_port }
        requires order { order.0 ≤ order_without_turn }
        ensures { self.new.keys ≡ slice_set self.old.keys place (key_of order.0 place) }
    {
        self.keys[place] = KEY_PLACES * order.0 + place as u64;
        let group = place / GROUP;
        self.least[group] = least_in(&self.keys, GROUP * group, GROUP * group + GROUP);
    }

    /// The port at this place has changed, and is now this one.
    #[inline]
    pub fn renew<T: HasLength>(&mut self, place: usize, port: &Port<T>)
        requires { place < last_port }
        ensures { (ports : List (PortState T)) → IsServing T.facts ports self.old →
            IsServing T.facts (slice_set ports place port.now) self.new }
    {
        self.set(place, port.order());
    }

    /// The port whose turn goes first if no frame is put before, as its place: by time, at one time
    /// slots before drops, then by place. The first port, if none has a turn to come.
    #[inline]
    pub fn first<T: HasLength>(&self) -> usize
        ensures { (ports : List (PortState T)) → IsServing T.facts ports self.now →
            AreServed T.facts ports result }
    {
        (least_in(&self.least, 0, GROUPS) % KEY_PLACES) as usize
    }
}
