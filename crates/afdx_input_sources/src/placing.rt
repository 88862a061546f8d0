//! The places that options say, at the switches that a configuration describes.

ghost use Rattle.std.specs.Prelude.{◌≡◌, ◌<◌, Bool, List, IfSome, length, map, option_map, string_bytes};
ghost use Rattle.std.specs.Prelude.{true, false};
ghost use Rattle.afdx_config.specs.Switches.{AreSwitches, NamedRows};
ghost use Rattle.afdx_config.specs.declared.describing.Described.{Described as Configuration};
ghost use Rattle.afdx_config.specs.declared.describing.Described.TheVariants as described;
ghost use Rattle.afdx_input_lines.specs.declared.frame_line.Heading.{Heading};
ghost use Rattle.afdx_input_sources.specs.Becoming.{options_of};
ghost use Rattle.afdx_input_sources.specs.Claims.{Ports, ports_of_several};
ghost use Rattle.afdx_input_sources.specs.Engine.{CanTell, Item};
ghost use Rattle.afdx_input_sources.specs.Entering.{IsEntered, IsEnteredInPair};
ghost use Rattle.afdx_input_sources.specs.PairOptions.{options_of_a, options_of_b};
ghost use Rattle.afdx_input_sources.specs.Placing as spec;
ghost use Rattle.afdx_input_sources.specs.Placing.{IsAtOpenPort, OptionsAreMisplaced, OptionsArePlaced};
ghost use Rattle.afdx_input_sources.specs.Placing.{PairIsMisplaced, PairIsPlaced};

use crate::becoming::RecordingOptions;
use crate::pair_options::PairOptions;
use crate::places::TapPoint;
use afdx_config::{Described, SwitchId, Switches};
use afdx_frame::Side;

/// Whether no cable is at this port of a switch, if it is said.
fn is_free(switches: &Switches, switch: SwitchId, port: Option<u8>) -> bool
    requires { switch.0 < length switches.now }
    ensures { result ≡ spec.is_free switches.now switch.0 port }
{
    match port {
        Some(port) => switches.far_end(switch, port).is_none(),
        None => true,
    }
}

/// A switch and, if it is said, a port of it, unless a cable is there.
fn at_switch(
    switches: &Switches,
    side: Side,
    port: Option<u8>,
    switch: SwitchId,
) -> Option<TapPoint>
    requires { switch.0 < length switches.now }
    ensures { result ≡ spec.at_switch switches.now side port switch.0 }
{
    if is_free(switches, switch, port) {
        Some(TapPoint::AtSwitch(side, switch.0, port))
    } else {
        None
    }
}

/// The switch whose name has this number.
fn switch_by(switches: &Switches, names: &[String], number: u16) -> Option<SwitchId>
    ensures place { option_map (λ k. k.0) result
        ≡ spec.switch_by switches.now (map string_bytes names.now) number }
    ensures known { IfSome result (λ k. k.0 < length switches.now) }
{
    let name = names.get(usize::from(number))?;
    switches.named(name.as_str())
}

/// A place at one of several switches, if it is one.
fn place_among(switches: &Switches, names: &[String], place: TapPoint) -> Option<TapPoint>
    ensures { result ≡ spec.place_among switches.now (map string_bytes names.now) place }
{
    match place {
        TapPoint::LeftOut | TapPoint::OnSide(_) => Some(place),
        TapPoint::AtPort(_, _) | TapPoint::Left(_, _) => None,
        TapPoint::AtNamed(side, number, port) => {
            let switch = switch_by(switches, names, number)?;
            at_switch(switches, side, port, switch)
        }
        TapPoint::AtSwitch(side, switch, port) => {
            if switch < switches.id_count() {
                at_switch(switches, side, port, SwitchId(switch))
            } else {
                None
            }
        }
    }
}

/// A place where there is one switch on a side, if it is one.
fn place_at_one(place: TapPoint) -> Option<TapPoint>
    ensures { result ≡ spec.place_at_one place }
{
    match place {
        TapPoint::LeftOut | TapPoint::OnSide(_) | TapPoint::AtPort(_, _) | TapPoint::Left(_, _) =>
            Some(place),
        TapPoint::AtNamed(_, _, _) | TapPoint::AtSwitch(_, _, _) => None,
    }
}

/// A place in a configuration, if it is one there.
pub(crate) fn place_in(described: &Described, names: &[String], place: TapPoint) -> Option<TapPoint>
    ensures { result ≡ spec.place_in described.now (map string_bytes names.now) place }
{
    match described {
        Described::One(_) => place_at_one(place),
        Described::Several(switches) => place_among(switches, names, place),
    }
}

/// Options that say where frames came in.
pub trait Placing {
    /// The places of the first are some in a configuration, and they are those of the second.
    ghost ArePlaced: { Configuration → Self → Self → Type 0 };

    /// One of them is none there.
    ghost AreNotPlaced: { Configuration → Self → Type 0 };

    /// What is read by them has to be a recording, whatever its first bytes are.
    ghost is_settled: { Self → Bool };

    /// An arrival of a recording came in as they say, and else these ports.
    ghost Enters: { Self → Ports → Item Heading → Type 0 };

    /// Places settle nothing else; and of several switches each arrival then came in at one of
    /// these, at a port where no cable is.
    fn places()
        ensures settled { (d : Configuration) (options placed : Self) →
            ArePlaced d options placed → is_settled placed ≡ is_settled options }
        ensures there { (switches : List NamedRows) (options placed : Self) →
            AreSwitches switches → ArePlaced (described.Several switches) options placed →
            CanTell (Enters placed (ports_of_several switches)) (IsAtOpenPort switches) };

    /// Puts each place where it is in a configuration. False: one is none there. Where there is one
    /// switch on a side, that is one with a name; where there are several, a port without a name, a
    /// name that no switch has, a port with a cable, or one where frames left.
    fn place_in(&mut self, described: &Described) -> bool
        ensures placed { result ≡ true → ArePlaced described.now self.old self.new }
        ensures misplaced { result ≡ false → AreNotPlaced described.now self.old };
}

impl Placing for RecordingOptions {
    ghost ArePlaced = { OptionsArePlaced };

    ghost AreNotPlaced = { OptionsAreMisplaced };

    ghost is_settled = { λ options. options.are_given };

    ghost Enters = { λ options. IsEntered (options_of options) };

    fn places() {}

    fn place_in(&mut self, described: &Described) -> bool {
        self.interfaces.place_in(described)
    }
}

impl Placing for PairOptions {
    ghost ArePlaced = { PairIsPlaced };

    ghost AreNotPlaced = { PairIsMisplaced };

    ghost is_settled = { λ options. true };

    ghost Enters = { λ options. IsEnteredInPair (options_of_a options) (options_of_b options) };

    fn places() {}

    fn place_in(&mut self, described: &Described) -> bool {
        self.interfaces.a.place_in(described) && self.interfaces.b.place_in(described)
    }
}
