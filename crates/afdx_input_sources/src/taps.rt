//! At which ports of the switches frames were recorded.

ghost use Rattle.std.specs.Prelude.{◌≡◌, ◌||◌, ◌&&◌, ◌==◌, ℕ};
ghost use Rattle.afdx_frame.specs.BySide.{on};
ghost use Rattle.afdx_frame.specs.declared.link.Side.{Side as Network};
ghost use Rattle.afdx_input_lines.specs.declared.role.Role.{Role as Did};
ghost use Rattle.afdx_input_sources.specs.Places.{place_of};
ghost use Rattle.afdx_input_sources.specs.Tapping as spec;
ghost use Rattle.afdx_input_sources.specs.Tapping.{has_port, is_same_side, taps_in};

use crate::places::{Interfaces, TapPoint};
use afdx_frame::{BySide, Side};
use afdx_input_files::MOST_INTERFACES;
use afdx_input_lines::Role;

/// How many numbers a port may have, where no limit of them is known.
const PORTS: usize = 256;

/// Ports of the switch of one side.
#[derive(Clone, Copy, Debug)]
struct TappedPorts {
    /// All are tapped.
    are_all: bool,
    /// Else these, by number.
    ports: [bool; PORTS],
}

/// All ports of both sides, or none.
fn all_or_none(are_all: bool) -> BySide<TappedPorts>
    ensures { (side : Network) (port : ℕ) → has_port (on side result) port ≡ are_all }
{
    let ports = TappedPorts {
        are_all,
        ports: [false; PORTS],
    };
    BySide { a: ports, b: ports }
}

/// Taps all ports of a side.
fn tap_side(tapped: &mut BySide<TappedPorts>, side: Side)
    ensures { (at : Network) (port : ℕ) → has_port (on at tapped.new) port
        ≡ (has_port (on at tapped.old) port || is_same_side side at) }
{
    match side {
        Side::A => tapped.a.are_all = true,
        Side::B => tapped.b.are_all = true,
    }
}

/// Taps a port of a side.
fn tap_port(tapped: &mut BySide<TappedPorts>, side: Side, number: u8)
    ensures { (at : Network) (port : ℕ) → has_port (on at tapped.new) port
        ≡ (has_port (on at tapped.old) port || (is_same_side side at && port == number)) }
{
    let place = usize::from(number);
    match side {
        Side::A => tapped.a.ports[place] = true,
        Side::B => tapped.b.ports[place] = true,
    }
}

/// Whether a port of a side is tapped.
fn is_tapped_on(tapped: &BySide<TappedPorts>, side: Side, port: u8) -> bool
    ensures { result ≡ has_port (on side tapped.now) port }
{
    let ports = tapped.get(side);
    ports.are_all || ports.ports[usize::from(port)]
}

/// The ports at which frames were recorded: input ports, of what came in, and output ports, of what
/// left.
#[derive(Clone, Copy, Debug)]
pub struct Taps {
    came: BySide<TappedPorts>,
    left: BySide<TappedPorts>,
}

impl Taps {
    /// All ports.
    pub fn all() -> Taps
        ensures { taps_in result ≡ spec.all_taps }
    {
        Taps {
            came: all_or_none(true),
            left: all_or_none(true),
        }
    }

    /// None.
    pub fn none() -> Taps
        ensures { taps_in result ≡ spec.no_taps }
    {
        Taps {
            came: all_or_none(false),
            left: all_or_none(false),
        }
    }

    /// Whether this port of a side is one of them: an input port, of what came in, or an output
    /// port, of what left. In constant time.
    pub fn is_tapped(&self, role: Role, side: Side, port: u8) -> bool
        ensures { result ≡ taps_in self.now role side port }
    {
        match role {
            Role::Came => is_tapped_on(&self.came, side, port),
            Role::Left => is_tapped_on(&self.left, side, port),
        }
    }

    /// Adds those of an interface with this place.
    fn add(&mut self, place: TapPoint)
        ensures { (role : Did) (side : Network) (port : ℕ) → taps_in self.new role side port
            ≡ (taps_in self.old role side port || spec.taps_at place role side port) }
    {
        match place {
            TapPoint::OnSide(side) => tap_side(&mut self.came, side),
            TapPoint::AtPort(side, port) => tap_port(&mut self.came, side, port),
            TapPoint::Left(side, port) => tap_port(&mut self.left, side, port),
            TapPoint::LeftOut | TapPoint::AtNamed(_, _, _) | TapPoint::AtSwitch(_, _, _) => {}
        }
    }

    /// Adds those of all interfaces of a recording.
    pub fn add_all(&mut self, interfaces: &Interfaces)
        ensures { taps_in self.new
            ≡ spec.taps_of_both (taps_in self.old) (spec.taps_of (place_of interfaces.now)) }
    {
        for interface in 0..MOST_INTERFACES {
            if let Some(place) = interfaces.place(interface as u16) {
                self.add(place);
            }
        }
    }
}
