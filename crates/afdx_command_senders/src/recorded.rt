//! At which input ports frames were recorded.

ghost use Rattle.std.specs.Prelude.{◌≡◌, ◌<◌, ℕ, length, get_or, false};
ghost use Rattle.afdx_input_lines.specs.declared.role.Role.TheVariants as role;
ghost use Rattle.afdx_input_sources.specs.Tapping.{taps_in};
ghost use Rattle.afdx_senders.specs.Sites.{recorded_in};
ghost use Rattle.afdx_command_senders.specs.Setting.{AreRecorded};

use afdx_frame::{BySide, Side};
use afdx_input_lines::Role;
use afdx_input_sources::Taps;
use afdx_senders::RecordedPorts;

/// How many numbers a port may have, where no limit of them is known.
const PORTS: usize = 256;

/// Of a side.
fn recorded_on(taps: &Taps, side: Side) -> [bool; PORTS]
    ensures { (port : ℕ) → port < 256 →
        get_or result port false ≡ taps_in taps.now role.Came side port }
{
    let mut ports = [false; PORTS];
    for port in 0..PORTS {
        ports[port] = taps.is_tapped(Role::Came, side, port as u8);
    }
    ports
}

/// The input ports at which frames were recorded.
pub(crate) fn recorded_ports(taps: &Taps) -> RecordedPorts
    ensures { AreRecorded (taps_in taps.now) (recorded_in result) }
{
    RecordedPorts {
        ports: BySide {
            a: recorded_on(taps, Side::A),
            b: recorded_on(taps, Side::B),
        },
    }
}
