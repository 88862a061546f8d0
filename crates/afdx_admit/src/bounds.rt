//! The bounds of an output port.

ghost use Rattle.std.specs.Prelude.{◌≡◌, ◌<◌, length, IfSome, is_some, Some, None};
ghost use Rattle.afdx_config.specs.Reading.{system_at_port};
ghost use Rattle.afdx_admit.specs.Bounds.{IsBounds, AreBoundsTo};
ghost use Rattle.afdx_admit.specs.Lines.{high_bound_at, low_bound_at, buffer_need_at};

use crate::sums::sums_to;
use afdx_config::{SystemId, Tables};

/// What is known of an output port of the switch, rounded up.
#[derive(Clone, Copy, Debug)]
pub struct PortBounds {
    /// The longest that a high frame takes, in ns: all high links at once, behind the longest low
    /// frame.
    pub high: u64,
    /// The longest that a low frame takes, in ns: all links at once, on what the high links leave
    /// of the line. None where they leave nothing.
    pub low: Option<u64>,
    /// The most bytes that wait: all links at once.
    pub buffer: u64,
}

/// The bounds of the output port to a system, whose links are summed once.
pub fn bounds_to(tables: &Tables, system: SystemId) -> PortBounds
    requires { system.0 < length tables.now.systems }
    ensures bounds { AreBoundsTo tables.now system.0 result }
{
    let sums = sums_to(tables, system);
    PortBounds {
        high: sums.high_bound(),
        low: sums.low_bound(),
        buffer: sums.buffer_need(),
    }
}

/// The bounds of a port of the switch, if a system is there. The links are summed once, where
/// `high_bound`, `low_bound` and `buffer_need` do so each.
pub fn bounds_of(tables: &Tables, port: u8) -> Option<PortBounds>
    ensures known { is_some result ≡ is_some (system_at_port tables.now.systems port) }
    ensures bounds { IfSome result (IsBounds tables.now port) }
{
    match tables.system_at(port) {
        Some(system) => {
            let bounds = bounds_to(tables, system);
            Some(bounds)
        }
        None => None,
    }
}

/// The bounds of any port: where no system is, nothing waits.
fn bounds_at(tables: &Tables, port: u8) -> PortBounds
    ensures { IsBounds tables.now port result }
{
    match bounds_of(tables, port) {
        Some(bounds) => bounds,
        None => PortBounds {
            high: 0,
            low: Some(0),
            buffer: 0,
        },
    }
}

/// The longest that a high frame takes through this output port of the switch, in ns, rounded up:
/// all high links at once, behind the longest low frame. 0 at a port without a system.
pub fn high_bound(tables: &Tables, port: u8) -> u64
    ensures bound { result ≡ high_bound_at tables.now port }
    ensures no_system { system_at_port tables.now.systems port ≡ None → result ≡ 0 }
{
    bounds_at(tables, port).high
}

/// The longest that a low frame takes through this output port of the switch, in ns, rounded up:
/// all links at once, on what the high links leave of the line. None where they leave nothing;
/// 0 at a port without a system.
pub fn low_bound(tables: &Tables, port: u8) -> Option<u64>
    ensures bound { result ≡ low_bound_at tables.now port }
    ensures no_system { system_at_port tables.now.systems port ≡ None → result ≡ Some 0 }
{
    bounds_at(tables, port).low
}

/// The most bytes that wait at this output port of the switch, rounded up: all links at once. 0 at
/// a port without a system.
pub fn buffer_need(tables: &Tables, port: u8) -> u64
    ensures need { result ≡ buffer_need_at tables.now port }
    ensures no_system { system_at_port tables.now.systems port ≡ None → result ≡ 0 }
{
    bounds_at(tables, port).buffer
}
