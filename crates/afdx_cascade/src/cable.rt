//! The cables between switches, and the frames on them.

ghost use Rattle.std.specs.Prelude.{◌≡◌, ◌+◌, ◌*◌, ◌<◌, slice_get};
ghost use Rattle.afdx_cascade.specs.Scan.{switches_most};
ghost use Rattle.afdx_cascade.specs.Turning.{entry_in};

use afdx_config::{FarEnd, SwitchId};
use afdx_switch::Departure;

/// How many entries a switch has in a table of the ends of cables: for the numbers 0 to 24, of
/// which 1 to 24 are its ports.
pub(crate) const ENTRIES: usize = 25;

/// A frame on a cable, which ends at a port of this switch, with the switch that it left.
#[derive(Drop)]
pub(crate) struct InTransit {
    pub departure: Departure,
    pub switch: SwitchId,
    pub port: u8,
    pub from: SwitchId,
}

/// The other end of the cable at a port of a switch, if one is there.
pub(crate) fn far_end(ends: &[Option<FarEnd>], switch: SwitchId, port: u8) -> Option<FarEnd>
    requires { switch.0 < switches_most }
    ensures { result ≡ entry_in (slice_get ends.now (switch.0 * 25 + port)) }
{
    let first = switch.index() * ENTRIES;
    *ends.get(first + usize::from(port))?
}
