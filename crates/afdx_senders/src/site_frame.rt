//! A frame that came at a port of a switch.

ghost use Rattle.std.specs.Prelude.{◌≡◌, ◌≤◌};
ghost use Rattle.afdx_frame.specs.Layout.{link_named_by};
ghost use Rattle.afdx_frame.specs.Parts.{bytes_of};
ghost use Rattle.afdx_frame.specs.Times.{latest_listed};

use afdx_frame::{Checked, Side, VlId};

/// A frame that came at a port of a switch: the number of its line, its time in ns, side and port,
/// the link that it names, and its bytes.
#[derive(Clone, Copy, Debug)]
pub struct SiteFrame<'a> {
    pub line: u64,
    pub time: u64,
    pub side: Side,
    pub port: u8,
    pub vl: Option<VlId>,
    pub frame: Checked<'a>,
    pub ghost listed: { time ≤ latest_listed },
    pub ghost named: { vl ≡ link_named_by (bytes_of frame) },
}
