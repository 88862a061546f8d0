//! The input ports at which frames were recorded.

ghost use Rattle.std.specs.Prelude.{◌≡◌};
ghost use Rattle.afdx_senders.specs.Sites.{recorded_at};

use afdx_frame::{BySide, Side};

/// How many numbers a port may have, where no limit of them is known.
const PORTS: usize = 256;

/// Of each side the input ports at which frames were recorded, by number.
#[derive(Clone, Copy, Debug)]
pub struct RecordedPorts {
    pub ports: BySide<[bool; PORTS]>,
}

impl RecordedPorts {
    /// Whether this port of a side is one of them.
    pub fn has(&self, side: Side, port: u8) -> bool
        ensures { result ≡ recorded_at self.now side port }
    {
        self.ports.get(side)[usize::from(port)]
    }
}
