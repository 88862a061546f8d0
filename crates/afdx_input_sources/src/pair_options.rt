//! What the options of a run over two recordings say.

ghost use Rattle.std.specs.Prelude.{◌≡◌};
ghost use Rattle.afdx_input_sources.specs.Becoming.{options_of};
ghost use Rattle.afdx_input_sources.specs.PairOptions.{options_of_a, options_of_b};

use crate::becoming::RecordingOptions;
use crate::places::Interfaces;
use afdx_frame::{BySide, Side};

/// What the options of a run over two recordings say, that of network A and that of network B.
#[derive(Debug, Drop)]
pub struct PairOptions {
    /// Where the frames of each interface came in, of each of both.
    pub interfaces: BySide<Interfaces>,
    /// Whether each frame of both ends with its check sequence, where that is said.
    pub fcs: Option<bool>,
    /// The moment that is time 0, in ns since 1970, where that is said.
    pub origin: Option<u64>,
    /// How many arrivals of each may have a later moment than one that stands behind them.
    pub reorder: u32,
    /// Whether the stamps of both are those of frames' first bits, else of their last ones.
    pub from_start: bool,
}

impl PairOptions {
    /// What they say of each.
    pub fn split(self) -> (RecordingOptions, RecordingOptions)
        ensures a { options_of result.0 ≡ options_of_a self }
        ensures b { options_of result.1 ≡ options_of_b self }
    {
        let BySide { a, b } = self.interfaces;
        let (fcs, origin, reorder) = (self.fcs, self.origin, self.reorder);
        let from_start = self.from_start;
        let of = |interfaces, network, is_second| RecordingOptions {
            interfaces,
            leaves_unsaid: false,
            fcs,
            origin,
            network: Some(network),
            is_second,
            reorder,
            from_start,
            left_from_start: false,
            are_given: true,
        };
        (of(a, Side::A, false), of(b, Side::B, true))
    }
}
