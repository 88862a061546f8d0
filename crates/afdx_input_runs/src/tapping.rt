//! At which ports frames were recorded, as the options of a run say it.

ghost use Rattle.std.specs.Prelude.{◌≡◌};
ghost use Rattle.afdx_input_sources.specs.Tapping.{Taps as Tapped, taps_in};

use afdx_input_lines::ByRole;
use afdx_input_sources::{RecordingOptions, Taps};

/// What is said of two lists, which need no options.
#[derive(Clone, Copy, Debug)]
pub struct AsLists;

/// Options of a run over what came to switches and what left them.
pub trait Tapping {
    /// The ports at which frames were recorded.
    ghost tapped: { Self → Tapped };

    /// The ports at which frames were recorded: all, of lists.
    fn taps(&self) -> Taps
        ensures { taps_in result ≡ tapped self.now };
}

impl Tapping for AsLists {
    ghost use Rattle.afdx_input_sources.specs.Tapping.{all_taps};

    ghost tapped = { λ options. all_taps };

    fn taps(&self) -> Taps {
        Taps::all()
    }
}

impl Tapping for RecordingOptions {
    ghost use Rattle.afdx_input_runs.specs.SeenFrames.{taps_of_one};

    ghost tapped = { taps_of_one };

    fn taps(&self) -> Taps {
        let mut taps = Taps::none();
        taps.add_all(&self.interfaces);
        taps
    }
}

impl Tapping for ByRole<RecordingOptions> {
    ghost use Rattle.afdx_input_runs.specs.SeenFrames.{taps_of_two};

    ghost tapped = { taps_of_two };

    fn taps(&self) -> Taps {
        let mut taps = Taps::none();
        taps.add_all(&self.came.interfaces);
        taps.add_all(&self.left.interfaces);
        taps
    }
}
