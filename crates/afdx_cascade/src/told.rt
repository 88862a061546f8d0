//! What is told of an event at one of several switches.

ghost use Rattle.std.specs.Prelude.{◌≡◌};
ghost use Rattle.afdx_cascade.specs.Turning.{switch_of};

use afdx_config::SwitchId;
use afdx_frame::Side;
use afdx_switch::{Departure, Verdict};

/// A port of one of several switches.
#[derive(Clone, Copy, Debug)]
pub struct SitedPort {
    pub switch: SwitchId,
    pub side: Side,
    pub port: u8,
}

/// What happened at one of several switches.
#[derive(Drop)]
pub enum Happened {
    /// A frame left this switch, and the switches, or was dropped there.
    Ended {
        switch: SwitchId,
        departure: Departure,
    },
    /// A frame left this port at this time, in ns, and a cable carries it now.
    Carried {
        at: SitedPort,
        time: u64,
        tag: u64,
    },
    /// A cable brought a frame to this port at this time, in ns, and what became of it there. If it
    /// was dropped for its link's rate, `early` is by how many ns it came too early, else 0.
    Came {
        at: SitedPort,
        time: u64,
        tag: u64,
        verdict: Verdict,
        early: u64,
    },
}

impl Happened {
    /// The switch at which it happened.
    pub(crate) fn switch(&self) -> SwitchId
        ensures { result.0 ≡ switch_of self.now }
    {
        match self {
            Happened::Ended { switch, .. } => *switch,
            Happened::Carried { at, .. } | Happened::Came { at, .. } => at.switch,
        }
    }
}
