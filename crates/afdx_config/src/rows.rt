//! The rows of the tables, with the keys of the format as fields.

use afdx_frame::{Policing, Priority, VlId};

/// The place of a system or neighbour in the configuration, from 0.
#[derive(Clone, Copy, Debug, PartialEq, Eq, Hash)]
pub struct SystemId(pub u8);

/// An end system.
#[derive(Debug, Drop)]
pub struct System {
    pub name: String,
    /// Its port of the switch, 1 to 24.
    pub port: u8,
    /// Its number in source addresses.
    pub id: u16,
    /// The last byte of its IPv4 source address.
    pub partition: u8,
    /// The rate of its line, in Mbit/s.
    pub rate: u64,
}

/// A virtual link (ARINC 664 Part 7). Frame lengths are in bytes, with the check sequence.
#[derive(Debug, Drop)]
pub struct Link {
    pub vl: VlId,
    pub from: SystemId,
    pub to: Vec<SystemId>,
    /// The bandwidth allocation gap.
    pub bag_ms: u64,
    pub lmin: u64,
    pub lmax: u64,
    pub jitter_us: u64,
    pub priority: Priority,
    pub policing: Policing,
    /// The longest that a frame may take through the switch.
    pub latency_us: u64,
    /// The longest between the copies of a frame on the two networks.
    pub skew_us: u64,
    /// How many sub-VLs it has, 1 to 4.
    pub subs: u64,
}

impl Link {
    ghost use Rattle.std.specs.Prelude.{◌≡◌};
    ghost use Rattle.afdx_config.specs.Rows.{link_row, is_to};

    /// Whether the link goes to the system.
    #[tactic(auto, using(crate::proofs::GatheredLemmas::any_places))]
    pub fn goes_to(&self, system: SystemId) -> bool
        ensures { result ≡ is_to system.0 (link_row self.now) }
    {
        self.to.contains(&system)
    }
}

/// The keys of a link that follow from the traffic, in us.
#[derive(Clone, Copy, Debug, PartialEq, Eq)]
pub struct Times {
    pub jitter_us: u64,
    pub latency_us: u64,
    pub skew_us: u64,
}

/// Which of the keys that follow from the traffic stay as they are.
#[derive(Clone, Copy, Debug, PartialEq, Eq)]
pub struct KeptKeys {
    pub jitter: bool,
    pub buffer: bool,
    pub latency: bool,
    pub skew: bool,
}

/// What a communication port does with its messages.
#[derive(Clone, Copy, Debug, PartialEq, Eq)]
pub enum Kind {
    /// It keeps the newest.
    Sampling,
    /// First in, first out.
    Queuing,
}

/// A communication port of a system.
#[derive(Clone, Copy, Debug, PartialEq, Eq)]
pub struct ComRow {
    pub system: SystemId,
    pub link: VlId,
    pub udp: u16,
    pub kind: Kind,
    /// How many messages it holds.
    pub depth: u64,
}
