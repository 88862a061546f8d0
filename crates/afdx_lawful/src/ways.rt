//! By how much later the copy of a source's frame may be sent.

ghost use Rattle.std.specs.Prelude.{◌≡◌, ◌≤◌, ◌*◌, ◌/◌};
ghost use Rattle.afdx_conform.specs.Levels.{parts};
ghost use Rattle.afdx_lawful.specs.Ranges.{IsWayInRange, given_ns, most_apart};

use crate::limits::{GREATEST_SKEW, SenderLimits};
use std::alloc::Global;

/// The longest time that a byte can take over the lines of a way, in ns: 24 lines of 10 Mbit/s.
const LONGEST_BYTE: u64 = 19_200;

/// How a system gets a link: its skew, and the longest that a frame takes, in ns; and how many ns a
/// byte lasts on all lines of the way, one after the other.
#[derive(Clone, Copy, Debug)]
pub struct SystemWay {
    skew: u64,
    latency: u64,
    byte_ns: u64,
    ghost in_range: { IsWayInRange skew byte_ns },
}

impl SystemWay {
    ghost use Rattle.std.specs.Prelude.{IfNone, IfSome, ◌<◌, ◌⊎◌, map};
    ghost use Rattle.afdx_lawful.specs.Sources.{left_by as left_of, least_left as least_of};
    ghost use Rattle.afdx_lawful.specs.Ways.{is_way, way_of};

    /// One of a skew of at most 100 ms, over lines on which a byte lasts at most 19,200 ns in all;
    /// else none.
    pub fn new(skew: u64, latency: u64, byte_ns: u64) -> Option<SystemWay>
        ensures given { IfSome result (λ way. way_of way ≡ is_way skew latency byte_ns) }
        ensures none { IfNone result ((100000000 < skew) ⊎ (19200 < byte_ns)) }
    {
        if skew > GREATEST_SKEW || byte_ns > LONGEST_BYTE {
            return None;
        }
        Some(SystemWay {
            skew,
            latency,
            byte_ns,
        })
    }

    /// By how much the copy of a frame of so many bytes may be sent later and still come within the
    /// skew.
    fn left_by(&self, bytes: u64) -> u64
        requires { bytes ≤ 1518 }
        ensures left { result ≡ left_of (way_of self.now) bytes }
        ensures small { result ≤ most_apart }
    {
        let wire = (bytes + 8) * self.byte_ns;
        self.skew.saturating_sub(self.latency.saturating_sub(wire))
    }

    /// The least by all ways of a link.
    #[tactic(auto, unfolding(crate::specs::Sources::least_left))]
    fn least_left(ways: &[SystemWay], bytes: u64) -> u64
        requires { bytes ≤ 1518 }
        ensures least { result ≡ least_of (map way_of ways.now) bytes }
        ensures small { result ≤ most_apart }
    {
        match ways {
            [] => 0,
            [way] => way.left_by(bytes),
            [way, rest @ ..] => way.left_by(bytes).min(SystemWay::least_left(rest, bytes)),
        }
    }
}

/// By how much later copies may be sent: by so many ns, if that is given, else by what the ways of
/// the link leave.
#[derive(Debug, Drop)]
pub struct Apart {
    given: Option<u64>,
    ways: Vec<SystemWay>,
    ghost near: { given_ns given ≤ most_apart },
}

impl Apart {
    ghost use Rattle.std.specs.Prelude.{length};
    ghost use Rattle.afdx_lawful.specs.Limits.{AreLimits};
    ghost use Rattle.afdx_lawful.specs.Sources.{Came, Source as Terms, apart as apart_of};
    ghost use Rattle.std.specs.Prelude.{◌<◌, IfNone, IfSome, None, Some, map};
    ghost use Rattle.afdx_lawful.specs.Ways.{IsApart, way_of};

    /// By so many ns, at most 100,000,000; else none.
    pub fn given(alloc: Global, ns: u64) -> Option<Apart>
        ensures given { IfSome result (λ apart. (s : Terms) → s.given ≡ Some ns →
            IsApart s apart) }
        ensures none { IfNone result (most_apart < ns) }
    {
        if ns > GREATEST_SKEW {
            return None;
        }
        Some(Apart {
            given: Some(ns),
            ways: Vec::new(alloc),
        })
    }

    /// By what the ways of a link leave, to each of the systems that get it.
    pub fn left_by(ways: Vec<SystemWay>) -> Apart
        ensures { (s : Terms) → s.given ≡ None → s.ways ≡ map way_of ways.items →
            IsApart s result }
    {
        Apart { given: None, ways }
    }

    /// The same by a recorder's clock, of a frame of so many bytes.
    pub(crate) fn of(&self, limits: &SenderLimits, bytes: u64) -> u64
        requires { bytes ≤ 1518 }
        ensures apart { (s : Terms) (x : Came) → AreLimits s limits.now → IsApart s self.now →
            length x.bytes ≡ bytes → result ≡ apart_of s x }
        ensures near { result ≤ 200000000 }
        ensures within { result ≤ parts * most_apart / limits.now.slow }
    {
        let ns = match self.given {
            Some(ns) => ns,
            None => SystemWay::least_left(self.ways.as_slice(), bytes),
        };
        limits.longest(ns)
    }
}

/// What a source's frames are held against: what may be off, by how much later copies may be sent,
/// from when on, in ns, frames are known if some may have been sent before, and whether both
/// networks are seen.
#[derive(Debug, Drop)]
pub(crate) struct SourceTerms {
    pub limits: SenderLimits,
    pub apart: Apart,
    pub start: Option<u64>,
    pub is_paired: bool,
}
