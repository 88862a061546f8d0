//! How far apart the copies of a frame may be sent on the two networks: what the tables leave.

ghost use Rattle.std.specs.Prelude.{◌≡◌, ◌<◌, ◌≤◌, ◌+◌, ◌*◌, length, Some, IfSome};
ghost use Rattle.std.specs.List.{AllByRecursion};
ghost use Rattle.afdx_frame.specs.Regulation.{greatest_delay, slowest_byte};
ghost use Rattle.afdx_config.specs.Rows.{Rows, link_row, system_places};
ghost use Rattle.afdx_config.specs.Lawful.{IsLinkUpTo, jitter_from_any};
ghost use Rattle.afdx_config.specs.Switches.{most_switches};
ghost use Rattle.afdx_admit.specs.Cascade.{row_at};
ghost use Rattle.afdx_admit.specs.Apart as spec;
ghost use Rattle.afdx_admit.specs.AtSwitch.{IsRowAt, tables_at};

use crate::way::{latency_of, row_before, row_of};
use afdx_config::{Link, SwitchId, Switches, SystemId, Tables};
use afdx_frame::VlId;

/// The bytes that stand before a frame on a line: preamble and start delimiter.
const BEFORE_A_FRAME: u64 = 8;

/// The way of a frame to a row, itself among its rows.
#[derive(Clone, Copy, Debug)]
pub struct RowWay {
    /// The latencies of its rows, summed, in us.
    pub latency: u64,
    /// The times of a byte on its cables, summed, in ns.
    pub cables: u64,
}

/// The time of a byte on the line to what stands at a place, in ns.
fn byte_to(tables: &Tables, place: SystemId) -> u64
    requires { place.0 < length tables.now.systems }
    ensures time { result ≡ spec.byte_to tables.now place.0 }
    ensures small { result ≤ slowest_byte }
{
    tables.byte_ns(place)
}

/// What a row leaves the copies to the system at a place, in ns.
fn left_to(tables: &Tables, link: &Link, way: RowWay, place: SystemId) -> u64
    requires link { IsLinkUpTo jitter_from_any (length tables.now.systems) (link_row link.now) }
    requires place { place.0 < length tables.now.systems }
    requires latency { way.latency ≤ most_switches * greatest_delay }
    requires cables { way.cables ≤ most_switches * slowest_byte }
    ensures { result ≡ spec.left_to tables.now (link_row link.now) way place.0 }
{
    let bytes = link.lmin + BEFORE_A_FRAME;
    let least = bytes * (way.cables + byte_to(tables, place));
    let longest = 1000 * way.latency;
    (1000 * link.skew_us).saturating_sub(longest.saturating_sub(least))
}

/// The lesser of two numbers, of which each may be absent.
fn lesser(least: Option<u64>, other: Option<u64>) -> Option<u64>
    ensures { result ≡ spec.lesser least other }
{
    match (least, other) {
        (Some(least), Some(other)) => Some(least.min(other)),
        (Some(least), None) => Some(least),
        (None, other) => other,
    }
}

/// What a row leaves the copies to what stands at a place, if that is a system.
fn left_if_own(tables: &Tables, link: &Link, way: RowWay, place: SystemId) -> Option<u64>
    requires link { IsLinkUpTo jitter_from_any (length tables.now.systems) (link_row link.now) }
    requires place { place.0 < length tables.now.systems }
    requires latency { way.latency ≤ most_switches * greatest_delay }
    requires cables { way.cables ≤ most_switches * slowest_byte }
    ensures { result ≡ spec.if_own (spec.left_to tables.now (link_row link.now) way)
        tables.now.own place.0 }
{
    if tables.is_own(place) {
        Some(left_to(tables, link, way, place))
    } else {
        None
    }
}

/// The least of what a row leaves the copies to some systems.
#[tactic(auto, unfolding(crate::specs::Apart::least_to))]
fn least_to(tables: &Tables, link: &Link, way: RowWay, places: &[SystemId]) -> Option<u64>
    requires link { IsLinkUpTo jitter_from_any (length tables.now.systems) (link_row link.now) }
    requires within { AllByRecursion (λ i. i < length tables.now.systems)
        (system_places places.now) }
    requires latency { way.latency ≤ most_switches * greatest_delay }
    requires cables { way.cables ≤ most_switches * slowest_byte }
    ensures { result ≡ spec.least_to (spec.left_to tables.now (link_row link.now) way)
        tables.now.own (system_places places.now) }
{
    match places {
        [] => None,
        [first, rest @ ..] => {
            let here = left_if_own(tables, link, way, *first);
            lesser(here, least_to(tables, link, way, rest))
        }
    }
}

/// The least of what a row leaves the copies to the systems that it goes to.
fn row_apart(tables: &Tables, link: &Link, way: RowWay) -> Option<u64>
    requires link { IsLinkUpTo jitter_from_any (length tables.now.systems) (link_row link.now) }
    requires latency { way.latency ≤ most_switches * greatest_delay }
    requires cables { way.cables ≤ most_switches * slowest_byte }
    ensures { result ≡ spec.row_apart tables.now (link_row link.now) way }
{
    least_to(tables, link, way, link.to.as_slice())
}

/// How far apart the copies of a frame of a link may be sent on the two networks, in ns, so that
/// each system that gets it takes them for copies, where there is one switch on a side: what its
/// skew and its latency leave. It is also 0 where they leave nothing.
pub fn link_apart(tables: &Tables, link: &Link) -> Option<u64>
    requires { IsLinkUpTo jitter_from_any (length tables.now.systems) (link_row link.now) }
    ensures { result ≡ spec.link_apart tables.now (link_row link.now) }
{
    let way = RowWay {
        latency: link.latency_us,
        cables: 0,
    };
    row_apart(tables, link, way)
}

/// The time of a byte on the cable that a row of a switch comes from, in ns.
fn cable_of(switches: &Switches, switch: SwitchId, link: &Link) -> u64
    requires { IsRowAt switches.now (row_at switch.0 (link_row link.now)) }
    ensures time { result ≡ spec.cable_of switches.now (row_at switch.0 (link_row link.now)) }
    ensures small { result ≤ slowest_byte }
{
    byte_to(switches.tables(switch), link.from)
}

/// The times of a byte on all cables of the way to this row of a switch, summed, in ns, if it has
/// at most so many rows.
#[tactic(auto, unfolding(crate::specs::Cascade::is_sent_here))]
fn cables_within(switches: &Switches, switch: SwitchId, link: &Link, count: usize) -> Option<u64>
    requires row { IsRowAt switches.now (row_at switch.0 (link_row link.now)) }
    requires few { count ≤ most_switches }
    ensures sum { result ≡ spec.cables_within count switches.now
        (row_at switch.0 (link_row link.now)) }
    ensures small { IfSome result (λ sum. sum + slowest_byte ≤ count * slowest_byte) }
{
    if count == 0 {
        return None;
    }
    if switches.tables(switch).is_own(link.from) {
        return Some(0);
    }
    let (far, before) = row_before(switches, switch, link)?;
    let sum = cables_within(switches, far, before, count - 1)?;
    Some(sum + cable_of(switches, switch, link))
}

/// The same, if the way is whole.
#[tactic(auto, unfolding(crate::specs::Apart::way_cables))]
fn way_cables(switches: &Switches, switch: SwitchId, link: &Link) -> Option<u64>
    requires { IsRowAt switches.now (row_at switch.0 (link_row link.now)) }
    ensures sum { result ≡ spec.way_cables switches.now (row_at switch.0 (link_row link.now)) }
    ensures small { IfSome result (λ sum.
        sum + slowest_byte ≤ most_switches * slowest_byte) }
{
    cables_within(switches, switch, link, switches.count())
}

/// The way to this row of a switch; None where it is broken: where a neighbour on it doesn't send
/// the link on.
#[tactic(auto, unfolding(crate::specs::Apart::way_to))]
pub fn way_to(switches: &Switches, switch: SwitchId, link: &Link) -> Option<RowWay>
    requires { IsRowAt switches.now (row_at switch.0 (link_row link.now)) }
    ensures way { result ≡ spec.way_to switches.now (row_at switch.0 (link_row link.now)) }
    ensures latency { IfSome result (λ way. way.latency ≤ most_switches * greatest_delay) }
    ensures cables { IfSome result (λ way.
        way.cables + slowest_byte ≤ most_switches * slowest_byte) }
{
    let latency = latency_of(switches, switch, link)?;
    let cables = way_cables(switches, switch, link)?;
    Some(RowWay { latency, cables })
}

/// How far apart the copies of a frame of a link may be sent, by the systems that get it from this
/// row of a switch alone.
pub fn row_apart_at(switches: &Switches, switch: SwitchId, link: &Link) -> Option<u64>
    requires { IsRowAt switches.now (row_at switch.0 (link_row link.now)) }
    ensures { (t : Rows) → tables_at switches.now switch.0 ≡ Some t →
        result ≡ spec.row_apart_at switches.now switch.0 t (link_row link.now) }
{
    let way = way_to(switches, switch, link)?;
    row_apart(switches.tables(switch), link, way)
}

/// The same by those of its row at a switch, if it has one.
#[tactic(auto, unfolding(crate::specs::Apart::apart_at))]
fn apart_at(switches: &Switches, vl: VlId, switch: SwitchId) -> Option<u64>
    requires { switch.0 < length switches.now }
    ensures { result ≡ spec.apart_at switches.now vl.0 switch.0 }
{
    let link = row_of(switches.tables(switch), vl)?;
    row_apart_at(switches, switch, link)
}

/// The same as [`link_apart`], of a link over several switches on a side: the least over all
/// systems that get it, each by the way there.
pub fn cascade_apart(switches: &Switches, vl: VlId) -> Option<u64>
    ensures { result ≡ spec.cascade_apart switches.now vl.0 }
{
    let count = switches.id_count();
    let mut least = None;
    for k in 0..count {
        let here = apart_at(switches, vl, SwitchId(k));
        least = lesser(least, here);
    }
    least
}
