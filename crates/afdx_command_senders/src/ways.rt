//! How systems get a link, over one switch of a side or over several.

ghost use Rattle.std.specs.Prelude.{◌≡◌, ◌<◌, ◌≤◌, ◌+◌, ◌*◌, ◌++◌};
ghost use Rattle.std.specs.Prelude.{IfOk, OnOk, Some, length, map, option_map, slice_get};
ghost use Rattle.std.specs.List.{AllByRecursion};
ghost use Rattle.afdx_config.specs.Lawful.{IsLinkUpTo, jitter_from_any};
ghost use Rattle.afdx_config.specs.Rows.{LinkRow, link_row, system_places};
ghost use Rattle.afdx_config.specs.Switches.{most_switches};
ghost use Rattle.afdx_frame.specs.Regulation.{greatest_delay, slowest_byte};
ghost use Rattle.afdx_lawful.specs.Ways.{way_of};
ghost use Rattle.afdx_command_senders.specs.LinkWays as spec;

use crate::outlook::SenderOutlook;
use afdx_admit::{RowWay, row_of, way_to};
use afdx_config::{Link, SwitchId, Switches, SystemId, Tables};
use afdx_frame::VlId;
use afdx_lawful::SystemWay;
use std::alloc::{AllocError, Global};

/// How the system at this place gets a link from a row, to which frames come this way.
fn way_on(tables: &Tables, link: &Link, way: RowWay, place: SystemId) -> SystemWay
    requires link { IsLinkUpTo jitter_from_any (length tables.now.systems) (link_row link.now) }
    requires place { place.0 < length tables.now.systems }
    requires latency { way.latency ≤ most_switches * greatest_delay }
    requires cables { way.cables + slowest_byte ≤ most_switches * slowest_byte }
    ensures { way_of result ≡ spec.way_on tables.now (link_row link.now) way place.0 }
{
    let byte_ns = way.cables + tables.byte_ns(place);
    let Some(on) = SystemWay::new(1000 * link.skew_us, 1000 * way.latency, byte_ns) else {
        // Never: a skew is at most 100 ms, and a byte lasts at most 800 ns on each of 24 lines.
        unreachable!();
    };
    on
}

/// Puts how systems among these places get a link from a row behind others.
#[tactic(auto, unfolding(crate::specs::LinkWays::ways_among))]
fn put_ways(
    tables: &Tables,
    link: &Link,
    way: RowWay,
    places: &[SystemId],
    ways: &mut Vec<SystemWay>,
) -> Result<(), AllocError>
    requires link { IsLinkUpTo jitter_from_any (length tables.now.systems) (link_row link.now) }
    requires within { AllByRecursion (λ i. i < length tables.now.systems)
        (system_places places.now) }
    requires latency { way.latency ≤ most_switches * greatest_delay }
    requires cables { way.cables + slowest_byte ≤ most_switches * slowest_byte }
    ensures { OnOk result (map way_of ways.new.items ≡ map way_of ways.old.items
        ++ spec.ways_among tables.now (link_row link.now) way (system_places places.now)) }
{
    match places {
        [] => Ok(()),
        [first, rest @ ..] => {
            if tables.is_own(*first) {
                ways.push(way_on(tables, link, way, *first))?;
            }
            put_ways(tables, link, way, rest, ways)
        }
    }
}

/// How each system of the one switch gets the link at this place, in the order of its receivers.
fn own_ways(alloc: Global, tables: &Tables, place: usize) -> Result<Vec<SystemWay>, AllocError>
    requires { place < length tables.now.links }
    ensures { (l : LinkRow) → slice_get tables.now.links place ≡ Some l →
        IfOk result (λ ways. map way_of ways.items ≡ spec.ways_of tables.now l) }
{
    let link = tables.link(place);
    let mut ways = Vec::new(alloc);
    let way = RowWay {
        latency: link.latency_us,
        cables: 0,
    };
    put_ways(tables, link, way, link.to.as_slice(), &mut ways)?;
    Ok(ways)
}

/// Puts how the systems of a switch get a link behind others: none does where it has no row of it,
/// or where the way to that is broken.
#[tactic(auto, unfolding(crate::specs::LinkWays::ways_at))]
fn put_ways_at(
    switches: &Switches,
    vl: VlId,
    switch: SwitchId,
    ways: &mut Vec<SystemWay>,
) -> Result<(), AllocError>
    requires { switch.0 < length switches.now }
    ensures { OnOk result (map way_of ways.new.items
        ≡ map way_of ways.old.items ++ spec.ways_at switches.now vl.0 switch.0) }
{
    let tables = switches.tables(switch);
    let Some(link) = row_of(tables, vl) else {
        return Ok(());
    };
    let Some(way) = way_to(switches, switch, link) else {
        return Ok(());
    };
    put_ways(tables, link, way, link.to.as_slice(), ways)
}

/// How each system of a cascade gets a link, switch by switch.
fn cascade_ways(alloc: Global, switches: &Switches, vl: VlId) -> Result<Vec<SystemWay>, AllocError>
    ensures { IfOk result (λ ways.
        map way_of ways.items ≡ spec.cascade_ways switches.now vl.0) }
{
    let count = switches.id_count();
    let mut ways = Vec::new(alloc);
    for k in 0..count {
        put_ways_at(switches, vl, SwitchId(k), &mut ways)?;
    }
    Ok(ways)
}

/// How each system gets the link at this place that does, wherever in the configuration it stands.
/// Fails only out of memory.
pub(crate) fn link_ways(
    alloc: Global,
    outlook: &SenderOutlook<'_>,
    place: usize,
) -> Result<Vec<SystemWay>, AllocError>
    requires { place < length outlook.now.tables.now.links }
    ensures { (l : LinkRow) → slice_get outlook.now.tables.now.links place ≡ Some l →
        IfOk result (λ ways. map way_of ways.items ≡ spec.ways_by
        (option_map (λ switches. switches.now) outlook.now.among) outlook.now.tables.now l) }
{
    match outlook.among {
        None => own_ways(alloc, outlook.tables, place),
        Some(switches) => cascade_ways(alloc, switches, outlook.tables.link(place).vl),
    }
}
