//! The way of a link through a cascade: from a row back to the one that a system sends.

ghost use Rattle.std.specs.Prelude.{◌≡◌, ◌<◌, ◌≤◌, ◌*◌, length, slice_get, Some, IfSome, IsSome};
ghost use Rattle.std.specs.Prelude.{option_map, option_and_then};
ghost use Rattle.afdx_frame.specs.Regulation.{greatest_delay};
ghost use Rattle.afdx_config.specs.Rows.{system_row, link_row};
ghost use Rattle.afdx_config.specs.Lawful.{IsLinkUpTo, jitter_from_any};
ghost use Rattle.afdx_config.specs.Switches.{most_switches};
ghost use Rattle.afdx_admit.specs.Cascade as spec;
ghost use Rattle.afdx_admit.specs.AtSwitch.{IsRowAt, link_at};

use afdx_config::{Link, SwitchId, Switches, System, SystemId, Tables};
use afdx_frame::VlId;

/// The row of this link at a switch.
pub fn row_of(tables: &Tables, vl: VlId) -> Option<&Link>
    ensures row { option_map (λ l. link_row l.now) result ≡ spec.row_of tables.now vl.0 }
    ensures lawful { IfSome result (λ l.
        IsLinkUpTo jitter_from_any (length tables.now.systems) (link_row l.now)) }
{
    let index = tables.link_of(vl)?;
    Some(tables.link(index))
}

/// What stands at a place, if it is a neighbour.
fn neighbour_of(tables: &Tables, place: SystemId) -> Option<&System>
    requires { place.0 < length tables.now.systems }
    ensures { option_map (λ e. system_row e.now) result ≡ spec.neighbour_of tables.now place.0 }
{
    if tables.is_own(place) {
        None
    } else {
        Some(tables.system(place))
    }
}

/// The row of this link at a switch, where it goes to the neighbour of this name.
fn row_towards<'a>(tables: &'a Tables, name: &str, vl: VlId) -> Option<&'a Link>
    ensures row { option_map (λ l. link_row l.now) result
        ≡ spec.row_towards tables.now name.now vl.0 }
    ensures lawful { IfSome result (λ l.
        IsLinkUpTo jitter_from_any (length tables.now.systems) (link_row l.now)) }
{
    let link = row_of(tables, vl)?;
    let neighbour = tables.neighbour_named(name)?;
    if link.goes_to(neighbour) {
        Some(link)
    } else {
        None
    }
}

/// The row before that of a link at the switch called `name`, which comes from this neighbour: its
/// switch, and what stands there.
fn row_from<'a>(
    switches: &'a Switches,
    name: &str,
    vl: VlId,
    neighbour: &System,
) -> Option<(SwitchId, &'a Link)>
    ensures row { option_map (λ r. spec.row_at r.0.0 (link_row r.1.now)) result
        ≡ spec.row_from switches.now name.now vl.0 (system_row neighbour.now) }
    ensures stands { IfSome result (λ r.
        IsRowAt switches.now (spec.row_at r.0.0 (link_row r.1.now))) }
{
    let switch = switches.named(neighbour.name.as_str())?;
    let link = row_towards(switches.tables(switch), name, vl)?;
    Some((switch, link))
}

/// The row before this one of a switch: its switch, and what stands there. There is none where a
/// system sends the link, nor where the neighbour that it comes from doesn't send it here.
#[tactic(auto, unfolding(crate::specs::Cascade::row_before))]
pub fn row_before<'a>(
    switches: &'a Switches,
    switch: SwitchId,
    link: &Link,
) -> Option<(SwitchId, &'a Link)>
    requires { IsRowAt switches.now (spec.row_at switch.0 (link_row link.now)) }
    ensures row { option_map (λ r. spec.row_at r.0.0 (link_row r.1.now)) result
        ≡ spec.row_before switches.now (spec.row_at switch.0 (link_row link.now)) }
    ensures stands { IfSome result (λ r.
        IsRowAt switches.now (spec.row_at r.0.0 (link_row r.1.now))) }
{
    let neighbour = neighbour_of(switches.tables(switch), link.from)?;
    row_from(switches, switches.name(switch), link.vl, neighbour)
}

/// The sum of the latencies on the way to this row of a switch, itself among them, if it has at
/// most so many rows.
#[tactic(auto, unfolding(crate::specs::Cascade::is_sent_here))]
fn latency_within(switches: &Switches, switch: SwitchId, link: &Link, count: usize) -> Option<u64>
    requires row { IsRowAt switches.now (spec.row_at switch.0 (link_row link.now)) }
    requires few { count ≤ most_switches }
    ensures sum { result ≡ spec.latency_within count switches.now
        (spec.row_at switch.0 (link_row link.now)) }
    ensures small { IfSome result (λ sum. sum ≤ count * greatest_delay) }
{
    if count == 0 {
        return None;
    }
    if switches.tables(switch).is_own(link.from) {
        return Some(link.latency_us);
    }
    let (far, before) = row_before(switches, switch, link)?;
    let sum = latency_within(switches, far, before, count - 1)?;
    Some(sum + link.latency_us)
}

/// The sum of the latencies on the way to this row of a switch.
#[tactic(auto, unfolding(crate::specs::Cascade::way_latency))]
pub fn latency_of(switches: &Switches, switch: SwitchId, link: &Link) -> Option<u64>
    requires { IsRowAt switches.now (spec.row_at switch.0 (link_row link.now)) }
    ensures sum { result
        ≡ spec.way_latency switches.now (spec.row_at switch.0 (link_row link.now)) }
    ensures small { IfSome result (λ sum. sum ≤ most_switches * greatest_delay) }
{
    latency_within(switches, switch, link, switches.count())
}

/// The sum of the latencies on the way of a link to its row at this place of a switch, itself among
/// them, in us: the longest that a frame takes through the switches from the first to this one.
/// None where the way is broken: where a neighbour on it doesn't send the link on.
pub fn way_latency(switches: &Switches, switch: SwitchId, link: usize) -> Option<u64>
    requires { IsSome (link_at switches.now switch.0 link) }
    ensures sum { result
        ≡ option_and_then (λ l. spec.way_latency switches.now (spec.row_at switch.0 l))
        (link_at switches.now switch.0 link) }
    ensures small { IfSome result (λ sum. sum ≤ most_switches * greatest_delay) }
{
    latency_of(switches, switch, switches.tables(switch).link(link))
}
