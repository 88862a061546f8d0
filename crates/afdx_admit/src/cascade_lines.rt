//! The lines of admission of a cascade: a walk over those of a row, a switch, and over all.

ghost use Rattle.std.specs.Prelude.{◌≡◌, ◌<◌, length, Some, false};
ghost use Rattle.afdx_frame.specs.Lines.{first_false, each_from};
ghost use Rattle.afdx_config.specs.Rows.{Rows, system_row, link_row};
ghost use Rattle.afdx_config.specs.Lawful.{IsLinkUpTo, jitter_from_any};
ghost use Rattle.afdx_config.specs.Switches.{AreSwitches, named_rows};
ghost use Rattle.afdx_admit.specs.Cascade as spec;
ghost use Rattle.afdx_admit.specs.AtSwitch.{IsRowAt, tables_at, is_unread};
ghost use Rattle.afdx_admit.specs.Sums.{CanSend};
ghost use Rattle.afdx_admit.specs.Walk.{Walks};

use crate::cascade_fault::{CascadeFault, SwitchFault};
use crate::cascade_found::CascadeFound;
use crate::found::{First, Found, add_if_false};
use crate::way::{latency_of, row_before, row_of};
use afdx_config::{Link, SwitchId, Switches, System, SystemId, Tables};
use afdx_frame::VlId;

/// Adds the faults of all switches by their own tables.
fn add_owns<E, C: CascadeFound<E>>(found: &mut C, switches: &Switches) -> Result<(), E>
    ensures walks { Walks C.Stops (C.items found.old) (C.items found.new)
        (each_from (spec.own_lines switches.now) 0 (length switches.now)) result }
    ensures switches { AreSwitches switches.now }
{
    let count = switches.id_count();
    for k in 0..count {
        let switch = SwitchId(k);
        found.add_own(switch, switches.tables(switch))?;
    }
    Ok(())
}

/// Whether two rows of a link promise the same of what it may send.
fn same_contract(before: &Link, link: &Link) -> bool
    ensures { result ≡ spec.same_contract (link_row before.now) (link_row link.now) }
{
    before.bag_ms == link.bag_ms
        && before.lmin == link.lmin
        && before.lmax == link.lmax
        && before.policing == link.policing
}

/// How late a frame may be behind a row's switch, in us.
pub fn late_behind(link: &Link) -> u64
    requires { CanSend (link_row link.now) }
    ensures { result ≡ spec.late_behind (link_row link.now) }
{
    link.jitter_us + link.latency_us
}

/// Whether a row goes to a system of its switch.
pub fn goes_to_system(tables: &Tables, link: &Link) -> bool
    ensures { result ≡ spec.goes_to_system tables.now (link_row link.now) }
{
    link.to.iter().any(|place| tables.is_own(*place))
}

/// Whether a row's skew allows for a way of so many us, which is asked where the link goes to a
/// system of the switch.
fn allows_way(tables: &Tables, link: &Link, sum: u64) -> bool
    ensures { result ≡ spec.allows_way tables.now (link_row link.now) sum }
{
    !goes_to_system(tables, link) || sum <= link.skew_us
}

/// Adds the faults of a row with the one before it and the sum of its way, in us.
fn add_hop<E, C: Found<CascadeFault, E>>(
    found: &mut C,
    switch: SwitchId,
    tables: &Tables,
    before: &Link,
    link: &Link,
    sum: u64,
) -> Result<(), E>
    requires { CanSend (link_row before.now) }
    ensures { Walks C.Stops (C.items found.old) (C.items found.new)
        (spec.lines_of_hop switch.0 tables.now (link_row before.now) (link_row link.now) sum)
        result }
{
    let same = same_contract(before, link);
    let fault = SwitchFault::Contract(link.vl);
    add_if_false(found, same, CascadeFault { switch, fault })?;
    let needed = late_behind(before);
    let fault = SwitchFault::HopJitter(link.vl, needed);
    add_if_false(
        found,
        needed <= link.jitter_us,
        CascadeFault { switch, fault },
    )?;
    let allows = allows_way(tables, link, sum);
    let fault = SwitchFault::PathSkew(link.vl, sum);
    add_if_false(found, allows, CascadeFault { switch, fault })
}

/// The fault of a row to which there is no way.
fn unfed(switch: SwitchId, link: &Link) -> CascadeFault
    ensures { result ≡ (spec.fed_line false switch.0 (link_row link.now)).fault }
{
    CascadeFault {
        switch,
        fault: SwitchFault::Unfed(link.vl),
    }
}

/// Adds the faults of a row of a switch by the rows on its way. There is none where a system sends
/// the link.
fn add_row<E, C: Found<CascadeFault, E>>(
    found: &mut C,
    switches: &Switches,
    switch: SwitchId,
    link: &Link,
) -> Result<(), E>
    requires { IsRowAt switches.now (spec.row_at switch.0 (link_row link.now)) }
    ensures { (t : Rows) → tables_at switches.now switch.0 ≡ Some t →
        Walks C.Stops (C.items found.old) (C.items found.new)
        (spec.lines_of_row switches.now switch.0 t (link_row link.now)) result }
{
    let tables = switches.tables(switch);
    if tables.is_own(link.from) {
        return Ok(());
    }
    let Some((_, before)) = row_before(switches, switch, link) else {
        return add_if_false(found, false, unfed(switch, link));
    };
    let Some(sum) = latency_of(switches, switch, link) else {
        return add_if_false(found, false, unfed(switch, link));
    };
    add_hop(found, switch, tables, before, link, sum)
}

/// Adds the faults of the rows of a switch that come from neighbours.
fn add_hops_at<E, C: Found<CascadeFault, E>>(
    found: &mut C,
    switches: &Switches,
    switch: SwitchId,
) -> Result<(), E>
    requires { switch.0 < length switches.now }
    ensures { Walks C.Stops (C.items found.old) (C.items found.new)
        (spec.hops_lines switches.now switch.0) result }
{
    let tables = switches.tables(switch);
    let count = tables.link_count();
    for i in 0..count {
        add_row(found, switches, switch, tables.link(i))?;
    }
    Ok(())
}

/// Adds the faults of all rows that come from neighbours.
fn add_hops<E, C: Found<CascadeFault, E>>(found: &mut C, switches: &Switches) -> Result<(), E>
    ensures { Walks C.Stops (C.items found.old) (C.items found.new)
        (each_from (spec.hops_lines switches.now) 0 (length switches.now)) result }
{
    let count = switches.id_count();
    for k in 0..count {
        add_hops_at(found, switches, SwitchId(k))?;
    }
    Ok(())
}

/// Whether a place is that of the neighbour of this name.
fn is_neighbour(tables: &Tables, name: &str, place: SystemId) -> bool
    ensures { result ≡ spec.is_neighbour tables.now name.now place.0 }
{
    match tables.neighbour_named(name) {
        Some(neighbour) => neighbour == place,
        None => false,
    }
}

/// Whether a switch has a row of this link that comes from its neighbour of this name.
fn comes_from(tables: &Tables, name: &str, vl: VlId) -> bool
    ensures { result ≡ spec.comes_from tables.now name.now vl.0 }
{
    match row_of(tables, vl) {
        Some(link) => is_neighbour(tables, name, link.from),
        None => false,
    }
}

/// Whether a neighbour of the switch called `name` has a row of this link that comes from there.
fn reads(switches: &Switches, name: &str, vl: VlId, neighbour: &System) -> bool
    ensures { result ≡ spec.reads_at switches.now name.now vl.0 (system_row neighbour.now) }
{
    match switches.named(neighbour.name.as_str()) {
        Some(switch) => comes_from(switches.tables(switch), name, vl),
        None => false,
    }
}

/// Whether what stands at a place of the switch called `name`, to which the link goes, is a
/// neighbour that doesn't read it.
fn is_unread(switches: &Switches, name: &str, tables: &Tables, link: &Link, place: SystemId) -> bool
    requires { place.0 < length tables.now.systems }
    ensures { result ≡ is_unread switches.now (named_rows name.now tables.now)
        (link_row link.now) place.0 }
{
    !tables.is_own(place) && !reads(switches, name, link.vl, tables.system(place))
}

/// Adds the faults of the neighbours to which a row of a switch goes. The switch has this name and
/// these tables.
fn add_readers_of<E, C: Found<CascadeFault, E>>(
    found: &mut C,
    switches: &Switches,
    switch: SwitchId,
    name: &str,
    tables: &Tables,
    link: &Link,
) -> Result<(), E>
    requires { IsLinkUpTo jitter_from_any (length tables.now.systems) (link_row link.now) }
    ensures { Walks C.Stops (C.items found.old) (C.items found.new)
        (spec.lines_of_readers switches.now switch.0 (named_rows name.now tables.now)
        (link_row link.now)) result }
{
    for place in &link.to {
        if is_unread(switches, name, tables, link, *place) {
            let fault = SwitchFault::Unread(link.vl, *place);
            found.add(CascadeFault { switch, fault })?;
        }
    }
    Ok(())
}

/// Adds the faults of the neighbours to which the rows of a switch go.
fn add_readers_at<E, C: Found<CascadeFault, E>>(
    found: &mut C,
    switches: &Switches,
    switch: SwitchId,
) -> Result<(), E>
    requires { switch.0 < length switches.now }
    ensures { Walks C.Stops (C.items found.old) (C.items found.new)
        (spec.readers_lines switches.now switch.0) result }
{
    let name = switches.name(switch);
    let tables = switches.tables(switch);
    let count = tables.link_count();
    for i in 0..count {
        add_readers_of(found, switches, switch, name, tables, tables.link(i))?;
    }
    Ok(())
}

/// Adds the faults of the neighbours to which rows go.
fn add_readers<E, C: Found<CascadeFault, E>>(found: &mut C, switches: &Switches) -> Result<(), E>
    ensures { Walks C.Stops (C.items found.old) (C.items found.new)
        (each_from (spec.readers_lines switches.now) 0 (length switches.now)) result }
{
    let count = switches.id_count();
    for k in 0..count {
        add_readers_at(found, switches, SwitchId(k))?;
    }
    Ok(())
}

/// Adds the faults of all lines: of the switches by their own tables, of the rows that come from
/// neighbours, of those that go to neighbours, each in file order.
pub(crate) fn add_cascade_lines<E, C: CascadeFound<E>>(
    found: &mut C,
    switches: &Switches,
) -> Result<(), E>
    ensures walks { Walks C.Stops (C.items found.old) (C.items found.new)
        (spec.cascade_lines switches.now) result }
    ensures switches { AreSwitches switches.now }
{
    add_owns(found, switches)?;
    add_hops(found, switches)?;
    add_readers(found, switches)
}

/// The first false line of all.
pub(crate) fn first_fault(switches: &Switches) -> Option<CascadeFault>
    ensures fault { result ≡ first_false (spec.cascade_lines switches.now) }
    ensures switches { AreSwitches switches.now }
{
    match add_cascade_lines(&mut First, switches) {
        Ok(()) => None,
        Err(fault) => Some(fault),
    }
}
